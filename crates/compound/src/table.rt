// The rows of a table: all of them in a list of its own first, so that none is written where one is over L.
ghost use Rattle.std.specs.Prelude.{◌≡◌, ◌+◌, ◌≤◌, pos, length, get_or};
ghost use Rattle.whole.specs.Lists.{filled};
ghost use Rattle.amount.specs.Amounts.{largest};
ghost use Rattle.balances.specs.Rule.{points, interest_on};
ghost use Rattle.compound.specs.Table.{row_count, most_periods};
ghost use Rattle.compound.specs.Parts.{Within, Fills, Writes};

use crate::{PERIODS, POINTS};
use amount::Amount;
use refusal::Refusal;
use rounding::{Rule, round};
use whole::signed;

// The rows of the longest table.
const ROWS: usize = PERIODS as usize + 1;

// What a table grows from, once the check let it pass: the principal, and the rate of a period.
#[derive(Clone, Copy)]
pub(crate) struct Table {
    pub(crate) principal: u64,
    pub(crate) rate: u32,
    ghost within_l: { principal ≤ largest },
    ghost within_points: { rate ≤ points },
}

impl Table {
    // The row behind a balance: the balance and its interest.
    #[tactic(auto, using(balances::proofs::Rows::interest_at_most), unfolding(balances::specs::Rule::interest_on))]
    fn next(self, balance: u64) -> u64
        requires { balance ≤ largest }
        ensures { result ≡ balance + interest_on self.rate balance }
    {
        let scaled = balance * u64::from(self.rate);
        balance + round(Rule::HalfEven, false, scaled, POINTS)
    }

    // The rows into a list, as many as it has places, up to the first that is over L.
    fn fill(self, rows: &mut [u64]) -> Result<(), Refusal>
        ensures { Fills self.principal self.rate rows.old result rows.new }
    {
        let mut balance = self.principal;
        for row in rows.iter_mut() {
            if Amount::L < balance {
                return Err(Refusal::Limit);
            }
            *row = balance;
            balance = self.next(balance);
        }
        Ok(())
    }

    // The rows by way of a lent list with a place for each.
    fn write_by(self, rows: &mut [u64], out: &mut [i64]) -> Result<(), Refusal>
        requires rows_in_bounds { length rows.old ≤ length out.old }
        ensures { Writes self.principal self.rate (length rows.old) out.old result out.new }
    {
        self.fill(rows)?;
        copy(rows, out);
        Ok(())
    }

    // The rows to the first places of the output, one more than periods, or refusal 13.
    pub(crate) fn write(self, periods: u32, out: &mut [i64]) -> Result<(), Refusal>
        requires periods_le_most_periods { periods ≤ most_periods }
        requires periods_in_bounds { row_count periods ≤ length out.old }
        ensures { Writes self.principal self.rate (row_count periods) out.old result out.new }
    {
        let mut rows: [u64; ROWS] = [0; ROWS];
        let count = periods as usize + 1;
        self.write_by(&mut rows[..count], out)
    }
}

// Balances to the first places of the output; the others stay.
fn copy(rows: &[u64], out: &mut [i64])
    requires within { Within rows.now }
    requires rows_in_bounds { length rows.now ≤ length out.old }
    ensures { out.new ≡ filled 0 (λ n. pos (get_or rows.now n 0)) (length rows.now) out.old }
{
    for (i, row) in rows.iter().enumerate() {
        out[i] = signed(false, *row);
    }
}
