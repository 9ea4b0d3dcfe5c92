// Compound tables: a principal and its balance after each period.
#![tactic(auto)]

ghost use Rattle.std.specs.Prelude.{◌≡◌, length};
ghost use Rattle.refusal.specs.Rows.{check_of, means_outcome};
ghost use Rattle.whole.specs.Whole.{magnitude_of};
ghost use Rattle.compound.specs.Table.{row_count, taken_rows, table_said, list_after};

use amount::{Amount, check_one};
use currency::Currency;
use refusal::{Refusal, check_rate};
use whole::{is_negative, magnitude};

mod table;

use table::Table;

// The most periods of a table.
pub const PERIODS: u32 = 120;

// A whole in basis points, which is also the largest rate of a period.
pub const POINTS: u64 = 10_000;

// The first row that holds for what the call takes: an amount's, row 6 at the rate and at the periods, row 10 at the principal's sign and row 11 at
// the lent list.
fn check(
    scale: u8,
    m: u64,
    currency: Currency,
    negative: bool,
    rate: u32,
    periods: u32,
    room: usize,
) -> Result<(), Refusal>
    ensures { result ≡ check_of (taken_rows scale m currency negative rate periods room) }
{
    check_one(scale, m, currency)?;
    check_rate(rate, POINTS as u32)?;
    check_rate(periods, PERIODS)?;
    if negative {
        return Err(Refusal::Negative);
    }
    if room < periods as usize + 1 {
        return Err(Refusal::Room);
    }
    Ok(())
}

// The principal and the balance after each period into the first places of `out`, one more than periods, each at the principal's scale; or the
// refusal 2, 3, 4, 6, 10, 11 or 13.
pub fn compound(principal: Amount, rate: u32, periods: u32, out: &mut [i64]) -> Result<(), Refusal>
    ensures said { means_outcome result (row_count periods) ≡ table_said principal rate periods (length out.old) }
    ensures places { out.new ≡ list_after (magnitude_of principal.coefficient) rate (table_said principal rate periods (length out.old)) out.old }
{
    let negative = is_negative(principal.coefficient);
    let m = magnitude(principal.coefficient);
    check(
        principal.scale,
        m,
        principal.currency,
        negative,
        rate,
        periods,
        out.len(),
    )?;
    let table = Table { principal: m, rate };
    table.write(periods, out)
}
