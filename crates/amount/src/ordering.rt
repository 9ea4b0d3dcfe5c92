// The order of two amounts by worth.
ghost use Rattle.std.specs.Prelude.{◌≡◌, ◌-◌, ◌≤◌, ◌^◌, max, pos, ◌*ℤ◌};
ghost use Rattle.refusal.specs.Rows.{means};
ghost use Rattle.whole.specs.Whole.{magnitude_of};
ghost use Rattle.amount.specs.Amounts.{largest, last_scale};
ghost use Rattle.amount.specs.Sum.{compared, order_said};

use crate::Amount;
use crate::sum::{check_two, raised};
use refusal::Refusal;
use std::cmp::Ordering;
use whole::magnitude;

// A coefficient x of scale s against a coefficient y of scale t, at the greater of the two scales.
fn ordered(x: i64, s: u8, y: i64, t: u8) -> Ordering
    requires { (magnitude_of x ≤ largest) × (s ≤ last_scale) × (magnitude_of y ≤ largest) × (t ≤ last_scale) }
    ensures { result ≡ compared (x *ℤ pos (10 ^ (max s t - s))) (y *ℤ pos (10 ^ (max s t - t))) }
{
    let scale = s.max(t);
    raised(x, s, scale).cmp(&raised(y, t, scale))
}

impl Amount {
    // The order by worth, or the refusal 2, 3, 4 or 5.
    pub fn order(self, other: Amount) -> Result<Ordering, Refusal>
        ensures { means result ≡ order_said self other }
    {
        let m = magnitude(self.coefficient);
        let n = magnitude(other.coefficient);
        check_two(self.scale, other.scale, m, n, self.currency, other.currency)?;
        Ok(ordered(self.coefficient, self.scale, other.coefficient, other.scale))
    }
}
