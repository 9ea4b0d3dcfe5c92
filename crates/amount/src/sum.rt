// The sum of two amounts and the opposite of one, and what every call with two amounts checks.
ghost use Rattle.std.specs.Prelude.{◌≡◌, ◌-◌, ◌*◌, ◌≤◌, ◌^◌, max, pos, neg_ℤ, ◌+ℤ◌, ◌*ℤ◌};
ghost use Rattle.std.specs.Int.{w64};
ghost use Rattle.std.proofs.Common.{SFits};
ghost use Rattle.refusal.specs.Rows.{check_of, means};
ghost use Rattle.whole.specs.Whole.{magnitude_of};
ghost use Rattle.amount.specs.Amounts.{largest, last_scale};
ghost use Rattle.amount.specs.Raising.{nearest, nearer};
ghost use Rattle.amount.specs.Sum.{pair_rows, sum_said, negate_said};

use crate::Amount;
use crate::checks::{check_one, within};
use currency::{Currency, power_of_ten};
use refusal::Refusal;
use whole::{is_negative, magnitude, signed};

// Rows 2 to 5 at two amounts: their scales s and t, their coefficients' magnitudes m and n, their currency numbers c and d.
pub(crate) fn check_two(
    s: u8,
    t: u8,
    m: u64,
    n: u64,
    c: Currency,
    d: Currency,
) -> Result<(), Refusal>
    ensures { result ≡ check_of (pair_rows s t m n c d) }
{
    if Amount::SCALE < s {
        return Err(Refusal::Scale);
    }
    if Amount::SCALE < t {
        return Err(Refusal::Scale);
    }
    if Amount::L < m {
        return Err(Refusal::Magnitude);
    }
    if Amount::L < n {
        return Err(Refusal::Magnitude);
    }
    if Currency::LAST < c.0 {
        return Err(Refusal::Unknown);
    }
    if Currency::LAST < d.0 {
        return Err(Refusal::Unknown);
    }
    if c.0 != d.0 {
        return Err(Refusal::Differ);
    }
    Ok(())
}

// So far from 0 that no amount within L, added to it, brings it back to L.
const FAR: u64 = 2 * Amount::L + 1;

// A magnitude with so many zeros more, or FAR where it is over that.
fn raised_magnitude(m: u64, places: u8) -> u64
    requires { places ≤ last_scale }
    ensures { result ≡ nearest (m * 10 ^ places) }
{
    let tens = power_of_ten(places);
    if FAR / tens < m { FAR } else { m * tens }
}

// A coefficient taken from one scale to a greater one, at most FAR from 0: what is over L stays over L, beside any amount that it is added to or compared with.
pub(crate) fn raised(coefficient: i64, from: u8, to: u8) -> i64
    requires { (from ≤ to) × (to ≤ last_scale) }
    ensures { result ≡ nearer (coefficient *ℤ pos (10 ^ (to - from))) }
{
    signed(
        is_negative(coefficient),
        raised_magnitude(magnitude(coefficient), to - from),
    )
}

fn add(x: i64, y: i64) -> i64
    requires { SFits w64 (x +ℤ y) }
    ensures { result ≡ x +ℤ y }
{
    x + y
}

// The sum of a coefficient x of scale s and a coefficient y of scale t, at the greater of the two scales, where each is raised to.
fn total(x: i64, s: u8, y: i64, t: u8) -> i64
    requires { (s ≤ last_scale) × (t ≤ last_scale) }
    ensures { result ≡ nearer (x *ℤ pos (10 ^ (max s t - s))) +ℤ nearer (y *ℤ pos (10 ^ (max s t - t))) }
{
    let scale = s.max(t);
    add(raised(x, s, scale), raised(y, t, scale))
}

// The opposite of a coefficient.
fn opposite(x: i64) -> i64
    requires { magnitude_of x ≤ largest }
    ensures { result ≡ neg_ℤ x }
{
    signed(!is_negative(x), magnitude(x))
}

impl Amount {
    // The exact sum at the greater of the two scales, or the refusal 2, 3, 4, 5 or 13.
    pub fn sum(self, other: Amount) -> Result<Amount, Refusal>
        ensures { means result ≡ sum_said self other }
    {
        let currency = self.currency;
        let m = magnitude(self.coefficient);
        let n = magnitude(other.coefficient);
        check_two(self.scale, other.scale, m, n, currency, other.currency)?;
        within(Amount {
            currency,
            scale: self.scale.max(other.scale),
            coefficient: total(self.coefficient, self.scale, other.coefficient, other.scale),
        })
    }

    // The opposite amount, or the refusal 2, 3 or 4.
    pub fn negate(self) -> Result<Amount, Refusal>
        ensures { means result ≡ negate_said self }
    {
        let currency = self.currency;
        check_one(self.scale, magnitude(self.coefficient), currency)?;
        Ok(Amount {
            currency,
            scale: self.scale,
            coefficient: opposite(self.coefficient),
        })
    }
}
