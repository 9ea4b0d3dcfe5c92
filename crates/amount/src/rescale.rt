// An amount taken to another scale.
ghost use Rattle.std.specs.Prelude.{◌≡◌, cond, ◌-◌, ◌≤◌, ◌^◌, leb, pos, ◌*ℤ◌};
ghost use Rattle.refusal.specs.Rows.{check_of, means};
ghost use Rattle.whole.specs.Whole.{magnitude_of};
ghost use Rattle.rounding.specs.Leaf.{rounded};
ghost use Rattle.amount.specs.Amounts.{largest, last_scale};
ghost use Rattle.amount.specs.Raising.{nearer};
ghost use Rattle.amount.specs.Rescaling.{rescale_rows, rescale_by_rule, rescale_said};

use crate::Amount;
use crate::checks::within;
use crate::sum::raised;
use currency::{Currency, power_of_ten};
use refusal::Refusal;
use rounding::{Rule, round};
use whole::{is_negative, magnitude, signed};

// Rows 2, 3 and 4 at an amount of scale s and magnitude m in the currency c, and at the new scale t.
fn check(s: u8, t: u8, m: u64, c: Currency) -> Result<(), Refusal>
    ensures { result ≡ check_of (rescale_rows s t m c) }
{
    if Amount::SCALE < s {
        return Err(Refusal::Scale);
    }
    if Amount::SCALE < t {
        return Err(Refusal::Scale);
    }
    if Amount::L < m {
        return Err(Refusal::Magnitude);
    }
    if Currency::LAST < c.0 {
        return Err(Refusal::Unknown);
    }
    Ok(())
}

// A coefficient divided by a power of ten and rounded by the rule.
fn lowered(rule: Rule, coefficient: i64, places: u8) -> i64
    requires { (magnitude_of coefficient ≤ largest) × (places ≤ last_scale) }
    ensures { result ≡ rounded rule coefficient (10 ^ places) }
{
    let negative = is_negative(coefficient);
    signed(
        negative,
        round(rule, negative, magnitude(coefficient), power_of_ten(places)),
    )
}

// A coefficient taken from one scale to another: raised to a greater one, rounded to a smaller.
fn moved(rule: Rule, coefficient: i64, from: u8, to: u8) -> i64
    requires { (magnitude_of coefficient ≤ largest) × (from ≤ last_scale) × (to ≤ last_scale) }
    ensures { result ≡ cond (leb from to) (nearer (coefficient *ℤ pos (10 ^ (to - from)))) (rounded rule coefficient (10 ^ (from - to))) }
{
    if from <= to {
        raised(coefficient, from, to)
    } else {
        lowered(rule, coefficient, from - to)
    }
}

fn by_rule(amount: Amount, scale: u8, rule: Rule) -> Result<Amount, Refusal>
    ensures { means result ≡ rescale_by_rule rule scale amount }
{
    let currency = amount.currency;
    let m = magnitude(amount.coefficient);
    check(amount.scale, scale, m, currency)?;
    within(Amount {
        currency,
        scale,
        coefficient: moved(rule, amount.coefficient, amount.scale, scale),
    })
}

impl Amount {
    // The amount at another scale, or the refusal 1, 2, 3, 4 or 13.
    pub fn rescale(self, scale: u8, mode: u8) -> Result<Amount, Refusal>
        ensures { means result ≡ rescale_said self scale mode }
    {
        let rule = Rule::try_from(mode)?;
        by_rule(self, scale, rule)
    }
}
