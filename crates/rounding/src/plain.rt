// The plain quotient a x b / d under a mode number.
ghost use Rattle.std.specs.Prelude.{◌≡◌, cond, not, ◌*◌};
ghost use Rattle.refusal.specs.Rows.{check_of, means};
ghost use Rattle.whole.specs.Whole.{signed_of};
ghost use Rattle.rounding.specs.Leaf.{rounded_magnitude};
ghost use Rattle.rounding.specs.Found.{found_quotient};
ghost use Rattle.rounding.specs.Plain.{plain_rows, behind_mode, plain_said};

use crate::Rule;
use crate::leaf::round;
use crate::product::round_wide;
use division::Division;
use refusal::Refusal;
use whole::{is_negative, magnitude, signed};

// The rows behind row 1: the factors' magnitudes, the divisor and the rounded quotient's magnitude against 10^18.
#[tactic(auto, unfolding(crate::specs::Plain::plain_rows))]
fn check(a: u64, b: u64, d: u64, quotient: u64) -> Result<(), Refusal>
    ensures { result ≡ check_of (plain_rows a b d quotient) }
{
    if Division::MOST < a {
        return Err(Refusal::Magnitude);
    }
    if Division::MOST < b {
        return Err(Refusal::Magnitude);
    }
    if d < 1 {
        return Err(Refusal::Rate);
    }
    if Division::MOST < d {
        return Err(Refusal::Rate);
    }
    if Division::MOST < quotient {
        return Err(Refusal::Limit);
    }
    Ok(())
}

// A product is below 0 where just one of its factors is.
fn sign_of_product(a: bool, b: bool) -> bool
    ensures { result ≡ cond a (not b) b }
{
    if a { !b } else { b }
}

// The rounded magnitude: by the factor 1 the quotient of one number serves.
fn quotient(rule: Rule, negative: bool, a: u64, b: u64, d: u64) -> u64
    ensures { result ≡ found_quotient rule negative a b d }
{
    if b == 1 {
        return round(rule, negative, a, d);
    }
    round_wide(rule, negative, a, b, d)
}

fn by_rule(rule: Rule, negative: bool, a: u64, b: u64, d: u64) -> Result<i64, Refusal>
    ensures { means result ≡ behind_mode a b d (signed_of negative (rounded_magnitude rule negative (a * b) d)) }
{
    let found = quotient(rule, negative, a, b, d);
    check(a, b, d, found)?;
    Ok(signed(negative, found))
}

// The mode comes as a number here and in every call that rounds: a number that is no mode is refused with 1, by promise.
// a x b / d rounded by the mode, or the refusal 1, 3, 6 or 13.
pub fn plain_quotient(mode: u8, a: i64, b: i64, d: u64) -> Result<i64, Refusal>
    ensures { means result ≡ plain_said mode a b d }
{
    let rule = Rule::try_from(mode)?;
    by_rule(
        rule,
        sign_of_product(is_negative(a), is_negative(b)),
        magnitude(a),
        magnitude(b),
        d,
    )
}
