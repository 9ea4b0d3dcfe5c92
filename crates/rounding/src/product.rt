// The leaf over a product: a x b / d of magnitudes, rounded by a rule, where no word need hold the product.
ghost use Rattle.std.specs.Prelude.{false, ◌≡◌, ◌<◌, ◌≤◌};
ghost use Rattle.division.specs.Division.{most};
ghost use Rattle.rounding.specs.declared.Rule.TheVariants.{HalfUp};
ghost use Rattle.rounding.specs.Leaf.{rounded_magnitude};
ghost use Rattle.rounding.specs.Product.{rounded_product};
ghost use Rattle.rounding.specs.Short.{is_short};

use crate::Rule;
use crate::leaf::{class, round};
use crate::modes::rises;
use division::{Division, divide};

// The factors are so short that their product is below 2^59, which is within 10^18, and the divisor is within its limits.
fn is_short(a: u64, b: u64, d: u64) -> bool
    ensures { result ≡ is_short a b d }
{
    if u64::leading_zeros(a) + u64::leading_zeros(b) < 69 {
        return false;
    }
    if d < 1 {
        return false;
    }
    d <= Division::MOST
}

// By a division that needs no word to hold the product.
pub(crate) fn round_wide(rule: Rule, negative: bool, a: u64, b: u64, d: u64) -> u64
    ensures { result ≡ rounded_product rule negative a b d }
{
    let division = divide(a, b, d);
    let quotient = division.quotient;
    if Division::MOST < quotient {
        return Division::MOST + 1;
    }
    let rest = class(division.rest, d);
    let odd = quotient % 2 == 1;
    quotient + rises(rule, negative, odd, rest) as u64
}

// The magnitude of a x b / d under a rule, for a number of the given sign; one more than 10^18 where it is over that, or where a factor or the
// divisor is outside its limits. A short product is one number's quotient.
pub fn round_product(rule: Rule, negative: bool, a: u64, b: u64, d: u64) -> u64
    ensures { result ≡ rounded_product rule negative a b d }
{
    if is_short(a, b, d) {
        return round(rule, negative, a * b, d);
    }
    round_wide(rule, negative, a, b, d)
}

// The magnitude of n / d by the rule HALF_UP: the quotient of a number that is greater by half the divisor, so that no rest is asked for.
fn half_up(n: u64, d: u64) -> u64
    requires { (n ≤ most) × (0 < d) × (d ≤ most) }
    ensures { result ≡ rounded_magnitude HalfUp false n d }
{
    (n + d / 2) / d
}

// As round_product by the rule HALF_UP, which asks for neither the sign nor the parity.
pub fn round_half_up(a: u64, b: u64, d: u64) -> u64
    ensures { result ≡ rounded_product HalfUp false a b d }
{
    if is_short(a, b, d) {
        return half_up(a * b, d);
    }
    round_wide(Rule::HalfUp, false, a, b, d)
}
