// The leaf: a quotient of magnitudes, rounded by a rule.
ghost use Rattle.std.specs.Prelude.{◌≡◌, ◌<◌};
ghost use Rattle.rounding.specs.Leaf.{rest_of, rounded_magnitude};

use crate::{Rest, Rule};

// The class of the rest of a division by d: of three tests, none, one, two or all hold. No branch depends on the rest.
pub(crate) fn class(rest: u64, d: u64) -> Rest
    requires { rest < d }
    ensures { result ≡ rest_of rest d }
{
    let some = 0 < rest;
    let from_half = d - rest <= rest;
    let past_half = d - rest < rest;
    let tests = some as u8 + from_half as u8 + past_half as u8;
    match tests {
        0 => Rest::Exact,
        1 => Rest::Below,
        2 => Rest::Half,
        _ => Rest::Above,
    }
}

// No Option: 0 where d is 0 is the promise `rounded_magnitude`.
// The magnitude of n / d under a rule, for a number of the given sign; 0 where d is 0. One division: the rest is taken from the quotient by
// a product and a difference.
pub fn round(rule: Rule, negative: bool, n: u64, d: u64) -> u64
    ensures { result ≡ rounded_magnitude rule negative n d }
{
    if d == 0 {
        return 0;
    }
    let quotient = n / d;
    let rest = class(n - quotient * d, d);
    let odd = quotient % 2 == 1;
    quotient + crate::modes::rises(rule, negative, odd, rest) as u64
}
