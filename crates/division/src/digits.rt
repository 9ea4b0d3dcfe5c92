// r x b by d, where r is below d: in one word where the product fits it, else by the two digits of b in base 2^30.
ghost use Rattle.std.specs.Prelude.{◌≡◌, ◌&&◌, ◌+◌, ◌*◌, ◌<◌, ◌≤◌, ltb};
ghost use Rattle.division.specs.Division.{most};
ghost use Rattle.division.specs.Digits.{base, wide, Parts, Digit};

use crate::Division;

// 2^30: two digits of it hold 10^18.
const BASE: u64 = 1_073_741_824;
// 2^34: a number below it times one below 2^30 fits a word.
const WIDE: u64 = 17_179_869_184;

// One digit g of a factor: rest x 2^30 + r x g by d. The top is divided by d's top and one more, which takes away too little and
// never too much; what is left is below 2^62 and is divided by d.
fn digit(rest: u64, r: u64, g: u64, d: u64) -> Division
    requires { Digit d rest r g }
    ensures { Parts (rest * base + r * g) d result.quotient result.rest }
{
    let low = r % BASE * g;
    let top = rest + r / BASE * g + low / BASE;
    let over = d / BASE + 1;
    let taken = top / over;
    let left = taken * (BASE - d % BASE) + top % over * BASE + low % BASE;
    Division {
        quotient: taken + left / d,
        rest: left % d,
    }
}

// The two digits of b.
fn by_digits(r: u64, b: u64, d: u64) -> Division
    requires { (r < d) × (b ≤ most) × (d ≤ most) }
    ensures { Parts (r * b) d result.quotient result.rest }
{
    let high = digit(0, r, b / BASE, d);
    let low = digit(high.rest, r, b % BASE, d);
    Division {
        quotient: high.quotient * BASE + low.quotient,
        rest: low.rest,
    }
}

// One division, and the rest by a product and a difference.
pub(crate) fn by_word(r: u64, b: u64, d: u64) -> Division
    requires { (r < wide) × (b < base) × (0 < d) }
    ensures { Parts (r * b) d result.quotient result.rest }
{
    let product = r * b;
    let quotient = product / d;
    Division {
        quotient,
        rest: product - quotient * d,
    }
}

// The product fits a word.
pub(crate) fn is_narrow(r: u64, b: u64) -> bool
    ensures { result ≡ (ltb r wide && ltb b base) }
{
    r < WIDE && b < BASE
}

pub(crate) fn below_divisor(r: u64, b: u64, d: u64) -> Division
    requires { (r < d) × (b ≤ most) × (d ≤ most) }
    ensures { Parts (r * b) d result.quotient result.rest }
{
    if is_narrow(r, b) {
        by_word(r, b, d)
    } else {
        by_digits(r, b, d)
    }
}
