// a x b by d: the quotient of a, times b, and the quotient of what is left of a, times b.
ghost use Rattle.std.specs.Prelude.{◌≡◌, ◌*◌, ◌<◌, ◌≤◌, ltb};
ghost use Rattle.division.specs.Division.{most, within, division_of};
ghost use Rattle.division.specs.Digits.{Caps, Divides};

use crate::Division;
use crate::digits::{below_divisor, by_word, is_narrow};

// One more than 10^18, and no rest: a quotient over that, or none.
const TOO_LARGE: Division = Division {
    quotient: Division::MOST + 1,
    rest: 0,
};

// The product is over 10^18: by itself where it fits a word, else by a quotient.
fn is_over(times: u64, b: u64) -> bool
    ensures { result ≡ ltb most (times * b) }
{
    if is_narrow(times, b) {
        return Division::MOST < times * b;
    }
    if times == 0 {
        return false;
    }
    Division::MOST / times < b
}

// A quotient and its rest, or the larger number.
fn cap(quotient: u64, rest: u64) -> Division
    ensures { Caps quotient rest result.quotient result.rest }
{
    if Division::MOST < quotient {
        return TOO_LARGE;
    }
    Division { quotient, rest }
}

fn by_parts(a: u64, b: u64, d: u64) -> Division
    requires { (b ≤ most) × (0 < d) × (d ≤ most) }
    ensures { Divides a b d result.quotient result.rest }
{
    let times = a / d;
    if is_over(times, b) {
        return TOO_LARGE;
    }
    let part = below_divisor(a - times * d, b, d);
    cap(times * b + part.quotient, part.rest)
}

#[tactic(auto, unfolding(crate::specs::Division::within))]
fn are_within(a: u64, b: u64, d: u64) -> bool
    ensures { result ≡ within a b d }
{
    a <= Division::MOST && b <= Division::MOST && 1 <= d && d <= Division::MOST
}

// No Option: one more than 10^18 is the promise `division_of`, and the rounding above compares it as a number.
// The quotient of a x b by d and its rest; one more than 10^18, and no rest, where the quotient is over that or a, b or d is outside its limits.
pub fn divide(a: u64, b: u64, d: u64) -> Division
    ensures { result ≡ division_of a b d }
{
    if !are_within(a, b, d) {
        return TOO_LARGE;
    }
    if is_narrow(a, b) {
        let whole = by_word(a, b, d);
        return cap(whole.quotient, whole.rest);
    }
    by_parts(a, b, d)
}
