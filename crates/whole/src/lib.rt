// Where signed and unsigned numbers meet: the sign and the magnitude of an i64, and the i64 of a sign and a magnitude.
// Everything above computes on magnitudes.
#![tactic(auto)]

ghost use Rattle.std.specs.Prelude.{◌≡◌};
ghost use Rattle.whole.specs.Whole.{negative, magnitude_of, held_signed};

pub fn is_negative(n: i64) -> bool
    ensures { result ≡ negative n }
{
    n < 0
}

// The distance from 0, for the least i64 too.
pub fn magnitude(n: i64) -> u64
    ensures { result ≡ magnitude_of n }
{
    n.unsigned_abs()
}

// The number with this sign and magnitude, and 0 where an i64 can't hold it.
pub fn signed(negative: bool, magnitude: u64) -> i64
    ensures { result ≡ held_signed negative magnitude }
{
    if negative {
        if magnitude == 0 {
            return 0;
        }
        if 9_223_372_036_854_775_808 < magnitude {
            return 0;
        }
        -((magnitude - 1) as i64) - 1
    } else {
        if 9_223_372_036_854_775_807 < magnitude {
            return 0;
        }
        magnitude as i64
    }
}
