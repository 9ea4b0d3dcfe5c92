// A double and its 64 bits: the sign, eleven bits of the exponent's field, and 52 digits.
ghost use Rattle.std.specs.Prelude.{◌≡◌};
ghost use Rattle.std.specs.Float.{binary64};
ghost use Rattle.std.specs.Float.Ieee.{to_bits, of_bits};

use std::num::{f64_from_bits_with_nan, f64_to_bits_with_nan};

// The weight of the sign.
pub(crate) const SIGN: u64 = 1 << 63;
// The weight of the exponent's field, and of the digit before the 52.
pub(crate) const LEADING: u64 = 1 << 52;
// The field of an infinity and of what is no number.
pub(crate) const LAST: u64 = 2_047;

// The 64 bits of a double; of what is no number, one pattern.
pub fn bits_of(x: f64) -> u64
    ensures { result ≡ to_bits binary64 x }
{
    f64_to_bits_with_nan(x)
}

// The double of 64 bits.
pub fn of_bits(bits: u64) -> f64
    ensures { result ≡ of_bits binary64 bits }
{
    f64_from_bits_with_nan(bits)
}
