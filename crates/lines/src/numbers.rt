// Whole numbers read from bytes, and passed on in a type that may be too small for them.
ghost use Rattle.std.specs.Prelude.{◌≡◌, ◌&&◌, min, ◌+◌, ◌*◌, ltb};
ghost use Rattle.lines.specs.Lines.{most, digit_in, whole_of, as_unsigned, as_signed};
ghost use Rattle.lines.specs.Reads.{number_at};

use crate::{Number, Word};
use whole::signed;

const MINUS: u8 = b'-';

// The worth of a decimal digit, where the byte is one.
fn digit_in(byte: u8) -> Option<u8>
    ensures { result ≡ digit_in byte }
{
    match byte {
        b'0'..=b'9' => Some(byte - b'0'),
        _ => None,
    }
}

// A sum with one digit more behind it, or the most that a u64 holds where that is too large.
fn with_digit(sum: u64, digit: u8) -> u64
    ensures { result ≡ min (sum * 10 + digit) most }
{
    sum.saturating_mul(10).saturating_add(u64::from(digit))
}

// The number of decimal digits, at least one, with a given sign.
fn whole_of(digits: &[u8], negative: bool) -> Option<Number>
    ensures { result ≡ whole_of negative digits.now }
{
    if digits.is_empty() {
        return None;
    }
    let mut magnitude: u64 = 0;
    for byte in digits {
        magnitude = with_digit(magnitude, digit_in(*byte)?);
    }
    Some(Number {
        negative,
        magnitude,
    })
}

// The number that a word of a line is. A magnitude past a u64 is the largest that it holds.
pub fn read_number(line: &[u8], word: Word) -> Option<Number>
    ensures { result ≡ number_at line.now word }
{
    let bytes = line.get(word.start..word.end)?;
    let (first, behind) = bytes.split_first()?;
    if *first == MINUS {
        whole_of(behind, true)
    } else {
        whole_of(bytes, false)
    }
}

impl Number {
    // Whether it is below 0, which -0 is not.
    pub fn below_zero(self) -> bool
        ensures { result ≡ (self.negative && ltb 0 self.magnitude) }
    {
        self.negative && 0 < self.magnitude
    }

    // The number as an unsigned type with this largest value holds it: the largest where it can't.
    #[tactic(auto, unfolding(crate::specs::Lines::as_unsigned))]
    pub fn as_unsigned(self, largest: u64) -> u64
        ensures { result ≡ as_unsigned largest self.negative self.magnitude }
    {
        if self.below_zero() {
            return largest;
        }
        self.magnitude.min(largest)
    }

    #[tactic(auto, using(crate::proofs::Ranges::unsigned_within))]
    pub fn as_u8(self) -> u8
        ensures { result ≡ as_unsigned 255 self.negative self.magnitude }
    {
        self.as_unsigned(255) as u8
    }

    #[tactic(auto, using(crate::proofs::Ranges::unsigned_within))]
    pub fn as_u16(self) -> u16
        ensures { result ≡ as_unsigned 65535 self.negative self.magnitude }
    {
        self.as_unsigned(65_535) as u16
    }

    #[tactic(auto, using(crate::proofs::Ranges::unsigned_within))]
    pub fn as_u32(self) -> u32
        ensures { result ≡ as_unsigned 4294967295 self.negative self.magnitude }
    {
        self.as_unsigned(4_294_967_295) as u32
    }

    pub fn as_u64(self) -> u64
        ensures { result ≡ as_unsigned most self.negative self.magnitude }
    {
        self.as_unsigned(u64::MAX)
    }

    // The number as an i64 holds it: the nearer end of its range where it can't.
    pub fn as_i64(self) -> i64
        ensures { result ≡ as_signed self.negative self.magnitude }
    {
        let most = if self.negative {
            9_223_372_036_854_775_808
        } else {
            9_223_372_036_854_775_807
        };
        signed(self.negative, self.magnitude.min(most))
    }
}
