// A double's coefficient at a scale, from its 64 bits.
ghost use Rattle.std.specs.Prelude.{◌≡◌, ◌-◌, ◌/◌, ◌%◌, ◌^◌, ◌<◌, ◌≤◌};
ghost use Rattle.std.specs.Float.{binary64};
ghost use Rattle.std.specs.Float.Ieee.{of_bits};
ghost use Rattle.rounding.specs.Leaf.{rounded_magnitude};
ghost use Rattle.doubles.specs.Doubles.{last_scale, no_number};
ghost use Rattle.whole.specs.Whole.{signed_of};
ghost use Rattle.amount.specs.Amounts.{largest};
ghost use Rattle.doubles.specs.Doubles.{amount_at};
ghost use Rattle.doubles.specs.Parts.{field_of, digits_of, sign_of, mantissa_of, tiny_of, capped, magnitude_at, column_at};

use crate::patterns::{LAST, LEADING, SIGN};
use amount::Amount;
use currency::{Currency, power_of_ten};
use rounding::{Rest, Rule, rises, round};
use whole::signed;

// A column as it is read from a double: the sign, the coefficient's magnitude, and whether it is no number.
#[derive(Clone, Copy)]
pub(crate) struct Column {
    pub(crate) negative: bool,
    pub(crate) m: u64,
    pub(crate) numberless: bool,
}

// The exponent's field.
fn field(bits: u64) -> u64
    ensures { result ≡ field_of bits }
{
    bits % SIGN / LEADING
}

// Not a number or an infinity.
#[tactic(auto, using(crate::proofs::Columns::bits_number))]
fn no_number(bits: u64) -> bool
    ensures { result ≡ no_number (of_bits binary64 bits) }
{
    field(bits) == LAST
}

// Below 0, or -0.0.
fn sign(bits: u64) -> bool
    ensures { result ≡ sign_of bits }
{
    SIGN <= bits
}

// The digits, with the one before them where the field isn't 0.
fn mantissa(field: u64, bits: u64) -> u64
    ensures { result ≡ mantissa_of field (digits_of bits) }
{
    let digits = bits % LEADING;
    if field == 0 { digits } else { LEADING + digits }
}

// The double is its mantissa over 2 to so many places: 1,074 for a field of 0 or 1, and one fewer for each one more.
fn places(field: u64) -> u64
    requires { field < 1075 }
    ensures { result ≡ 1074 - (field - 1) }
{
    if field == 0 {
        return 1074;
    }
    1075 - field
}

// n over a power of two that is above twice n: the quotient is 0, and the rest is none or below the half.
fn tiny(rule: Rule, negative: bool, n: u64) -> u64
    ensures { result ≡ tiny_of rule negative n }
{
    if n == 0 {
        return 0;
    }
    u64::from(rises(rule, negative, false, Rest::Below))
}

// n / 2^places under a rule.
#[tactic(auto, using(crate::proofs::Columns::below_half))]
fn over(rule: Rule, negative: bool, n: u64, places: u64) -> u64
    requires { n < 2 ^ 63 }
    ensures { result ≡ rounded_magnitude rule negative n (2 ^ places) }
{
    if places < 64 {
        round(rule, negative, n, 1u64 << places)
    } else {
        tiny(rule, negative, n)
    }
}

// One more than L stands for what is over it.
#[tactic(auto, unfolding(crate::specs::Parts::capped))]
fn cap(m: u64) -> u64
    ensures { result ≡ capped m }
{
    m.min(Amount::L + 1)
}

// The coefficient's magnitude, and one more than L where it is over it: a number whose field is 1,075 or more is a mantissa of at least 2^52 times a
// power of two. What is no number has none, and 0 stands there.
fn scaled(rule: Rule, bits: u64, scale: u8) -> u64
    requires { scale ≤ last_scale }
    ensures { result ≡ capped (magnitude_at rule scale (of_bits binary64 bits)) }
{
    let field = field(bits);
    if field == LAST {
        return 0;
    }
    if 1075 <= field {
        return Amount::L + 1;
    }
    let n = mantissa(field, bits) * power_of_ten(scale);
    cap(over(rule, sign(bits), n, places(field)))
}

// A column by its bits, at a scale under a rule.
pub(crate) fn read(rule: Rule, bits: u64, scale: u8) -> Column
    requires { scale ≤ last_scale }
    ensures { result ≡ column_at rule scale bits }
{
    Column {
        negative: sign(bits),
        m: scaled(rule, bits, scale),
        numberless: no_number(bits),
    }
}

impl Column {
    // The column as an amount.
    pub(crate) fn amount(self, currency: Currency, scale: u8) -> Amount
        requires { self.m ≤ largest }
        ensures { result ≡ amount_at currency scale (signed_of self.negative self.m) }
    {
        Amount {
            currency,
            scale,
            coefficient: signed(self.negative, self.m),
        }
    }
}
