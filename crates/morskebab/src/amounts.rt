// The plain quotient, the table of currencies, and amounts.
ghost use Rattle.std.specs.Prelude.{◌≡◌};
ghost use Rattle.rounding.specs.Plain.{plain_said};
ghost use Rattle.currency.specs.Table.{line_of};
ghost use Rattle.amount.specs.Sum.{sum_said, order_said, negate_said};
ghost use Rattle.amount.specs.Rescaling.{rescale_said};
ghost use Rattle.euro.specs.Conversion.{convert_by_said, convert_said};
ghost use Rattle.flat.specs.Given.{passed8, passed64, currency_from, amount_from};
ghost use Rattle.flat.specs.Answers.{line_flat, whole_of, amount_answer_of, order_of};

use amount::Amount;
use currency::line_of;
use euro::{convert, convert_by};
use flat::{
    MkbAmount, MkbAmountAnswer, MkbLine, MkbOrderAnswer, MkbWhole, given_currency, pass_u8,
    pass_u64,
};
use rounding::plain_quotient;

// a x b / d rounded by the mode: refusals 1, 3, 6, 13. A quotient n / d is the one of the factors n and 1.
pub fn mkb_round(mode: i64, a: i64, b: i64, d: i64) -> MkbWhole
    ensures { result ≡ whole_of (plain_said (passed8 mode) a b (passed64 d)) }
{
    plain_quotient(pass_u8(mode), a, b, pass_u64(d)).into()
}

// The table's line of a currency number; all 0 for a number over 20.
pub fn mkb_currency(currency: i64) -> MkbLine
    ensures { result ≡ line_flat (line_of (currency_from currency)) }
{
    line_of(given_currency(currency)).into()
}

// The exact sum at the greater of the two scales: refusals 2, 3, 4, 5, 13.
pub fn mkb_sum(a: MkbAmount, b: MkbAmount) -> MkbAmountAnswer
    ensures { result ≡ amount_answer_of (sum_said (amount_from a) (amount_from b)) }
{
    Amount::from(a).sum(b.into()).into()
}

// The order of a to b by worth, -1, 0 or 1: refusals 2, 3, 4, 5.
pub fn mkb_order(a: MkbAmount, b: MkbAmount) -> MkbOrderAnswer
    ensures { result ≡ order_of (order_said (amount_from a) (amount_from b)) }
{
    Amount::from(a).order(b.into()).into()
}

// The opposite amount: refusals 2, 3, 4.
pub fn mkb_negate(a: MkbAmount) -> MkbAmountAnswer
    ensures { result ≡ amount_answer_of (negate_said (amount_from a)) }
{
    Amount::from(a).negate().into()
}

// Exact to a greater scale, rounded by the mode to a smaller one: refusals 1, 2, 3, 4, 13.
pub fn mkb_rescale(a: MkbAmount, scale: i64, mode: i64) -> MkbAmountAnswer
    ensures { result ≡ amount_answer_of (rescale_said (amount_from a) (passed8 scale) (passed8 mode)) }
{
    Amount::from(a)
        .rescale(pass_u8(scale), pass_u8(mode))
        .into()
}

// The amount in the currency `to`, by Council Regulation (EC) No 1103/97, articles 4 and 5: refusals 2, 3, 4, 13.
pub fn mkb_convert(a: MkbAmount, to: i64) -> MkbAmountAnswer
    ensures { result ≡ amount_answer_of (convert_said (amount_from a) (currency_from to)) }
{
    convert(a.into(), given_currency(to)).into()
}

// The same by a euro step of 3 to 6 decimals between two old units: refusals 2, 3, 4, 13.
pub fn mkb_convert_by(a: MkbAmount, to: i64, decimals: i64) -> MkbAmountAnswer
    ensures { result ≡ amount_answer_of (convert_by_said (amount_from a) (currency_from to) (passed8 decimals)) }
{
    convert_by(a.into(), given_currency(to), pass_u8(decimals)).into()
}
