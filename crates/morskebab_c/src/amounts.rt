// The plain quotient, the table of currencies, and amounts. What each answers is said at the function of its name.
ghost use Rattle.std.specs.Prelude.{◌≡◌};
ghost use Rattle.rounding.specs.Plain.{plain_said};
ghost use Rattle.currency.specs.Table.{line_of};
ghost use Rattle.amount.specs.Sum.{sum_said, order_said, negate_said};
ghost use Rattle.amount.specs.Rescaling.{rescale_said};
ghost use Rattle.euro.specs.Conversion.{convert_by_said, convert_said};
ghost use Rattle.flat.specs.Given.{passed8, passed64, currency_from, amount_from};
ghost use Rattle.flat.specs.Answers.{line_flat, whole_of, amount_answer_of, order_of};

use flat::{MkbAmount, MkbAmountAnswer, MkbLine, MkbOrderAnswer, MkbWhole};

#[unsafe(no_mangle)]
pub extern "C" fn mkb_round(mode: i64, a: i64, b: i64, d: i64) -> MkbWhole
    ensures { result ≡ whole_of (plain_said (passed8 mode) a b (passed64 d)) }
{
    morskebab::mkb_round(mode, a, b, d)
}

#[unsafe(no_mangle)]
pub extern "C" fn mkb_currency(currency: i64) -> MkbLine
    ensures { result ≡ line_flat (line_of (currency_from currency)) }
{
    morskebab::mkb_currency(currency)
}

#[unsafe(no_mangle)]
pub extern "C" fn mkb_sum(a: MkbAmount, b: MkbAmount) -> MkbAmountAnswer
    ensures { result ≡ amount_answer_of (sum_said (amount_from a) (amount_from b)) }
{
    morskebab::mkb_sum(a, b)
}

#[unsafe(no_mangle)]
pub extern "C" fn mkb_order(a: MkbAmount, b: MkbAmount) -> MkbOrderAnswer
    ensures { result ≡ order_of (order_said (amount_from a) (amount_from b)) }
{
    morskebab::mkb_order(a, b)
}

#[unsafe(no_mangle)]
pub extern "C" fn mkb_negate(a: MkbAmount) -> MkbAmountAnswer
    ensures { result ≡ amount_answer_of (negate_said (amount_from a)) }
{
    morskebab::mkb_negate(a)
}

#[unsafe(no_mangle)]
pub extern "C" fn mkb_rescale(a: MkbAmount, scale: i64, mode: i64) -> MkbAmountAnswer
    ensures { result ≡ amount_answer_of (rescale_said (amount_from a) (passed8 scale) (passed8 mode)) }
{
    morskebab::mkb_rescale(a, scale, mode)
}

#[unsafe(no_mangle)]
pub extern "C" fn mkb_convert(a: MkbAmount, to: i64) -> MkbAmountAnswer
    ensures { result ≡ amount_answer_of (convert_said (amount_from a) (currency_from to)) }
{
    morskebab::mkb_convert(a, to)
}

#[unsafe(no_mangle)]
pub extern "C" fn mkb_convert_by(a: MkbAmount, to: i64, decimals: i64) -> MkbAmountAnswer
    ensures { result ≡ amount_answer_of (convert_by_said (amount_from a) (currency_from to) (passed8 decimals)) }
{
    morskebab::mkb_convert_by(a, to, decimals)
}
