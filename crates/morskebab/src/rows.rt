// Rows of doubles as amounts, and an amount as a double.
ghost use Rattle.std.specs.Prelude.{◌≡◌};
ghost use Rattle.doubles.specs.Doubles.{taken_said};
ghost use Rattle.doubles.specs.Export.{export_said};
ghost use Rattle.flat.specs.Given.{passed8, currency_from, amount_from};
ghost use Rattle.flat.specs.Rows.{row_from, row_answer_of, double_of};

use doubles::{export, take_row};
use flat::{MkbAmount, MkbColumns, MkbDouble, MkbRowAnswer, given_currency, pass_u8};

// Both columns as amounts of the currency at the scale, from the exact worth of the doubles, by the mode: refusals 1, 2, 4, 13, 16.
pub fn mkb_row(row: MkbColumns, currency: i64, scale: i64, mode: i64) -> MkbRowAnswer
    ensures { result ≡ row_answer_of (taken_said (row_from row) (currency_from currency) (passed8 scale) (passed8 mode)) }
{
    take_row(
        row.into(),
        given_currency(currency),
        pass_u8(scale),
        pass_u8(mode),
    )
    .into()
}

// The coefficient as a double, divided once by 1, 10, 100 or 1,000: refusals 2, 3, 4.
pub fn mkb_export(a: MkbAmount) -> MkbDouble
    ensures { result ≡ double_of (export_said (amount_from a)) }
{
    export(a.into()).into()
}
