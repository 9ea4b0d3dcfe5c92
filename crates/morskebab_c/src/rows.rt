// Rows of doubles as amounts, and an amount as a double. What each answers is said at the function of its name.
ghost use Rattle.std.specs.Prelude.{◌≡◌};
ghost use Rattle.doubles.specs.Doubles.{taken_said};
ghost use Rattle.doubles.specs.Export.{export_said};
ghost use Rattle.flat.specs.Given.{passed8, currency_from, amount_from};
ghost use Rattle.flat.specs.Rows.{row_from, row_answer_of, double_of};

use flat::{MkbAmount, MkbColumns, MkbDouble, MkbRowAnswer};

#[unsafe(no_mangle)]
pub extern "C" fn mkb_row(row: MkbColumns, currency: i64, scale: i64, mode: i64) -> MkbRowAnswer
    ensures { result ≡ row_answer_of (taken_said (row_from row) (currency_from currency) (passed8 scale) (passed8 mode)) }
{
    morskebab::mkb_row(row, currency, scale, mode)
}

#[unsafe(no_mangle)]
pub extern "C" fn mkb_export(a: MkbAmount) -> MkbDouble
    ensures { result ≡ double_of (export_said (amount_from a)) }
{
    morskebab::mkb_export(a)
}
