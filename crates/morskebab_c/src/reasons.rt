// Statements with reasons, and statements of either version. What each answers is said at the function of its name.
ghost use Rattle.std.specs.Prelude.{◌≡◌, length};
ghost use Rattle.statement.specs.declared.Version.TheVariants.{Reasons};
ghost use Rattle.statement.specs.Files.{file_of};
ghost use Rattle.statement.specs.Writing.{payout_with, reasons_said, buffer_after};
ghost use Rattle.statement.specs.Reading.{any_said};
ghost use Rattle.statement.specs.Walking.{any_step_at, any_place_after};
ghost use Rattle.flat.specs.Given.{currency_from, passed16, passed64};
ghost use Rattle.flat.specs.Statements.{end_of};
ghost use Rattle.flat.specs.Reasons.{any_statement_of, any_step_of};

use flat::{MkbAnyStatement, MkbAnyStep, MkbEnd};

#[unsafe(no_mangle)]
pub extern "C" fn mkb_write_reasons(
    currency: i64,
    places: &[u16],
    reasons: &[u16],
    coefficients: &[i64],
    out: &mut [u8],
    start: i64,
) -> MkbEnd
    ensures said { result ≡ end_of (reasons_said (currency_from currency) places.now reasons.now coefficients.now (length out.old) (passed64 start)) }
    ensures buffer { out.new ≡ buffer_after (reasons_said (currency_from currency) places.now reasons.now coefficients.now (length out.old) (passed64 start)) (passed64 start) (file_of Reasons (payout_with (currency_from currency) places.now reasons.now coefficients.now) (length places.now)) out.old }
{
    morskebab::mkb_write_reasons(currency, places, reasons, coefficients, out, start)
}

#[unsafe(no_mangle)]
pub extern "C" fn mkb_check_any(bytes: &[u8]) -> MkbAnyStatement
    ensures { result ≡ any_statement_of (any_said bytes.now) }
{
    morskebab::mkb_check_any(bytes)
}

#[unsafe(no_mangle)]
pub extern "C" fn mkb_reasoned_at(bytes: &[u8], version: i64, at: i64) -> MkbAnyStep
    ensures { result ≡ any_step_of (any_step_at bytes.now (passed16 version) (passed64 at)) (any_place_after bytes.now (passed16 version) (passed64 at)) }
{
    morskebab::mkb_reasoned_at(bytes, version, at)
}
