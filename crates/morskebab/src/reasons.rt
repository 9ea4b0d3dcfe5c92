// Statements with reasons, and statements of either version.
ghost use Rattle.std.specs.Prelude.{◌≡◌, length};
ghost use Rattle.statement.specs.declared.Version.TheVariants.{Reasons};
ghost use Rattle.statement.specs.Files.{file_of};
ghost use Rattle.statement.specs.Writing.{payout_with, reasons_said, buffer_after};
ghost use Rattle.statement.specs.Reading.{any_said};
ghost use Rattle.statement.specs.Walking.{any_step_at, any_place_after};
ghost use Rattle.flat.specs.Given.{currency_from, passed16, passed64};
ghost use Rattle.flat.specs.Statements.{end_of};
ghost use Rattle.flat.specs.Reasons.{any_statement_of, any_step_of};

use flat::{
    MkbAnyStatement, MkbAnyStep, MkbEnd, flat_any_step, given_currency, pass_u16, pass_u64,
};
use statement::{any_place_after, check_any, write_reasons};
use view::read_any_at;

// A record with its reason for each payout from the start on and a trailer of version 2 behind them; the file's end, or the refusal 3, 4, 9 or 11.
// No other byte of `out` changes, and none where the call is refused.
pub fn mkb_write_reasons(
    currency: i64,
    places: &[u16],
    reasons: &[u16],
    coefficients: &[i64],
    out: &mut [u8],
    start: i64,
) -> MkbEnd
    ensures said { result ≡ end_of (reasons_said (currency_from currency) places.now reasons.now coefficients.now (length out.old) (passed64 start)) }
    ensures buffer { out.new ≡ buffer_after (reasons_said (currency_from currency) places.now reasons.now coefficients.now (length out.old) (passed64 start)) (passed64 start) (file_of Reasons (payout_with (currency_from currency) places.now reasons.now coefficients.now) (length places.now)) out.old }
{
    let written = write_reasons(
        given_currency(currency),
        places,
        reasons,
        coefficients,
        out,
        pass_u64(start) as usize,
    );
    written.into()
}

// The version, the first record's start, the count and the sum of the statement file of either version that the bytes end in, or refusal 14.
pub fn mkb_check_any(bytes: &[u8]) -> MkbAnyStatement
    ensures { result ≡ any_statement_of (any_said bytes.now) }
{
    check_any(bytes).into()
}

// The record of a version's statement at a place, or that the view has ended, and the place of what comes next.
pub fn mkb_reasoned_at(bytes: &[u8], version: i64, at: i64) -> MkbAnyStep
    ensures { result ≡ any_step_of (any_step_at bytes.now (passed16 version) (passed64 at)) (any_place_after bytes.now (passed16 version) (passed64 at)) }
{
    let version = pass_u16(version);
    let place = pass_u64(at) as usize;
    let next = any_place_after(bytes, version, place);
    flat_any_step(read_any_at(bytes, version, place), next)
}
