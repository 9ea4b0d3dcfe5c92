// Statement files. What each answers is said at the function of its name.
ghost use Rattle.std.specs.Prelude.{◌≡◌, length};
ghost use Rattle.statement.specs.Files.{file_bytes};
ghost use Rattle.statement.specs.Writing.{payout, write_said, buffer_after};
ghost use Rattle.statement.specs.Reading.{read_said};
ghost use Rattle.flat.specs.Given.{currency_from, passed64};
ghost use Rattle.flat.specs.Statements.{end_of, statement_of};

use flat::{MkbEnd, MkbStatement};

#[unsafe(no_mangle)]
pub extern "C" fn mkb_write_statement(
    currency: i64,
    places: &[u16],
    coefficients: &[i64],
    out: &mut [u8],
    start: i64,
) -> MkbEnd
    ensures said { result ≡ end_of (write_said (currency_from currency) places.now coefficients.now (length out.old) (passed64 start)) }
    ensures buffer { out.new ≡ buffer_after (write_said (currency_from currency) places.now coefficients.now (length out.old) (passed64 start)) (passed64 start) (file_bytes (payout (currency_from currency) places.now coefficients.now) (length places.now)) out.old }
{
    morskebab::mkb_write_statement(currency, places, coefficients, out, start)
}

#[unsafe(no_mangle)]
pub extern "C" fn mkb_check_statement(bytes: &[u8]) -> MkbStatement
    ensures { result ≡ statement_of (read_said bytes.now) }
{
    morskebab::mkb_check_statement(bytes)
}
