// Statement files.
ghost use Rattle.std.specs.Prelude.{◌≡◌, length};
ghost use Rattle.statement.specs.Files.{file_bytes};
ghost use Rattle.statement.specs.Writing.{payout, write_said, buffer_after};
ghost use Rattle.statement.specs.Reading.{read_said};
ghost use Rattle.flat.specs.Given.{currency_from, passed64};
ghost use Rattle.flat.specs.Statements.{end_of, statement_of};

use flat::{MkbEnd, MkbStatement, given_currency, pass_u64};
use statement::{check, write};

// A record for each payout from the start on and a trailer behind them; the file's end, or the refusal 3, 4, 9 or 11. No other byte of `out`
// changes, and none where the call is refused.
pub fn mkb_write_statement(
    currency: i64,
    places: &[u16],
    coefficients: &[i64],
    out: &mut [u8],
    start: i64,
) -> MkbEnd
    ensures said { result ≡ end_of (write_said (currency_from currency) places.now coefficients.now (length out.old) (passed64 start)) }
    ensures buffer { out.new ≡ buffer_after (write_said (currency_from currency) places.now coefficients.now (length out.old) (passed64 start)) (passed64 start) (file_bytes (payout (currency_from currency) places.now coefficients.now) (length places.now)) out.old }
{
    let written = write(
        given_currency(currency),
        places,
        coefficients,
        out,
        pass_u64(start) as usize,
    );
    written.into()
}

// The first record's start, the count and the sum of the statement file that the bytes end in, or refusal 17 or 14.
pub fn mkb_check_statement(bytes: &[u8]) -> MkbStatement
    ensures { result ≡ statement_of (read_said bytes.now) }
{
    check(bytes).into()
}
