// Amounts as text, and currencies by their codes.
ghost use Rattle.std.specs.Prelude.{◌≡◌, length};
ghost use Rattle.text.specs.Read.{read_said};
ghost use Rattle.text.specs.Written.{text_of, write_said, buffer_after};
ghost use Rattle.text.specs.Codes.{currency_of};
ghost use Rattle.flat.specs.Given.{currency_from, amount_from};
ghost use Rattle.flat.specs.Answers.{amount_answer_of, written_of};

use flat::{MkbAmount, MkbAmountAnswer, MkbWritten, given_currency};
use text::{currency_of, read, write};

// The amount that a text of the currency is: refusals 4, 14, 13.
pub fn mkb_read(currency: i64, text: &[u8]) -> MkbAmountAnswer
    ensures { result ≡ amount_answer_of (read_said (currency_from currency) text.now) }
{
    read(given_currency(currency), text).into()
}

// The amount's text into the first places of `out`, and its length; the others, and every place where the call is refused, stay as they stood:
// refusals 2, 3, 4, 11.
pub fn mkb_write(a: MkbAmount, out: &mut [u8]) -> MkbWritten
    ensures said { result ≡ written_of (write_said (amount_from a) (length out.old)) }
    ensures places { out.new ≡ buffer_after (text_of (amount_from a)) (write_said (amount_from a) (length out.old)) out.old }
{
    write(a.into(), out).into()
}

// The number of the currency with this code, and 255 where the table has none.
pub fn mkb_currency_of(code: &[u8]) -> u8
    ensures { result ≡ (currency_of code.now).0 }
{
    let found = currency_of(code);
    found.0
}
