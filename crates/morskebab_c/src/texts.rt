// Amounts as text, and currencies by their codes. What each answers is said at the function of its name.
ghost use Rattle.std.specs.Prelude.{◌≡◌, length};
ghost use Rattle.text.specs.Read.{read_said};
ghost use Rattle.text.specs.Written.{text_of, write_said, buffer_after};
ghost use Rattle.text.specs.Codes.{currency_of};
ghost use Rattle.flat.specs.Given.{currency_from, amount_from};
ghost use Rattle.flat.specs.Answers.{amount_answer_of, written_of};

use flat::{MkbAmount, MkbAmountAnswer, MkbWritten};

#[unsafe(no_mangle)]
pub extern "C" fn mkb_read(currency: i64, text: &[u8]) -> MkbAmountAnswer
    ensures { result ≡ amount_answer_of (read_said (currency_from currency) text.now) }
{
    morskebab::mkb_read(currency, text)
}

#[unsafe(no_mangle)]
pub extern "C" fn mkb_write(a: MkbAmount, out: &mut [u8]) -> MkbWritten
    ensures said { result ≡ written_of (write_said (amount_from a) (length out.old)) }
    ensures places { out.new ≡ buffer_after (text_of (amount_from a)) (write_said (amount_from a) (length out.old)) out.old }
{
    morskebab::mkb_write(a, out)
}

#[unsafe(no_mangle)]
pub extern "C" fn mkb_currency_of(code: &[u8]) -> u8
    ensures { result ≡ (currency_of code.now).0 }
{
    morskebab::mkb_currency_of(code)
}
