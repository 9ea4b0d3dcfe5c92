// Currencies by the three letters of their codes.
ghost use Rattle.std.specs.Prelude.{◌≡◌};
ghost use Rattle.text.specs.Codes.{has_code, number_of, currency_of};

use currency::{Currency, Line, line_of};

// The number that no currency has.
const NONE: u8 = 255;

fn has_code(line: Line, a: u8, b: u8, c: u8) -> bool
    ensures { result ≡ has_code a b c line }
{
    let code = line.code;
    code[0] == a && code[1] == b && code[2] == c
}

// No Option: the number 255 is the promise `currency_of`, which C has too, and every call refuses it with 4.
// The number of the currency with these letters, and 255 where the table has none.
fn by_letters(a: u8, b: u8, c: u8) -> u8
    ensures { result ≡ number_of a b c }
{
    for i in 0..=Currency::LAST {
        if has_code(line_of(Currency(i)), a, b, c) {
            return i;
        }
    }
    NONE
}

// The currency with this code, and 255 where the table has none.
pub fn currency_of(code: &[u8]) -> Currency
    ensures { result ≡ currency_of code.now }
{
    if code.len() != 3 {
        return Currency(NONE);
    }
    Currency(by_letters(code[0], code[1], code[2]))
}
