// What C gives, as the base takes it: each number passed on, with the currency number in its own kind.
ghost use Rattle.std.specs.Prelude.{◌≡◌};
ghost use Rattle.flat.specs.Given.{currency_from, amount_from, date_from, book_from};

use crate::numbers::{pass_u8, pass_u16};
use crate::{MkbAmount, MkbBook, MkbDate};
use amount::Amount;
use book::Book;
use calendar::Date;
use currency::Currency;

pub fn given_currency(number: i64) -> Currency
    ensures { result ≡ currency_from number }
{
    Currency(pass_u8(number))
}

impl From<MkbAmount> for Amount {
    ghost from_gives = { λ given amount. amount ≡ amount_from given };

    fn from(given: MkbAmount) -> Amount {
        Amount {
            currency: given_currency(i64::from(given.currency)),
            scale: pass_u8(i64::from(given.scale)),
            coefficient: given.coefficient,
        }
    }
}

impl From<MkbDate> for Date {
    ghost from_gives = { λ given date. date ≡ date_from given };

    fn from(given: MkbDate) -> Date {
        Date {
            year: pass_u16(i64::from(given.year)),
            month: pass_u8(i64::from(given.month)),
            day: pass_u8(i64::from(given.day)),
        }
    }
}

impl From<MkbBook> for Book {
    ghost from_gives = { λ given book. book ≡ book_from given };

    fn from(given: MkbBook) -> Book {
        let weights = given.weights;
        let settled = given.settled;
        Book {
            currency: given_currency(i64::from(given.currency)),
            count: pass_u8(i64::from(given.count)),
            weights,
            net: given.net,
            card: pass_u16(given.card),
            settled,
        }
    }
}
