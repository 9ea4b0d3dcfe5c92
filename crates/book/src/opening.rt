// Opening a book.
ghost use Rattle.std.specs.Prelude.{◌≡◌};
ghost use Rattle.refusal.specs.Rows.{check_of};
ghost use Rattle.book.specs.Moves.{open_rows, Opens};

use crate::Book;
use crate::weights::{check_list, placed};
use currency::Currency;
use refusal::Refusal;

// Rows 4 and 9 at a currency number and a list of weights.
fn check_open(currency: Currency, weights: &[u32]) -> Result<(), Refusal>
    ensures { result ≡ check_of (open_rows currency weights.now) }
{
    if Currency::LAST < currency.0 {
        return Err(Refusal::Unknown);
    }
    check_list(weights)
}

impl Book {
    // A book with these weights, as many partners as there are, a net total of 0, on its first card with nothing settled.
    pub fn open(currency: Currency, weights: &[u32]) -> Result<Book, Refusal>
        ensures { Opens currency weights.now result }
    {
        check_open(currency, weights)?;
        Ok(Book {
            currency,
            count: weights.len() as u8,
            weights: placed(weights),
            net: 0,
            card: 1,
            settled: [0; Book::PARTNERS],
        })
    }
}
