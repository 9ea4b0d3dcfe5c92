// The book that an opening or a new card makes.
ghost use Rattle.std.specs.Prelude.{◌≡◌};
ghost use Rattle.book.specs.Moves.{zero_book};
ghost use Rattle.book.specs.Cards.{Cards};
ghost use Rattle.quarter.specs.Books.{begun_with, begun_of, card_weights};

use crate::asking::form_of;
use crate::{Begun, First, Opening};
use book::{Book, Moved};
use currency::Currency;
use intake::{next_word, nth, read_numbers, read_weights};
use lines::NOUGHT;
use spoken::read_words;

// One weight more than a book takes: too many are refused by the library.
const WEIGHTS: usize = Book::PARTNERS + 1;
// The numbers of an opening: a currency and the weights.
const NUMBERS: usize = WEIGHTS + 1;

// The book whose every field is 0, before any opening and after one that is not understood.
#[tactic(auto, unfolding(book::specs::Moves::zero_book))]
pub fn no_book() -> Book
    ensures { result ≡ zero_book }
{
    Book {
        currency: Currency(0),
        count: 0,
        weights: [0; Book::PARTNERS],
        net: 0,
        card: 0,
        settled: [0; Book::PARTNERS],
    }
}

// The book of a currency and weights.
fn begin_with(currency: Currency, weights: &[u32], coded: bool) -> Begun
    ensures { result ≡ begun_with currency weights.now coded }
{
    match Book::open(currency, weights) {
        Ok(book) => Begun {
            opening: Opening::Accepted,
            book,
            coded,
        },
        Err(refusal) => Begun {
            opening: Opening::Refused(refusal),
            book: no_book(),
            coded,
        },
    }
}

// The opening that a line asks for.
#[tactic(auto, unfolding(crate::specs::Books::begun_by, crate::specs::Books::begun_of))]
pub fn begin(line: &[u8]) -> Begun
    ensures { result ≡ begun_of line.now }
{
    let mut numbers = [NOUGHT; NUMBERS];
    let mut weights = [0u32; WEIGHTS];
    let word = next_word(line, 0);
    let spoken = read_words(line, word.end, form_of(First::Open), &mut numbers);
    match spoken.given {
        None => Begun {
            opening: Opening::Unknown,
            book: no_book(),
            coded: false,
        },
        Some(count) => {
            let partners = read_weights(&numbers, 1, count, &mut weights);
            let currency = Currency(nth(&numbers, 0).as_u8());
            begin_with(currency, &weights[..partners], spoken.coded)
        },
    }
}

// The new card that a line asks for; one whose words are not numbers alone has no weights.
#[tactic(auto, unfolding(crate::specs::Books::card_weights))]
pub fn card_of(book: Book, line: &[u8]) -> Moved
    ensures { Cards book (card_weights line.now) result }
{
    let mut numbers = [NOUGHT; WEIGHTS];
    let mut weights = [0u32; WEIGHTS];
    let word = next_word(line, 0);
    match read_numbers(line, word.end, &mut numbers) {
        None => book.card(&[]),
        Some(count) => {
            let partners = read_weights(&numbers, 0, count, &mut weights);
            book.card(&weights[..partners])
        },
    }
}
