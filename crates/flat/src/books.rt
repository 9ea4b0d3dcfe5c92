// What the book's calls answer with, flattened.
ghost use Rattle.std.specs.Prelude.{◌≡◌};
ghost use Rattle.refusal.specs.Rows.{means};
ghost use Rattle.flat.specs.Books.{book_of, handed_back, opened_of, moved_flat, running_of, ran_flat};

use crate::{MkbBook, MkbMoved, MkbOpened, MkbRan, MkbTotals};
use book::{Book, Moved};
use bulk::Ran;
use refusal::{Refusal, blamed_in, number_in};

impl MkbBook {
    // The book whose every field is 0.
    pub const NONE: MkbBook = MkbBook {
        currency: 0,
        count: 0,
        weights: [0; Book::PARTNERS],
        net: 0,
        card: 0,
        settled: [0; Book::PARTNERS],
    };
}

impl From<Book> for MkbBook {
    ghost from_gives = { λ book flat. flat ≡ book_of book };

    fn from(book: Book) -> MkbBook {
        let weights = book.weights;
        let settled = book.settled;
        MkbBook {
            currency: i32::from(book.currency.0),
            count: i32::from(book.count),
            weights,
            net: book.net,
            card: i64::from(book.card),
            settled,
        }
    }
}

impl From<Result<Book, Refusal>> for MkbOpened {
    ghost from_gives = { λ answer flat. flat ≡ opened_of (means answer) };

    #[tactic(auto, unfolding(book::specs::Moves::opened_book, book::specs::Moves::zero_book))]
    fn from(answer: Result<Book, Refusal>) -> MkbOpened {
        MkbOpened {
            refusal: number_in(&answer),
            blamed: blamed_in(&answer),
            book: answer.map_or(MkbBook::NONE, MkbBook::from),
        }
    }
}

impl From<Result<[u64; Book::PARTNERS], Refusal>> for MkbTotals {
    ghost from_gives = { λ answer flat. flat ≡ running_of (means answer) };

    #[tactic(auto, unfolding(book::specs::Moves::totals_of))]
    fn from(answer: Result<[u64; Book::PARTNERS], Refusal>) -> MkbTotals {
        MkbTotals {
            refusal: number_in(&answer),
            blamed: blamed_in(&answer),
            totals: answer.unwrap_or([0; Book::PARTNERS]),
        }
    }
}

// The next book, or the given one where the call is refused: its fields as C gave them, not as they were passed on.
fn hand_back(outcome: Result<(), Refusal>, given: MkbBook, next: Book) -> MkbBook
    ensures { result ≡ handed_back outcome given next }
{
    match outcome {
        Ok(()) => next.into(),
        Err(_) => given,
    }
}

// The answer of a posting, a refund or a new card of a given book.
pub fn flat_moved(given: MkbBook, answer: Moved) -> MkbMoved
    ensures { result ≡ moved_flat given answer }
{
    let outcome = answer.outcome;
    let payouts = answer.payouts;
    MkbMoved {
        refusal: number_in(&outcome),
        blamed: blamed_in(&outcome),
        book: hand_back(outcome, given, answer.book),
        payouts,
    }
}

// The answer of a run on a given book.
pub fn flat_ran(given: MkbBook, answer: Ran) -> MkbRan
    ensures { result ≡ ran_flat given answer }
{
    let outcome = answer.outcome;
    MkbRan {
        refusal: number_in(&outcome),
        blamed: blamed_in(&outcome),
        book: hand_back(outcome, given, answer.book),
        served: answer.served as u64,
    }
}
