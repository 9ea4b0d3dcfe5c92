// The share book.
ghost use Rattle.std.specs.Prelude.{◌≡◌};
ghost use Rattle.book.specs.Moves.{open_said, post_said, refund_said, paid_of, taken_of, totals_said};
ghost use Rattle.book.specs.Cards.{card_said};
ghost use Rattle.flat.specs.Given.{currency_from, amount_from, book_from};
ghost use Rattle.flat.specs.Books.{opened_of, moved_of, carded_of, running_of};

use book::Book;
use flat::{MkbAmount, MkbBook, MkbMoved, MkbOpened, MkbTotals, flat_moved, given_currency};

// A book with these weights, as many partners as there are, and a net total of 0: refusals 4, 9.
pub fn mkb_open(currency: i64, weights: &[u32]) -> MkbOpened
    ensures { result ≡ opened_of (open_said (currency_from currency) weights.now) }
{
    Book::open(given_currency(currency), weights).into()
}

// The next book and what each partner is paid; refused, the given book and noughts: refusals 2, 3, 4, 5, 9, 10, 13.
pub fn mkb_post(book: MkbBook, a: MkbAmount) -> MkbMoved
    ensures { result ≡ moved_of paid_of book (post_said (book_from book) (amount_from a)) }
{
    flat_moved(book, Book::from(book).post(a.into()))
}

// The next book and what is taken back from each partner; refused, the given book and noughts: refusals 2, 3, 4, 5, 9, 10, 12.
pub fn mkb_refund(book: MkbBook, a: MkbAmount) -> MkbMoved
    ensures { result ≡ moved_of taken_of book (refund_said (book_from book) (amount_from a)) }
{
    flat_moved(book, Book::from(book).refund(a.into()))
}

// The book on its next card, with these weights for the same count: the running totals are settled, the net total is 0, nothing is paid; refused,
// the given book: refusals 3, 4, 9, 10.
pub fn mkb_new_card(book: MkbBook, weights: &[u32]) -> MkbMoved
    ensures { result ≡ carded_of book (card_said (book_from book) weights.now) }
{
    flat_moved(book, Book::from(book).card(weights))
}

// Each partner's running total at the book's net total: refusals 3, 4, 9, 10.
pub fn mkb_running_totals(book: MkbBook) -> MkbTotals
    ensures { result ≡ running_of (totals_said (book_from book)) }
{
    Book::from(book).totals().into()
}
