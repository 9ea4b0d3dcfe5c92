// The share book. What each answers is said at the function of its name.
ghost use Rattle.std.specs.Prelude.{◌≡◌};
ghost use Rattle.book.specs.Moves.{open_said, post_said, refund_said, paid_of, taken_of, totals_said};
ghost use Rattle.book.specs.Cards.{card_said};
ghost use Rattle.flat.specs.Given.{currency_from, amount_from, book_from};
ghost use Rattle.flat.specs.Books.{opened_of, moved_of, carded_of, running_of};

use flat::{MkbAmount, MkbBook, MkbMoved, MkbOpened, MkbTotals};

#[unsafe(no_mangle)]
pub extern "C" fn mkb_open(currency: i64, weights: &[u32]) -> MkbOpened
    ensures { result ≡ opened_of (open_said (currency_from currency) weights.now) }
{
    morskebab::mkb_open(currency, weights)
}

#[unsafe(no_mangle)]
pub extern "C" fn mkb_post(book: MkbBook, a: MkbAmount) -> MkbMoved
    ensures { result ≡ moved_of paid_of book (post_said (book_from book) (amount_from a)) }
{
    morskebab::mkb_post(book, a)
}

#[unsafe(no_mangle)]
pub extern "C" fn mkb_refund(book: MkbBook, a: MkbAmount) -> MkbMoved
    ensures { result ≡ moved_of taken_of book (refund_said (book_from book) (amount_from a)) }
{
    morskebab::mkb_refund(book, a)
}

#[unsafe(no_mangle)]
pub extern "C" fn mkb_new_card(book: MkbBook, weights: &[u32]) -> MkbMoved
    ensures { result ≡ carded_of book (card_said (book_from book) weights.now) }
{
    morskebab::mkb_new_card(book, weights)
}

#[unsafe(no_mangle)]
pub extern "C" fn mkb_running_totals(book: MkbBook) -> MkbTotals
    ensures { result ≡ running_of (totals_said (book_from book)) }
{
    morskebab::mkb_running_totals(book)
}
