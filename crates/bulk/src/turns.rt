// The calls of a run by the book's own posting and refund, one after the other.
ghost use Rattle.std.specs.Prelude.{◌≡◌, ◌+◌, ◌*◌, ◌≤◌, ◌<◌, length};
ghost use Rattle.book.specs.Books.{partners};
ghost use Rattle.bulk.specs.Runs.{written};
ghost use Rattle.bulk.specs.Serving.{Fit, Calls, Turned, Served};

use amount::Amount;
use book::{Book, Moved};
use currency::line_of;
use refusal::number_in;

// One call: a refund of the coefficient, or a posting.
fn call(book: Book, refund: bool, coefficient: i64) -> Moved
    ensures { Calls refund book coefficient result }
{
    let currency = book.currency;
    let line = line_of(currency);
    let amount = Amount {
        currency,
        scale: line.digits,
        coefficient,
    };
    if refund {
        book.refund(amount)
    } else {
        book.post(amount)
    }
}

// Sixteen payouts from a place on.
pub(crate) fn write(out: &mut [u64], at: usize, payouts: [u64; Book::PARTNERS])
    requires { at + partners ≤ length out.old }
    ensures { out.new ≡ written out.old at payouts partners }
{
    out[at..at + Book::PARTNERS].copy_from_slice(&payouts);
}

// Serves call j: its payouts and its number are written, and the next book is handed on.
fn turn(
    book: Book,
    refund: bool,
    coefficient: i64,
    j: usize,
    payouts: &mut [u64],
    numbers: &mut [u8],
) -> Book
    requires partners_in_bounds { j * partners + partners ≤ length payouts.old }
    requires j_in_bounds { j < length numbers.old }
    ensures { Turned book refund coefficient j payouts.old numbers.old result payouts.new numbers.new }
{
    let moved = call(book, refund, coefficient);
    let paid = moved.payouts;
    write(payouts, j * Book::PARTNERS, paid);
    numbers[j] = number_in(&moved.outcome);
    moved.book
}

// Serves all calls in turn.
pub(crate) fn one_by_one(
    book: Book,
    refunds: &[bool],
    coefficients: &[i64],
    payouts: &mut [u64],
    numbers: &mut [u8],
) -> Book
    requires { Fit (length refunds.now) (length coefficients.now) (length payouts.old) (length numbers.old) }
    ensures { Served book refunds.now coefficients.now payouts.old numbers.old result payouts.new numbers.new }
{
    let mut last = book;
    for (j, refund) in refunds.iter().enumerate() {
        last = turn(last, *refund, coefficients[j], j, payouts, numbers);
    }
    last
}
