// A run of calls on one book.
ghost use Rattle.std.specs.Prelude.{◌≡◌, length};
ghost use Rattle.bulk.specs.Runs.{run_said, served_of, payouts_after, numbers_after};
ghost use Rattle.flat.specs.Given.{book_from};
ghost use Rattle.flat.specs.Books.{ran_of};

use bulk::run;
use flat::{MkbBook, MkbRan, flat_ran};

// The movements in turn, a refund of the coefficient where `refunds` has true and else a posting: call j's payouts at the sixteen places from
// 16 x j on and its number, 0 where it is accepted, at place j; the places past the run stay. The run itself is refused, and then every place
// stays and the given book comes back: 3, 4, 9, 10 for the book, 9 for lists of unequal length, 11 for too little room.
pub fn mkb_run(
    book: MkbBook,
    refunds: &[bool],
    coefficients: &[i64],
    payouts: &mut [u64],
    numbers: &mut [u8],
) -> MkbRan
    ensures said { result ≡ ran_of book refunds.now coefficients.now (run_said (book_from book) (length refunds.now) (length coefficients.now) (length payouts.old) (length numbers.old)) }
    ensures paid { payouts.new ≡ payouts_after (book_from book) refunds.now coefficients.now payouts.old result.served }
    ensures numbered { numbers.new ≡ numbers_after (book_from book) refunds.now coefficients.now numbers.old result.served }
{
    let ran = run(book.into(), refunds, coefficients, payouts, numbers);
    flat_ran(book, ran)
}
