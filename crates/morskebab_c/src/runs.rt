// A run of calls on one book. What each answers is said at the function of its name.
ghost use Rattle.std.specs.Prelude.{◌≡◌, length};
ghost use Rattle.bulk.specs.Runs.{run_said, served_of, payouts_after, numbers_after};
ghost use Rattle.flat.specs.Given.{book_from};
ghost use Rattle.flat.specs.Books.{ran_of};

use flat::{MkbBook, MkbRan};

#[unsafe(no_mangle)]
pub extern "C" fn mkb_run(
    book: MkbBook,
    refunds: &[bool],
    coefficients: &[i64],
    payouts: &mut [u64],
    numbers: &mut [u8],
) -> MkbRan
    ensures said { result ≡ ran_of book refunds.now coefficients.now (run_said (book_from book) (length refunds.now) (length coefficients.now) (length payouts.old) (length numbers.old)) }
    ensures paid { payouts.new ≡ payouts_after (book_from book) refunds.now coefficients.now payouts.old result.served }
    ensures numbered { numbers.new ≡ numbers_after (book_from book) refunds.now coefficients.now numbers.old result.served }
{
    morskebab::mkb_run(book, refunds, coefficients, payouts, numbers)
}
