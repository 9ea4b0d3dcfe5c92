// A run of calls on one book.
ghost use Rattle.std.specs.Prelude.{◌≡◌, not, eqb, length};
ghost use Rattle.bulk.specs.Runs.{short, Serves};
ghost use Rattle.bulk.specs.Left.{Sound};
ghost use Rattle.bulk.specs.Serving.{Fit, Served};

use crate::Ran;
use crate::tabled::by_table;
use crate::turns::one_by_one;
use book::Book;
use running::sum_from;

// Lists of unequal length.
fn unequal(calls: usize, coefficients: usize) -> bool
    ensures { result ≡ not (eqb coefficients calls) }
{
    coefficients != calls
}

// Too little room; sixteen places for each call are counted by a quotient, which can't wrap.
fn too_short(calls: usize, payouts: usize, numbers: usize) -> bool
    ensures { result ≡ short calls payouts numbers }
{
    numbers < calls || payouts / Book::PARTNERS < calls
}

// So many units of the cycle cost as much as a call by the table spares.
const UNITS_A_CALL: u64 = 16;

// Serves all calls in turn: by a table where the calls are many enough to pay for it; both ways meet one promise.
fn serve(
    book: Book,
    refunds: &[bool],
    coefficients: &[i64],
    payouts: &mut [u64],
    numbers: &mut [u8],
) -> Book
    requires sound { Sound book }
    requires fit { Fit (length refunds.now) (length coefficients.now) (length payouts.old) (length numbers.old) }
    ensures { Served book refunds.now coefficients.now payouts.old numbers.old result payouts.new numbers.new }
{
    let weights = book.weights;
    let sum = sum_from(weights, 0);
    if (refunds.len() as u64) < sum / UNITS_A_CALL {
        return one_by_one(book, refunds, coefficients, payouts, numbers);
    }
    by_table(book, sum, refunds, coefficients, payouts, numbers)
}

// Serves the movements in turn: where `refunds` has true it refunds the coefficient, else it posts it, in the book's currency at its own
// digits. Call j's payouts go to the sixteen places from 16 x j on, its refusal number, 0 where it is accepted, to place j; a refused
// call pays zeros and the run goes on. A given book that every call refuses is refused with its number, lists of unequal length with 9,
// too little room with 11; then nothing is served. The lent payouts and numbers are those of the C interface.
pub fn run(
    book: Book,
    refunds: &[bool],
    coefficients: &[i64],
    payouts: &mut [u64],
    numbers: &mut [u8],
) -> Ran
    ensures { Serves book refunds.now coefficients.now payouts.old numbers.old result payouts.new numbers.new }
{
    let calls = refunds.len();
    let broken = unequal(calls, coefficients.len());
    let short = too_short(calls, payouts.len(), numbers.len());
    match book.check(broken, short) {
        Err(refusal) => Ran {
            outcome: Err(refusal),
            book,
            served: 0,
        },
        Ok(()) => {
            let last = serve(book, refunds, coefficients, payouts, numbers);
            Ran {
                outcome: Ok(()),
                book: last,
                served: calls,
            }
        },
    }
}
