// The settled totals of a book: what its rows need to know of them. A sum of signed numbers is kept as two: of those from 0 on, and of the
// magnitudes of those below.
ghost use Rattle.std.specs.Prelude.{◌≡◌, false, cond, drop};
ghost use Rattle.book.specs.Settled.{up_of, down_of, above, below, any_over};
ghost use Rattle.refusal.specs.Rows.{means};
ghost use Rattle.book.specs.Checks.{settled_said};

use crate::{Book, Past, Sums};
use amount::Amount;
use refusal::Refusal;
use whole::{is_negative, magnitude};

// A number where it is from 0 on, and its magnitude where it is below; 0 else.
fn up(n: i64) -> u64
    ensures { result ≡ up_of n }
{
    if is_negative(n) {
        return 0;
    }
    magnitude(n)
}

fn down(n: i64) -> u64
    ensures { result ≡ down_of n }
{
    if is_negative(n) {
        return magnitude(n);
    }
    0
}

// Some settled total has a magnitude over L.
pub(crate) fn any_over(settled: [i64; Book::PARTNERS]) -> bool
    ensures { result ≡ any_over settled }
{
    settled.iter().any(|total| Amount::L < magnitude(*total))
}

// The sums from a place on.
pub(crate) fn sums_from(settled: [i64; Book::PARTNERS], from: usize) -> Sums
    requires { any_over settled ≡ false }
    ensures { (result.above ≡ above (drop from settled)) × (result.below ≡ below (drop from settled)) }
{
    let mut above: u64 = 0;
    let mut below: u64 = 0;
    for total in settled.iter().skip(from) {
        above += up(*total);
        below += down(*total);
    }
    Sums { above, below }
}

// Row 3 at the settled totals, and what is to be known of them beside a count; they are summed only where none is over L.
pub(crate) fn past_of(
    settled: [i64; Book::PARTNERS],
    count: usize,
    net: i64,
) -> Result<Past, Refusal>
    ensures { means result ≡ settled_said count net settled }
{
    if any_over(settled) {
        return Err(Refusal::Magnitude);
    }
    let all = sums_from(settled, 0);
    let full = Amount::L + (down(net) + all.below) < up(net) + all.above;
    if full {
        return Err(Refusal::Magnitude);
    }
    let behind = sums_from(settled, count);
    let past = 0 < behind.above + behind.below;
    let negative = 0 < all.below;
    Ok(Past {
        behind: past,
        negative,
        sum: all.above,
    })
}
