// The weights of a book: row 9 of the table of refusals, and a list of weights in a book's sixteen places.
ghost use Rattle.std.specs.Prelude.{◌≡◌, ◌++◌, ◌-◌, ◌≤◌, length, replicate};
ghost use Rattle.refusal.specs.Rows.{check_of};
ghost use Rattle.book.specs.Books.{partners, weight_rows};

use crate::Book;
use refusal::Refusal;
use running::sum_from;

// Row 9 at a count and the sixteen places.
#[tactic(auto, unfolding(crate::specs::Books::weight_rows))]
pub(crate) fn check_weights(count: usize, weights: [u32; Book::PARTNERS]) -> Result<(), Refusal>
    ensures { result ≡ check_of (weight_rows count weights) }
{
    if count < 1 {
        return Err(Refusal::Weights);
    }
    if Book::PARTNERS < count {
        return Err(Refusal::Weights);
    }
    if 0 < sum_from(weights, count) {
        return Err(Refusal::Weights);
    }
    let sum = sum_from(weights, 0);
    if sum < 1 {
        return Err(Refusal::Weights);
    }
    if Book::WEIGHT_SUM < sum {
        return Err(Refusal::Weights);
    }
    Ok(())
}

// Row 9 at a list of weights, which is summed only where it has places in a book.
pub(crate) fn check_list(weights: &[u32]) -> Result<(), Refusal>
    ensures { result ≡ check_of (weight_rows (length weights.now) weights.now) }
{
    if Book::PARTNERS < weights.len() {
        return Err(Refusal::Weights);
    }
    check_weights(weights.len(), placed(weights))
}

// A list of at most sixteen weights, with noughts behind it.
pub(crate) fn placed(list: &[u32]) -> [u32; Book::PARTNERS]
    requires { length list.now ≤ partners }
    ensures { result ≡ list.now ++ replicate (partners - length list.now) 0 }
{
    let mut weights: [u32; Book::PARTNERS] = [0; Book::PARTNERS];
    weights[..list.len()].copy_from_slice(list);
    weights
}
