// The sum of the weights: from a place on, and in its limits.
ghost use Rattle.std.specs.Prelude.{◌≡◌, false, drop, MatchOption};
ghost use Rattle.whole.specs.Sums.{sum_of};
ghost use Rattle.running.specs.Limits.{weighed, Weighed};

use crate::{PARTNERS, WEIGHT_SUM};

// The sum of the weights from a place on.
#[tactic(auto, using(crate::proofs::Places::sum_next, crate::proofs::Places::sum_past))]
pub fn sum_from(weights: [u32; PARTNERS], from: usize) -> u64
    ensures { result ≡ sum_of (drop from weights) }
{
    let mut sum = 0;
    for i in from..PARTNERS {
        sum += u64::from(weights[i]);
    }
    sum
}

// The sum of all weights, where it is 1 to 10,000.
#[tactic(auto, using(crate::proofs::Total::keeps, crate::proofs::Total::breaks_none, crate::proofs::Total::breaks_many))]
pub(crate) fn weighed_sum(weights: [u32; PARTNERS]) -> Option<u32>
    ensures { MatchOption result (weighed weights ≡ false) (Weighed weights) }
{
    let sum = sum_from(weights, 0);
    if sum < 1 || WEIGHT_SUM < sum {
        return None;
    }
    Some(sum as u32)
}
