// A lent list of weights: its limits, its rows of the table and its sum.
#![tactic(auto)]

ghost use Rattle.std.specs.Prelude.{◌≡◌};
ghost use Rattle.refusal.specs.Rows.{check_of};
ghost use Rattle.weights.specs.Weights.{list_rows, weighed};

use refusal::Refusal;

// The most weights that a list has.
pub const MOST_WEIGHTS: usize = 64;

// The largest sum of its weights.
pub const LARGEST_SUM: u64 = 1_000_000;

// No Option: 0 is the promise `weighed`, and row 9 refuses a sum of 0 whatever its reason.
// The sum of the weights, and 0 where there are more than a list may have.
pub fn weigh(weights: &[u32]) -> u64
    ensures { result ≡ weighed weights.now }
{
    if MOST_WEIGHTS < weights.len() {
        return 0;
    }
    let mut sum: u64 = 0;
    for weight in weights {
        sum += *weight as u64;
    }
    sum
}

// The first row of the table, 9 or 11, that holds for these weights and an output of so many places.
pub fn check_weights(weights: &[u32], room: usize) -> Result<(), Refusal>
    ensures { result ≡ check_of (list_rows weights.now room) }
{
    if weights.len() < 1 {
        return Err(Refusal::Weights);
    }
    if MOST_WEIGHTS < weights.len() {
        return Err(Refusal::Weights);
    }
    let sum = weigh(weights);
    if sum < 1 {
        return Err(Refusal::Weights);
    }
    if LARGEST_SUM < sum {
        return Err(Refusal::Weights);
    }
    if room < weights.len() {
        return Err(Refusal::Room);
    }
    Ok(())
}
