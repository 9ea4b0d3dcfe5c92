// The running totals of sixteen places by their weights: whose the first n units are.
#![tactic(auto)]

mod full;
mod taking;
mod totals;
mod weights;
mod window;

// The places for partners.
pub const PARTNERS: usize = 16;

// The largest sum of the weights.
pub const WEIGHT_SUM: u64 = 10_000;

pub use taking::{LATE, due_number, due_numbers, first_due};
pub use totals::{totals_at, units_between};
pub use weights::sum_from;
