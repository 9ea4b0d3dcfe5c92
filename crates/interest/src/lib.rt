// Simple interest over days.
#![tactic(auto)]

mod accrual;

pub use accrual::interest;
