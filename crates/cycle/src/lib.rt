// One cycle of running totals in a lent table.
#![tactic(auto)]

mod cycle;

pub use cycle::fill_cycle;
