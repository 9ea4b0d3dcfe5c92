// A product of two factors divided by a number, with its rest, where no word holds the product.
#![tactic(auto)]

mod digits;
mod parts;

// A quotient and what is left.
#[derive(Clone, Copy)]
pub struct Division {
    pub quotient: u64,
    pub rest: u64,
}

impl Division {
    // The largest factor, divisor and quotient.
    pub const MOST: u64 = 1_000_000_000_000_000_000;
}

pub use parts::divide;
