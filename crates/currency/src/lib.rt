// Currency numbers and the table of currencies.
#![tactic(auto)]

mod digits;
mod table;

// No enum: any number may come in, and one over 20 is refused with 4, by promise.
// A currency number, 0 to 20: a kind of its own, so that scales, modes and currencies can't be mixed.
#[derive(Clone, Copy)]
pub struct Currency(pub u8);

impl Currency {
    // The last currency of the table.
    pub const LAST: u8 = 20;
}

// A line of the table: the code's letters, K and k of the rate K / 10^k, and the currency's own scale.
#[derive(Clone, Copy)]
pub struct Line {
    pub code: [u8; 3],
    pub figures: u64,
    pub places: u8,
    pub digits: u8,
}

pub use digits::not_own_digits;
pub use table::{line_of, power_of_ten};
