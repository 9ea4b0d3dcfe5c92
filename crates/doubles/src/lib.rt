// Rows of a spreadsheet, whose columns are doubles, as amounts; and an amount as a double.
#![tactic(auto)]

use amount::Amount;
use refusal::Refusal;

mod column;
mod exports;
mod patterns;
mod rows;

// A row: the net and the tax.
#[derive(Clone, Copy)]
pub struct Row {
    pub net: f64,
    pub tax: f64,
}

// Both columns of a row as amounts: a type of its own, since each of the two is public by its name and its fields.
#[derive(Clone, Copy)]
pub struct Amounts {
    pub net: Amount,
    pub tax: Amount,
}

pub use exports::export;
pub use patterns::{bits_of, of_bits};
pub use rows::take_row;
