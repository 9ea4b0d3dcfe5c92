// Words and whole numbers of a line of text, read and written.
#![tactic(auto)]

mod numbers;
mod texts;
mod words;

// A word of a line: from start up to end; an empty one where there is none.
#[derive(Clone, Copy)]
pub struct Word {
    pub start: usize,
    pub end: usize,
}

// A whole number as read: whether it has a minus, and its magnitude.
#[derive(Clone, Copy)]
pub struct Number {
    pub negative: bool,
    pub magnitude: u64,
}

// The number 0: what stands where there is no number.
pub const NOUGHT: Number = Number {
    negative: false,
    magnitude: 0,
};

pub use numbers::read_number;
pub use texts::{places, put_bytes, put_number};
pub use words::{line_end, word_from};
