// The words of a line behind its first, where a currency's code may stand for its number, and a code and a text for an amount's three numbers.
#![tactic(auto)]

use currency::Currency;
use lines::Number;

mod hearing;
mod reading;

// What stands at a place among the numbers of a line: a number and nothing else, a currency, or an amount, which has three numbers.
#[derive(Clone, Copy)]
pub enum Kind {
    Plain,
    Unit,
    Money,
}

// The first place of a line's numbers and the fourth, which stands behind an amount: no other place has a currency.
#[derive(Clone, Copy)]
pub struct Form {
    pub first: Kind,
    pub fourth: Kind,
}

// What the words so far were.
#[derive(Clone, Copy)]
pub struct Heard {
    // so many numbers
    pub count: usize,
    // the last word was the code of an amount of this currency, whose text comes next
    pub awaited: Option<Currency>,
    // the first number is a currency that was given by its code
    pub coded: bool,
    // one of them can't stand where it stands
    pub wrong: bool,
    // the number of the refusal of the first text that is refused
    pub refused: Option<u8>,
}

// What a word is: a number, in front of which another may stand; and what is heard with it.
#[derive(Clone, Copy)]
pub struct Step {
    pub next: Heard,
    pub front: Option<Number>,
    pub last: Number,
}

// A line's words: how many numbers they are, where they are understood; whether the first is a currency given by its code; and the number of the
// refusal of the first text that is refused.
#[derive(Clone, Copy)]
pub struct Spoken {
    pub given: Option<usize>,
    pub coded: bool,
    pub refused: Option<u8>,
}

pub use reading::read_words;
