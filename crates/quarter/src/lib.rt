// A quarter's file: its lines as they are read, what each asks for, and the book that an opening or a new card makes.
#![tactic(auto)]

use amount::Amount;
use book::Book;
use console::Feed;
use intake::Lead;
use refusal::Refusal;

mod asking;
mod books;
mod meeting;

// A line's first word, of those that a quarter's file has.
#[derive(Clone, Copy)]
pub enum First {
    Open,
    Card,
    Post,
    Refund,
    Other,
}

// A posting or a refund of an amount, with the code of a reason.
#[derive(Clone, Copy)]
pub struct Call {
    pub refund: bool,
    pub amount: Amount,
    pub reason: u16,
}

// What a line asks for.
#[derive(Clone, Copy)]
pub enum Asked {
    // an empty line or a comment
    Nothing,
    // a line that is not understood
    Unknown,
    // an opening
    Open,
    // a new card
    Card,
    // an `open` or a `card` that is not understood
    Astray,
    Call(Call),
    // a posting or a refund whose amount is a text that is refused with a number: `read_words` tells no more of the refusal
    Refused(u8),
}

// What the bytes that are held begin with: a line, one whose end is yet to come, or the end of the input.
#[derive(Clone, Copy)]
pub enum Next {
    Line(Asked),
    More,
    End,
}

// What was met; where reading stands then; what is known of the first word of a line that is too long to hold; and where a line stands among the bytes
// that are held, and whether it has no newline. By value, as `reading_of`, the promise of `read_line`, says it.
#[derive(Clone, Copy)]
pub struct Reading {
    pub feed: Feed,
    pub lead: Lead,
    pub start: usize,
    pub end: usize,
    pub unended: bool,
    pub next: Next,
}

// How a book was opened: not at all, by an `open` that is not understood, with a refusal, or as asked.
#[derive(Clone, Copy)]
pub enum Opening {
    Nothing,
    Unknown,
    Refused(Refusal),
    Accepted,
}

// The book that an opening makes, and whether its currency was given by its code.
#[derive(Clone, Copy)]
pub struct Begun {
    pub opening: Opening,
    pub book: Book,
    pub coded: bool,
}

pub use asking::asked_of;
pub use books::{begin, card_of, no_book};
pub use meeting::read_line;
