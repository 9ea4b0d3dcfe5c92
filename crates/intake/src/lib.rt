// Lines out of a stream that comes in chunks: the next line of the bytes that are held, what is kept for the next chunk, the first word of
// a line that is too long to hold, and a line's numbers.
#![tactic(auto)]

mod cuts;
mod keeping;
mod leads;
mod lists;
mod marks;
mod numbers;

// The longest line that is read.
pub const LONGEST: usize = 4_000;

// Where reading stands in the bytes that are held.
#[derive(Clone, Copy)]
pub struct Intake {
    // the first byte that is not read yet
    pub from: usize,
    // the bytes up to the next newline belong to a line that was too long to hold
    pub skipping: bool,
    // no more bytes will come
    pub ended: bool,
}

// What the bytes that are not read yet begin with.
#[derive(Clone, Copy)]
pub enum Found {
    // a line
    Line,
    // what was left of a line of over LONGEST bytes
    Long,
    // a line whose end is yet to come
    More,
    // nothing, and nothing more will come
    Nothing,
}

// What was found; its first place among the bytes that are held and the place behind its last; whether it is a line that the end of the
// input ends, and no newline; and where reading stands then.
#[derive(Clone, Copy)]
pub struct Cut {
    pub found: Found,
    pub start: usize,
    pub end: usize,
    pub unended: bool,
    pub next: Intake,
}

// What is known of the first word of a line after some of its bytes: nothing but spaces came; it begins so, or is `open` or `card`, with a space
// or a carriage return behind it; or it is another.
#[derive(Clone, Copy)]
pub enum Lead {
    Spaces,
    O,
    Op,
    Ope,
    C,
    Ca,
    Car,
    Open,
    OpenSpace,
    OpenReturn,
    Other,
}

// What the input begins with: a byte order mark, the beginning of one and no more yet, or something else.
#[derive(Clone, Copy)]
pub enum Mark {
    Whole,
    Part,
    Nothing,
}

pub use cuts::next_line;
pub use keeping::keep;
pub use leads::{is_open, lead_of};
pub use lists::{read_coefficients, read_places, read_weights};
pub use marks::mark_of;
pub use numbers::{amount_at, asks_nothing, next_word, nth, put, read_numbers};
