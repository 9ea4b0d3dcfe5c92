// What crosses to C and back: structs that C lays out alike, what the base is passed of the numbers in them, and every answer of the base
// flattened. An enum can't cross: an answer is a struct with the refusal's number (0 where the call is accepted), the date that is blamed
// (0 where none is) and the values. Where a call is refused these are 0, except that a posting, a refund and a run hand the given book back.
#![tactic(auto)]

use book::Book;

mod amounts;
mod books;
mod days;
mod given;
mod lines;
mod numbers;
mod orders;
mod prices;
mod reasons;
mod rows;
mod statements;
mod texts;
mod views;
mod wholes;

pub use books::{flat_moved, flat_ran};
pub use given::given_currency;
pub use numbers::{pass_u8, pass_u16, pass_u32, pass_u64};
pub use reasons::flat_any_step;
pub use views::flat_step;

// Its worth is coefficient / 10^scale.
#[repr(C)]
#[derive(Clone, Copy)]
pub struct MkbAmount {
    pub currency: i32,
    pub scale: i32,
    pub coefficient: i64,
}

#[repr(C)]
#[derive(Clone, Copy)]
pub struct MkbDate {
    pub year: i32,
    pub month: i32,
    pub day: i32,
}

// The card's number has as many bytes as a total, so that no place between the fields is unused.
#[repr(C)]
#[derive(Clone, Copy)]
pub struct MkbBook {
    pub currency: i32,
    pub count: i32,
    pub weights: [u32; Book::PARTNERS],
    pub net: i64,
    pub card: i64,
    pub settled: [i64; Book::PARTNERS],
}

// A line of the table of currencies: the code's letters, K and k of the rate K / 10^k, and the currency's own scale.
#[repr(C)]
#[derive(Clone, Copy)]
pub struct MkbLine {
    pub code: [u8; 3],
    pub places: u8,
    pub digits: u8,
    pub figures: u64,
}

#[repr(C)]
#[derive(Clone, Copy)]
pub struct MkbWhole {
    pub refusal: u8,
    pub blamed: u8,
    pub value: i64,
}

#[repr(C)]
#[derive(Clone, Copy)]
pub struct MkbAmountAnswer {
    pub refusal: u8,
    pub blamed: u8,
    pub amount: MkbAmount,
}

// -1, 0 or 1.
#[repr(C)]
#[derive(Clone, Copy)]
pub struct MkbOrderAnswer {
    pub refusal: u8,
    pub blamed: u8,
    pub order: i8,
}

#[repr(C)]
#[derive(Clone, Copy)]
pub struct MkbDays {
    pub refusal: u8,
    pub blamed: u8,
    pub days: u32,
}

#[repr(C)]
#[derive(Clone, Copy)]
pub struct MkbSplit {
    pub refusal: u8,
    pub blamed: u8,
    pub net: MkbAmount,
    pub tax: MkbAmount,
    pub gross: MkbAmount,
}

// A row of a spreadsheet.
#[repr(C)]
#[derive(Clone, Copy)]
pub struct MkbColumns {
    pub net: f64,
    pub tax: f64,
}

#[repr(C)]
#[derive(Clone, Copy)]
pub struct MkbRowAnswer {
    pub refusal: u8,
    pub blamed: u8,
    pub net: MkbAmount,
    pub tax: MkbAmount,
}

#[repr(C)]
#[derive(Clone, Copy)]
pub struct MkbDouble {
    pub refusal: u8,
    pub blamed: u8,
    pub value: f64,
}

// So many of the first places of a lent buffer are written.
#[repr(C)]
#[derive(Clone, Copy)]
pub struct MkbWritten {
    pub refusal: u8,
    pub blamed: u8,
    pub length: u64,
}

#[repr(C)]
#[derive(Clone, Copy)]
pub struct MkbOpened {
    pub refusal: u8,
    pub blamed: u8,
    pub book: MkbBook,
}

// Where the call is refused, the given book, field for field, and noughts.
#[repr(C)]
#[derive(Clone, Copy)]
pub struct MkbMoved {
    pub refusal: u8,
    pub blamed: u8,
    pub book: MkbBook,
    pub payouts: [u64; Book::PARTNERS],
}

#[repr(C)]
#[derive(Clone, Copy)]
pub struct MkbTotals {
    pub refusal: u8,
    pub blamed: u8,
    pub totals: [u64; Book::PARTNERS],
}

// The book after a run of calls, and how many were served; where the run is refused, the given book and none.
#[repr(C)]
#[derive(Clone, Copy)]
pub struct MkbRan {
    pub refusal: u8,
    pub blamed: u8,
    pub book: MkbBook,
    pub served: u64,
}

// The place behind a statement's last byte.
#[repr(C)]
#[derive(Clone, Copy)]
pub struct MkbEnd {
    pub refusal: u8,
    pub blamed: u8,
    pub end: u64,
}

// What a statement says of itself: the first record's start, the count of its records and the sum of their coefficients.
#[repr(C)]
#[derive(Clone, Copy)]
pub struct MkbStatement {
    pub refusal: u8,
    pub blamed: u8,
    pub first: u64,
    pub count: u64,
    pub sum: i64,
}

// Where a view of a statement begins: the first record's start.
#[repr(C)]
#[derive(Clone, Copy)]
pub struct MkbFirst {
    pub refusal: u8,
    pub blamed: u8,
    pub first: u64,
}

// What a view hands out at a place: the place of what comes next, and a record's numbers or that it has ended. The next place stands first, by
// itself, since a walk waits for nothing else.
#[repr(C)]
#[derive(Clone, Copy)]
pub struct MkbStep {
    pub next: u64,
    pub ended: bool,
    pub place: u16,
    pub currency: u16,
    pub coefficient: i64,
}

// The same of a statement of either version, with its version.
#[repr(C)]
#[derive(Clone, Copy)]
pub struct MkbAnyStatement {
    pub refusal: u8,
    pub blamed: u8,
    pub version: u16,
    pub first: u64,
    pub count: u64,
    pub sum: i64,
}

// What a view of either version hands out at a place, with the reason.
#[repr(C)]
#[derive(Clone, Copy)]
pub struct MkbAnyStep {
    pub next: u64,
    pub ended: bool,
    pub place: u16,
    pub currency: u16,
    pub reason: u16,
    pub coefficient: i64,
}
