// Statement files: a record for each payout and a trailer that points back, written into a lent buffer, and checked.
#![tactic(auto)]

ghost use Rattle.std.specs.Prelude.{◌≡◌};
ghost use Rattle.statement.specs.Files.{version_of, record_width};
ghost use Rattle.statement.specs.Parts.{Numbered};

use refusal::Refusal;

mod looking;
mod numbers;
mod reading;
mod records;
mod runs;
mod walking;
mod writing;

// The most records of a file.
pub const RECORDS: usize = 4_000;

// The last place of a partner.
pub const PLACE: u16 = 15;

// The last reason code.
pub const REASON: u16 = 99;

// The bytes of a record, and of one with a reason.
pub const RECORD: usize = 16;

pub const RECORD_WITH_REASON: usize = 24;

// The bytes of a trailer.
pub const TRAILER: usize = 24;

// A file's version: 1, whose records are payouts alone, and 2, where each has a reason code behind it.
#[derive(Clone, Copy)]
pub enum Version {
    Plain,
    Reasons,
}

// A trailer's numbers, the sum as its word holds it.
#[derive(Clone, Copy)]
pub struct Trailer {
    pub distance: u64,
    pub count: u64,
    pub sum: u64,
    pub version: u64,
    pub zeros: u64,
}

// What a file says of itself: the first record's start, the count of its records and the sum of their coefficients.
#[derive(Clone, Copy)]
pub struct Summary {
    pub first: usize,
    pub count: usize,
    pub sum: i64,
}

// The same of a file of either version, 1 or 2.
#[derive(Clone, Copy)]
pub struct SummaryOfAny {
    pub version: u16,
    pub summary: Summary,
}

// What a record says of one payout.
#[derive(Clone, Copy)]
pub struct Payout {
    pub place: u16,
    pub currency: u16,
    pub coefficient: i64,
}

// What a record of either version says: reason 0 in version 1.
#[derive(Clone, Copy)]
pub struct Reasoned {
    pub payout: Payout,
    pub reason: u16,
}

impl Version {
    // The version's number.
    pub fn number(self) -> u16
        ensures { result ≡ version_of self }
    {
        match self {
            Version::Plain => 1,
            Version::Reasons => 2,
        }
    }

    // The bytes of a record.
    pub fn width(self) -> usize
        ensures { result ≡ record_width self }
    {
        match self {
            Version::Plain => RECORD,
            Version::Reasons => RECORD_WITH_REASON,
        }
    }
}

// The version with a number, or refusal 14.
impl TryFrom<u16> for Version {
    type Error = Refusal;

    ghost try_from_gives = { Numbered };

    fn try_from(number: u16) -> Result<Version, Refusal> {
        match number {
            1 => Ok(Version::Plain),
            2 => Ok(Version::Reasons),
            _ => Err(Refusal::Malformed),
        }
    }
}

pub use reading::{check, check_any};
pub use walking::{any_place_after, any_step_at, place_after, step_at};
pub use writing::{write, write_reasons};
