// The Gregorian calendar from 1900 to 2199, and the days between two dates by each basis.
#![tactic(auto)]

use refusal::Refusal;

mod dates;
mod days;
mod numbering;

#[derive(Clone, Copy)]
pub struct Date {
    pub year: u16,
    pub month: u8,
    pub day: u8,
}

// How the days between two dates are counted, and how many a year has.
#[derive(Clone, Copy, PartialEq, Eq)]
pub enum Basis {
    // the actual days, of a year of 360
    Actual360,
    // the actual days, of a year of 365
    Actual365,
    // 30/360 by the American rule
    American,
    // 30/360 by the European rule
    European,
}

pub use dates::date_exists;
pub use days::{day_count, days_between};
