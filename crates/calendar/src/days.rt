// The days between two dates by a basis.
ghost use Rattle.std.specs.Prelude.{◌≡◌};
ghost use Rattle.refusal.specs.Rows.{means};
ghost use Rattle.calendar.specs.DayCount.{clipped, american, difference, basis_of};
ghost use Rattle.calendar.specs.DaysSaid.{days_said};
ghost use Rattle.calendar.specs.Counting.{Numbered, Read};
ghost use Rattle.calendar.specs.Numbered.{number_of};

use crate::dates::{date_exists, day_number};
use crate::{Basis, Date};
use refusal::{Blamed, Refusal};

// A day 31 becomes 30.
fn clip(day: u8) -> u8
    ensures { result ≡ clipped day }
{
    if day < 30 { day } else { 30 }
}

// The second day by the American rule: a day 31 becomes 30 only where the first day is then 30.
fn american_day(first: u8, second: u8) -> u8
    ensures { result ≡ american first second }
{
    let clipped = clip(second);
    if first == 30 { clipped } else { second }
}

// The days of 30/360, with the second day as its rule has it.
fn thirty_days(start: Date, end: Date, second: u8) -> u32
    requires { Read start end second }
    ensures { result ≡ difference start end (clipped start.day) second }
{
    let from = 360 * start.year as u32 + 30 * start.month as u32 + clip(start.day) as u32;
    let to = 360 * end.year as u32 + 30 * end.month as u32 + second as u32;
    to - from
}

// The day count of the basis, by the day numbers of the two dates.
fn count_of(basis: Basis, start: Date, end: Date, from: u32, to: u32) -> u32
    requires { Numbered start end from to }
    ensures { result ≡ (basis_of (number_of basis)).count start end }
{
    match basis {
        Basis::Actual360 | Basis::Actual365 => to - from,
        Basis::American => thirty_days(start, end, american_day(clip(start.day), end.day)),
        Basis::European => thirty_days(start, end, clip(end.day)),
    }
}

// The days from the start to the end by a basis, or the refusal 7 or 8: the rows in the table's order.
pub fn days_between(basis: Basis, start: Date, end: Date) -> Result<u32, Refusal>
    ensures { means result ≡ days_said (number_of basis) start end }
{
    if !date_exists(start) {
        return Err(Refusal::Date(Blamed::First));
    }
    if !date_exists(end) {
        return Err(Refusal::Date(Blamed::Second));
    }
    let from = day_number(start);
    let to = day_number(end);
    if to < from {
        return Err(Refusal::Days);
    }
    let days = count_of(basis, start, end, from, to);
    if 366 < days {
        return Err(Refusal::Days);
    }
    Ok(days)
}

// The same by the number of a basis, or the refusal 6, 7 or 8.
pub fn day_count(basis: u8, start: Date, end: Date) -> Result<u32, Refusal>
    ensures { means result ≡ days_said basis start end }
{
    let basis = Basis::try_from(basis)?;
    days_between(basis, start, end)
}
