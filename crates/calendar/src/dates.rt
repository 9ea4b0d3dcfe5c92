// The Gregorian calendar: which dates there are, and the number of a day.
ghost use Rattle.std.specs.Prelude.{◌≡◌, true, ◌≤◌, ◌-◌};
ghost use Rattle.calendar.specs.Calendar.{leap, month_length, exists, days_of_months, days_of_years, day_number};

use crate::Date;

fn is_leap(year: u16) -> bool
    ensures { result ≡ leap year }
{
    if year % 400 == 0 {
        return true;
    }
    if year % 100 == 0 {
        return false;
    }
    year % 4 == 0
}

// The days of February.
fn february(year: u16) -> u8
    ensures { result ≡ month_length year 2 }
{
    if is_leap(year) { 29 } else { 28 }
}

fn month_length(year: u16, month: u8) -> u8
    requires { (1 ≤ month) × (month ≤ 12) }
    ensures { result ≡ month_length year month }
{
    match month {
        2 => february(year),
        4 | 6 | 9 | 11 => 30,
        _ => 31,
    }
}

fn exists_on(year: u16, month: u8, day: u8) -> bool
    ensures { result ≡ exists year month day }
{
    if year < 1900 {
        return false;
    }
    if 2199 < year {
        return false;
    }
    if month < 1 {
        return false;
    }
    if 12 < month {
        return false;
    }
    if day < 1 {
        return false;
    }
    // every month has 28 days
    if day <= 28 {
        return true;
    }
    day <= month_length(year, month)
}

// Whether a date exists, from 1900 to 2199.
pub fn date_exists(date: Date) -> bool
    ensures { result ≡ exists date.year date.month date.day }
{
    exists_on(date.year, date.month, date.day)
}

// The days from 1900 on before the year: 365 for each year, and one more for each leap year, of which 460 lie before 1900.
fn days_before_year(year: u16) -> u32
    requires { 1900 ≤ year }
    ensures { result ≡ days_of_years (year - 1900) }
{
    let past = year as u32 - 1;
    365 * (past - 1899) + past / 4 - past / 100 + past / 400 - 460
}

// The days before the month in a year that is not leap, as 1901 is not.
fn common_days(month: u8) -> u32
    requires { (1 ≤ month) × (month ≤ 12) }
    ensures { result ≡ days_of_months 1901 (month - 1) }
{
    match month {
        1 => 0,
        2 => 31,
        3 => 59,
        4 => 90,
        5 => 120,
        6 => 151,
        7 => 181,
        8 => 212,
        9 => 243,
        10 => 273,
        11 => 304,
        _ => 334,
    }
}

// The days of the year before the month: one more behind the February of a leap year.
fn days_before_month(year: u16, month: u8) -> u32
    requires { (1 ≤ month) × (month ≤ 12) }
    ensures { result ≡ days_of_months year (month - 1) }
{
    let leap = is_leap(year);
    let common = common_days(month);
    if leap {
        if 2 < month { common + 1 } else { common }
    } else {
        common
    }
}

// The number of a day, 1900-01-01 being 1.
pub(crate) fn day_number(date: Date) -> u32
    requires { exists date.year date.month date.day ≡ true }
    ensures { result ≡ day_number date.year date.month date.day }
{
    days_before_year(date.year) + days_before_month(date.year, date.month) + date.day as u32
}
