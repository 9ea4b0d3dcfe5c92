// Dates, day counts and interest. What each answers is said at the function of its name.
ghost use Rattle.std.specs.Prelude.{◌≡◌};
ghost use Rattle.calendar.specs.Calendar.{exists};
ghost use Rattle.calendar.specs.DaysSaid.{days_said};
ghost use Rattle.interest.specs.Interest.{interest_said};
ghost use Rattle.flat.specs.Given.{passed8, passed32, amount_from, date_from};
ghost use Rattle.flat.specs.Answers.{amount_answer_of, days_of};

use flat::{MkbAmount, MkbAmountAnswer, MkbDate, MkbDays};

#[unsafe(no_mangle)]
pub extern "C" fn mkb_date_exists(date: MkbDate) -> bool
    ensures { result ≡ exists (date_from date).year (date_from date).month (date_from date).day }
{
    morskebab::mkb_date_exists(date)
}

#[unsafe(no_mangle)]
pub extern "C" fn mkb_day_count(basis: i64, start: MkbDate, end: MkbDate) -> MkbDays
    ensures { result ≡ days_of (days_said (passed8 basis) (date_from start) (date_from end)) }
{
    morskebab::mkb_day_count(basis, start, end)
}

#[unsafe(no_mangle)]
pub extern "C" fn mkb_interest(
    principal: MkbAmount,
    rate: i64,
    basis: i64,
    start: MkbDate,
    end: MkbDate,
    mode: i64,
) -> MkbAmountAnswer
    ensures { result ≡ amount_answer_of (interest_said (amount_from principal) (passed32 rate) (passed8 basis) (date_from start) (date_from end) (passed8 mode)) }
{
    morskebab::mkb_interest(principal, rate, basis, start, end, mode)
}
