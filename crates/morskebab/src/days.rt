// Dates, day counts and interest.
ghost use Rattle.std.specs.Prelude.{◌≡◌};
ghost use Rattle.calendar.specs.Calendar.{exists};
ghost use Rattle.calendar.specs.DaysSaid.{days_said};
ghost use Rattle.interest.specs.Interest.{interest_said};
ghost use Rattle.flat.specs.Given.{passed8, passed32, amount_from, date_from};
ghost use Rattle.flat.specs.Answers.{amount_answer_of, days_of};

use calendar::{date_exists, day_count};
use flat::{MkbAmount, MkbAmountAnswer, MkbDate, MkbDays, pass_u8, pass_u32};
use interest::interest;

// Whether the date exists, from 1900 to 2199.
pub fn mkb_date_exists(date: MkbDate) -> bool
    ensures { result ≡ exists (date_from date).year (date_from date).month (date_from date).day }
{
    date_exists(date.into())
}

// The days from the start to the end by the basis: refusals 6, 7, 8.
pub fn mkb_day_count(basis: i64, start: MkbDate, end: MkbDate) -> MkbDays
    ensures { result ≡ days_of (days_said (passed8 basis) (date_from start) (date_from end)) }
{
    day_count(pass_u8(basis), start.into(), end.into()).into()
}

// The interest on the principal from the start to the end: refusals 1, 2, 3, 4, 6, 7, 8, 13.
pub fn mkb_interest(
    principal: MkbAmount,
    rate: i64,
    basis: i64,
    start: MkbDate,
    end: MkbDate,
    mode: i64,
) -> MkbAmountAnswer
    ensures { result ≡ amount_answer_of (interest_said (amount_from principal) (passed32 rate) (passed8 basis) (date_from start) (date_from end) (passed8 mode)) }
{
    interest(
        principal.into(),
        pass_u32(rate),
        pass_u8(basis),
        start.into(),
        end.into(),
        pass_u8(mode),
    )
    .into()
}
