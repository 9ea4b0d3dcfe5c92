// Simple interest over days: principal x rate x days / (10,000 x year), rounded once.
ghost use Rattle.std.specs.Prelude.{◌≡◌};
ghost use Rattle.refusal.specs.Rows.{check_of, means};
ghost use Rattle.calendar.specs.Numbered.{number_of};
ghost use Rattle.interest.specs.Interest.{interest_said};
ghost use Rattle.interest.specs.Accrual.{front_rows, Accrues, accrued_to};

use amount::{Amount, check_one, within};
use calendar::{Basis, Date, days_between};
use currency::Currency;
use refusal::{Refusal, check_rate};
use rounding::{Rule, round_product};
use whole::{is_negative, magnitude, signed};

// A whole in basis points, which is also the largest rate.
const POINTS: u32 = 10_000;

// Two lines that tax has too, with another limit; one function for both would stand in neither's crate.
// Rows 2, 3 and 4 at the principal, and row 6 at the rate.
fn check(scale: u8, m: u64, currency: Currency, rate: u32) -> Result<(), Refusal>
    ensures { result ≡ check_of (front_rows scale m currency rate) }
{
    check_one(scale, m, currency)?;
    check_rate(rate, POINTS)
}

// The interest's coefficient, from the principal's sign and magnitude.
fn accrued(rule: Rule, negative: bool, m: u64, rate: u32, basis: Basis, days: u32) -> i64
    requires { Accrues m rate days }
    ensures { result ≡ accrued_to rule negative m rate (number_of basis) days }
{
    let factor = u64::from(rate) * u64::from(days);
    let whole = u64::from(POINTS * basis.year());
    let rounded = round_product(rule, negative, m, factor, whole);
    signed(negative, rounded)
}

// The interest on the principal from the start to the end, or the refusal 1, 2, 3, 4, 6, 7, 8 or 13. The basis and the mode are numbers, as the C
// interface hands them on.
pub fn interest(
    principal: Amount,
    rate: u32,
    basis: u8,
    start: Date,
    end: Date,
    mode: u8,
) -> Result<Amount, Refusal>
    ensures { means result ≡ interest_said principal rate basis start end mode }
{
    let rule = Rule::try_from(mode)?;
    let negative = is_negative(principal.coefficient);
    let m = magnitude(principal.coefficient);
    check(principal.scale, m, principal.currency, rate)?;
    let basis = Basis::try_from(basis)?;
    let days = days_between(basis, start, end)?;
    within(Amount {
        coefficient: accrued(rule, negative, m, rate, basis, days),
        ..principal
    })
}
