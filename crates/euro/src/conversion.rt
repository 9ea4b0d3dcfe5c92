// The two euro steps on magnitudes, each rounded HALF_UP, and the conversion over them.
ghost use Rattle.std.specs.Prelude.{◌≡◌, ◌+◌, ◌^◌, ◌≤◌, Bool, Ok};
ghost use Rattle.refusal.specs.Rows.{check_of, means};
ghost use Rattle.whole.specs.Whole.{magnitude_of, signed_of};
ghost use Rattle.rounding.specs.Product.{capped};
ghost use Rattle.amount.specs.Amounts.{largest};
ghost use Rattle.currency.specs.Table.{last_currency, line_of};
ghost use Rattle.euro.specs.Steps.{most_decimals};
ghost use Rattle.euro.specs.Conversion.{convert_rows, settled, exchanged, converted, convert_by_said, convert_said};
ghost use Rattle.euro.specs.Through.{rate_at, decimals_of, into_euro, out_of_euro};

use amount::{Amount, within};
use currency::{Currency, line_of, not_own_digits, power_of_ten};
use refusal::Refusal;
use rounding::round_half_up;
use whole::{is_negative, magnitude, signed};

// The euro's currency number: a currency is compared by its number, since `Currency` has no `==`.
const EURO: u8 = 0;
// The decimals of a euro amount.
const CENTS: u8 = 2;
// The decimals of the euro step between two old units: document 01's, which is the fewest that may be chosen, and the most.
const STEP: u8 = 3;

const MOST_DECIMALS: u8 = 6;

// A currency's rate: so many of its smallest parts are worth so many parts of a euro, which are of the decimals that are asked for.
#[derive(Clone, Copy)]
struct Rate {
    unit: u64,
    parts: u64,
}

// The rate of a currency against euro numbers of so many decimals. An old unit is divided by it, and a euro number multiplied.
fn rate_of(currency: Currency, decimals: u8) -> Rate
    requires { (currency.0 ≤ last_currency) × (decimals ≤ most_decimals) }
    ensures { result ≡ rate_at (line_of currency) decimals }
{
    let line = line_of(currency);
    Rate {
        unit: line.figures * power_of_ten(line.digits),
        parts: power_of_ten(line.places + decimals),
    }
}

// The amount of a magnitude in a currency, at its own digits; refusal 13 where it is over L.
fn settle(to: Currency, negative: bool, m: u64) -> Result<Amount, Refusal>
    requires { m ≤ 10 ^ 18 + 1 }
    ensures { means result ≡ settled to (signed_of negative m) }
{
    let line = line_of(to);
    within(Amount {
        currency: to,
        scale: line.digits,
        coefficient: signed(negative, m),
    })
}

// The decimals of the number in euro: a euro amount has cents, and between two old units they are chosen.
fn step_decimals(decimals: u8, from: Currency, to: Currency) -> u8
    ensures { result ≡ decimals_of decimals from to }
{
    if from.0 == EURO {
        return CENTS;
    }
    if to.0 == EURO { CENTS } else { decimals }
}

// The magnitude of the number in euro, of a euro amount the amount's own; as the leaf gives it, one more than 10^18 where it is over that.
fn into_euro(decimals: u8, from: Currency, m: u64) -> u64
    requires { (from.0 ≤ last_currency) × (decimals ≤ most_decimals) × (m ≤ largest) }
    ensures { (negative : Bool) → result ≡ capped (magnitude_of (into_euro decimals from (signed_of negative m))) }
{
    if from.0 == EURO {
        return m;
    }
    let rate = rate_of(from, decimals);
    round_half_up(m, rate.parts, rate.unit)
}

// And out of it, as the leaf gives it.
fn out_of_euro(decimals: u8, to: Currency, m: u64) -> u64
    requires { (to.0 ≤ last_currency) × (decimals ≤ most_decimals) × (m ≤ largest) }
    ensures { (negative : Bool) → result ≡ capped (magnitude_of (out_of_euro decimals to (signed_of negative m))) }
{
    if to.0 == EURO {
        return m;
    }
    let rate = rate_of(to, decimals);
    round_half_up(m, rate.unit, rate.parts)
}

// Between two currencies that differ: into euro and out of it; refusal 13 where the number in euro or the result is over L.
fn exchange(
    decimals: u8,
    from: Currency,
    to: Currency,
    negative: bool,
    m: u64,
) -> Result<Amount, Refusal>
    requires { (decimals ≤ most_decimals) × (from.0 ≤ last_currency) × (to.0 ≤ last_currency) × (m ≤ largest) × (from.0 ≡ to.0 → ⊥) }
    ensures { means result ≡ exchanged decimals from to (signed_of negative m) }
{
    let places = step_decimals(decimals, from, to);
    let step = into_euro(places, from, m);
    if Amount::L < step {
        return Err(Refusal::Limit);
    }
    settle(to, negative, out_of_euro(places, to, step))
}

#[tactic(auto, unfolding(crate::specs::Conversion::convert_rows))]
fn check(decimals: u8, scale: u8, m: u64, from: Currency, to: Currency) -> Result<(), Refusal>
    ensures { result ≡ check_of (convert_rows decimals scale m from to) }
{
    if Amount::SCALE < scale {
        return Err(Refusal::Scale);
    }
    if not_own_digits(from, scale) {
        return Err(Refusal::Scale);
    }
    if decimals < STEP {
        return Err(Refusal::Scale);
    }
    if MOST_DECIMALS < decimals {
        return Err(Refusal::Scale);
    }
    if Amount::L < m {
        return Err(Refusal::Magnitude);
    }
    if Currency::LAST < from.0 {
        return Err(Refusal::Unknown);
    }
    if Currency::LAST < to.0 {
        return Err(Refusal::Unknown);
    }
    Ok(())
}

// What passed the check: the amount itself within one currency, else the exchanged amount.
fn accepted(
    decimals: u8,
    from: Currency,
    scale: u8,
    coefficient: i64,
    to: Currency,
) -> Result<Amount, Refusal>
    requires { check_of (convert_rows decimals scale (magnitude_of coefficient) from to) ≡ Ok tt }
    ensures { means result ≡ converted decimals (record { currency = from; scale = scale; coefficient = coefficient }) to }
{
    if from.0 == to.0 {
        return Ok(Amount {
            currency: from,
            scale,
            coefficient,
        });
    }
    exchange(
        decimals,
        from,
        to,
        is_negative(coefficient),
        magnitude(coefficient),
    )
}

// The conversion of an amount that is handed on number by number, so that none of it is written to memory and read back.
fn by_step(
    decimals: u8,
    from: Currency,
    scale: u8,
    coefficient: i64,
    to: Currency,
) -> Result<Amount, Refusal>
    ensures { means result ≡ convert_by_said (record { currency = from; scale = scale; coefficient = coefficient }) to decimals }
{
    check(decimals, scale, magnitude(coefficient), from, to)?;
    accepted(decimals, from, scale, coefficient, to)
}

// The amount in the currency `to`, by a euro step of so many decimals, or the refusal 2, 3, 4 or 13.
pub fn convert_by(amount: Amount, to: Currency, decimals: u8) -> Result<Amount, Refusal>
    ensures { means result ≡ convert_by_said amount to decimals }
{
    let from = amount.currency;
    by_step(decimals, from, amount.scale, amount.coefficient, to)
}

// The amount in the currency `to`, by document 01's step of 3 decimals, or the refusal 2, 3, 4 or 13.
pub fn convert(amount: Amount, to: Currency) -> Result<Amount, Refusal>
    ensures { means result ≡ convert_said amount to }
{
    let from = amount.currency;
    by_step(STEP, from, amount.scale, amount.coefficient, to)
}
