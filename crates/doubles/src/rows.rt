// A row of doubles as two amounts.
ghost use Rattle.std.specs.Prelude.{◌≡◌, ◌≤◌};
ghost use Rattle.std.specs.Float.{binary64};
ghost use Rattle.std.specs.Float.Ieee.{of_bits};
ghost use Rattle.refusal.specs.Rows.{check_of, means};
ghost use Rattle.doubles.specs.Doubles.{last_scale, given_rows, column_rows, made_said, taken_said};

use crate::column::{Column, read};
use crate::patterns::bits_of;
use crate::{Amounts, Row};
use amount::Amount;
use currency::Currency;
use refusal::Refusal;
use rounding::Rule;

// The largest scale of a row and of an export.
pub(crate) const SCALE: u8 = 3;

// Rows 2 and 4 at what the call takes.
#[tactic(auto, unfolding(crate::specs::Doubles::given_rows))]
fn check_given(scale: u8, currency: Currency) -> Result<(), Refusal>
    ensures { result ≡ check_of (given_rows scale currency) }
{
    if SCALE < scale {
        return Err(Refusal::Scale);
    }
    if Currency::LAST < currency.0 {
        return Err(Refusal::Unknown);
    }
    Ok(())
}

// Rows 13 and 16 at the two columns: their magnitudes, and whether they are no number.
#[tactic(auto, unfolding(crate::specs::Doubles::column_rows))]
fn check_columns(net: Column, tax: Column) -> Result<(), Refusal>
    ensures { result ≡ check_of (column_rows net.m tax.m net.numberless tax.numberless) }
{
    if Amount::L < net.m {
        return Err(Refusal::Limit);
    }
    if Amount::L < tax.m {
        return Err(Refusal::Limit);
    }
    if net.numberless {
        return Err(Refusal::NoNumber);
    }
    if tax.numberless {
        return Err(Refusal::NoNumber);
    }
    Ok(())
}

// Both columns as amounts by a rule, or the refusal 13 or 16.
fn made(rule: Rule, net: u64, tax: u64, currency: Currency, scale: u8) -> Result<Amounts, Refusal>
    requires { scale ≤ last_scale }
    ensures { means result ≡ made_said rule currency scale (of_bits binary64 net) (of_bits binary64 tax) }
{
    let net = read(rule, net, scale);
    let tax = read(rule, tax, scale);
    check_columns(net, tax)?;
    Ok(Amounts {
        net: net.amount(currency, scale),
        tax: tax.amount(currency, scale),
    })
}

// Both columns as amounts of the currency at the scale, by the mode, which is a number, as the C interface hands it on; or the refusal 1, 2, 4, 13
// or 16.
pub fn take_row(given: Row, currency: Currency, scale: u8, mode: u8) -> Result<Amounts, Refusal>
    ensures { means result ≡ taken_said given currency scale mode }
{
    let rule = Rule::try_from(mode)?;
    check_given(scale, currency)?;
    made(
        rule,
        bits_of(given.net),
        bits_of(given.tax),
        currency,
        scale,
    )
}
