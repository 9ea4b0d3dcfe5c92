// Net, tax and gross, from the net or from the gross.
ghost use Rattle.std.specs.Prelude.{◌≡◌, ◌≤◌};
ghost use Rattle.refusal.specs.Rows.{check_of, means};
ghost use Rattle.whole.specs.Whole.{signed_of};
ghost use Rattle.amount.specs.Amounts.{largest};
ghost use Rattle.tax.specs.Tax.{tax_rows, like, made, from_net_said, from_gross_said};
ghost use Rattle.tax.specs.NetFor.{NetSaid};
ghost use Rattle.tax.specs.Parts.{Accepts, split_of};

use crate::Split;
use crate::accepted::{Accepted, MILLION};
use amount::{Amount, check_one};
use currency::Currency;
use refusal::{Refusal, check_rate};
use rounding::Rule;
use whole::{is_negative, magnitude, signed};

// Rows 2, 3 and 4 at the amount, and row 6 at the rate.
#[tactic(auto, unfolding(crate::specs::Tax::tax_rows))]
fn check(scale: u8, m: u64, currency: Currency, rate: u32) -> Result<(), Refusal>
    ensures { result ≡ check_of (tax_rows scale m currency rate) }
{
    check_one(scale, m, currency)?;
    check_rate(rate, MILLION as u32)
}

// What the call takes, or the first of the rows 1 to 6 that holds. The mode is a number, as the C interface hands it on.
fn accept(a: Amount, rate: u32, mode: u8) -> Result<Accepted, Refusal>
    ensures { Accepts a rate mode result }
{
    let rule = Rule::try_from(mode)?;
    let m = magnitude(a.coefficient);
    check(a.scale, m, a.currency, rate)?;
    Ok(Accepted {
        rule,
        negative: is_negative(a.coefficient),
        m,
        rate,
    })
}

// An amount with another coefficient, by its sign and its magnitude.
fn with(a: Amount, negative: bool, m: u64) -> Amount
    requires { m ≤ largest }
    ensures { result ≡ like a (signed_of negative m) }
{
    Amount {
        coefficient: signed(negative, m),
        ..a
    }
}

// The price of these magnitudes of net and tax, or refusal 13 where its gross is over L: net and tax are within it.
#[tactic(auto, using(crate::proofs::Value::price_steps), unfolding(crate::specs::Parts::split_of))]
fn split_of(a: Amount, negative: bool, net: u64, tax: u64) -> Result<Split, Refusal>
    requires { (net ≤ largest) × (tax ≤ largest) }
    ensures { means result ≡ made (split_of a negative net tax) }
{
    let gross = net + tax;
    if Amount::L < gross {
        return Err(Refusal::Limit);
    }
    Ok(Split {
        net: with(a, negative, net),
        tax: with(a, negative, tax),
        gross: with(a, negative, gross),
    })
}

// From net: tax = net x rate / 1,000,000 rounded by the mode, gross = net + tax; or the refusal 1, 2, 3, 4, 6 or 13.
pub fn tax_from_net(net: Amount, rate: u32, mode: u8) -> Result<Split, Refusal>
    ensures { means result ≡ from_net_said net rate mode }
{
    let given = accept(net, rate, mode)?;
    let tax = given.tax(given.m, MILLION);
    split_of(net, given.negative, given.m, tax)
}

// From gross: tax = gross x rate / (1,000,000 + rate) rounded by the mode, net = gross - tax; or the refusal 1, 2, 3, 4 or 6.
pub fn tax_from_gross(gross: Amount, rate: u32, mode: u8) -> Result<Split, Refusal>
    ensures { means result ≡ from_gross_said gross rate mode }
{
    let given = accept(gross, rate, mode)?;
    let tax = given.tax(given.m, MILLION + u64::from(given.rate));
    split_of(gross, given.negative, given.m - tax, tax)
}

// The price whose net has exactly this gross; or the refusal 1, 2, 3, 4 or 6, or 15 where no net has it. The tax that comes off the gross leaves the
// only net that can: it does where the tax on it is the same.
pub fn net_for_gross(gross: Amount, rate: u32, mode: u8) -> Result<Split, Refusal>
    ensures { NetSaid gross rate mode (means result) }
{
    let given = accept(gross, rate, mode)?;
    let off = given.tax(given.m, MILLION + u64::from(given.rate));
    let net = given.m - off;
    let on = given.tax(net, MILLION);
    if on == off {
        split_of(gross, given.negative, net, off)
    } else {
        Err(Refusal::NoNet)
    }
}
