// An amount as a double.
ghost use Rattle.std.specs.Prelude.{◌≡◌, ◌≤◌};
ghost use Rattle.refusal.specs.Rows.{check_of, means};
ghost use Rattle.whole.specs.Whole.{magnitude_of};
ghost use Rattle.amount.specs.Amounts.{largest};
ghost use Rattle.doubles.specs.Doubles.{last_scale};
ghost use Rattle.doubles.specs.Export.{export_rows, exported, export_said};

use crate::rows::SCALE;
use amount::Amount;
use currency::{Currency, power_of_ten};
use refusal::Refusal;
use whole::magnitude;

// An amount's own check has another largest scale, 6.
// Rows 2, 3 and 4 at the amount.
#[tactic(auto, unfolding(crate::specs::Export::export_rows))]
fn check(scale: u8, m: u64, currency: Currency) -> Result<(), Refusal>
    ensures { result ≡ check_of (export_rows scale m currency) }
{
    if SCALE < scale {
        return Err(Refusal::Scale);
    }
    if Amount::L < m {
        return Err(Refusal::Magnitude);
    }
    if Currency::LAST < currency.0 {
        return Err(Refusal::Unknown);
    }
    Ok(())
}

// The coefficient as a double, divided once.
fn quotient(coefficient: i64, scale: u8) -> f64
    requires { (magnitude_of coefficient ≤ largest) × (scale ≤ last_scale) }
    ensures { result ≡ exported coefficient scale }
{
    coefficient as f64 / power_of_ten(scale) as f64
}

// The amount's worth as a double: its coefficient divided once by 1, 10, 100 or 1,000; or the refusal 2, 3 or 4.
pub fn export(amount: Amount) -> Result<f64, Refusal>
    ensures { means result ≡ export_said amount }
{
    check(amount.scale, magnitude(amount.coefficient), amount.currency)?;
    Ok(quotient(amount.coefficient, amount.scale))
}
