// What every call that takes or makes an amount checks.
ghost use Rattle.std.specs.Prelude.{◌≡◌};
ghost use Rattle.refusal.specs.Rows.{check_of, means};
ghost use Rattle.amount.specs.Amounts.{amount_rows, limited};

use crate::Amount;
use currency::Currency;
use refusal::Refusal;
use whole::magnitude;

// Rows 2, 3 and 4 at an amount: its scale, its coefficient's magnitude and its currency number.
pub fn check_one(scale: u8, m: u64, currency: Currency) -> Result<(), Refusal>
    ensures { result ≡ check_of (amount_rows scale m currency) }
{
    if Amount::SCALE < scale {
        return Err(Refusal::Scale);
    }
    if Amount::L < m {
        return Err(Refusal::Magnitude);
    }
    if Currency::LAST < currency.0 {
        return Err(Refusal::Unknown);
    }
    Ok(())
}

// The amount, or refusal 13 where its coefficient is over L.
pub fn within(amount: Amount) -> Result<Amount, Refusal>
    ensures { means result ≡ limited amount.coefficient amount }
{
    if Amount::L < magnitude(amount.coefficient) {
        Err(Refusal::Limit)
    } else {
        Ok(amount)
    }
}
