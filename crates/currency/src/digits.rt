// A currency's own digits, which conversions and the book ask for.
ghost use Rattle.std.specs.Prelude.{◌≡◌};
ghost use Rattle.currency.specs.Digits.{not_own_digits};

use crate::Currency;
use crate::table::line_of;

// An amount in a known currency isn't at its own digits.
#[tactic(auto, unfolding(crate::specs::Digits::not_own_digits))]
pub fn not_own_digits(currency: Currency, scale: u8) -> bool
    ensures { result ≡ not_own_digits currency scale }
{
    if Currency::LAST < currency.0 {
        return false;
    }
    let line = line_of(currency);
    scale != line.digits
}
