// Sharing of one amount by largest remainder.
#![tactic(auto)]

ghost use Rattle.std.specs.Prelude.{◌≡◌, ◌++◌, length};
ghost use Rattle.refusal.specs.Rows.{check_of, means_outcome};
ghost use Rattle.amount.specs.Amounts.{amount_rows};
ghost use Rattle.weights.specs.Lent.{out_after};
ghost use Rattle.weights.specs.Weights.{list_rows};
ghost use Rattle.remainder.specs.Rule.{signed_shares};
ghost use Rattle.sharing.specs.Shared.{shared_said};

use amount::{Amount, check_one};
use currency::Currency;
use refusal::Refusal;
use weights::check_weights;
use whole::{is_negative, magnitude};

mod spread;

// The first row of the table that holds for an amount's scale, magnitude and currency, these weights and an output of so many places.
fn check(scale: u8, m: u64, currency: Currency, weights: &[u32], room: usize) -> Result<(), Refusal>
    ensures { result ≡ check_of (amount_rows scale m currency ++ list_rows weights.now room) }
{
    check_one(scale, m, currency)?;
    check_weights(weights, room)
}

// The shares of an amount into the first places of `out`, as many as weights, or the refusal 2, 3, 4, 9 or 11.
pub fn share(amount: Amount, weights: &[u32], out: &mut [i64]) -> Result<(), Refusal>
    ensures said { means_outcome result (signed_shares amount.coefficient weights.now) ≡ shared_said amount weights.now (length out.old) }
    ensures places { out.new ≡ out_after (shared_said amount weights.now (length out.old)) out.old }
{
    let m = magnitude(amount.coefficient);
    check(amount.scale, m, amount.currency, weights, out.len())?;
    spread::spread(is_negative(amount.coefficient), m, weights, out);
    Ok(())
}
