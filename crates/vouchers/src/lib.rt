// Vouchers over a list of weights by highest average.
#![tactic(auto)]

ghost use Rattle.std.specs.Prelude.{◌≡◌, length};
ghost use Rattle.refusal.specs.Rows.{check_of, means_outcome};
ghost use Rattle.weights.specs.Lent.{out_after};
ghost use Rattle.average.specs.Rule.{vouchers_of};
ghost use Rattle.vouchers.specs.Said.{voucher_rows, vouchers_said};

use refusal::{Refusal, check_rate};
use weights::check_weights;

mod giving;

// The most vouchers that are handed out.
pub const MOST_VOUCHERS: u32 = 10_000;

// The first row of the table that holds for so many vouchers, these weights and an output of so many places.
fn check(count: u32, weights: &[u32], room: usize) -> Result<(), Refusal>
    ensures { result ≡ check_of (voucher_rows count weights.now room) }
{
    check_rate(count, MOST_VOUCHERS)?;
    check_weights(weights, room)
}

// The vouchers of each weight into the first places of `out`, as many as weights, or the refusal 6, 9 or 11.
pub fn vouchers(count: u32, weights: &[u32], out: &mut [u32]) -> Result<(), Refusal>
    ensures said { means_outcome result (vouchers_of count weights.now) ≡ vouchers_said count weights.now (length out.old) }
    ensures places { out.new ≡ out_after (vouchers_said count weights.now (length out.old)) out.old }
{
    check(count, weights, out.len())?;
    let partners = weights.len();
    giving::give_all(count, weights, &mut out[..partners]);
    Ok(())
}
