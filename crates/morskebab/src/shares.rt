// One-off sharing, and vouchers.
ghost use Rattle.std.specs.Prelude.{◌≡◌, length};
ghost use Rattle.weights.specs.Lent.{out_after};
ghost use Rattle.sharing.specs.Shared.{shared_said};
ghost use Rattle.vouchers.specs.Said.{vouchers_said};
ghost use Rattle.flat.specs.Given.{amount_from, passed32};
ghost use Rattle.flat.specs.Answers.{refusal_of};

use flat::{MkbAmount, pass_u32};
use refusal::number_in;
use sharing::share;
use vouchers::vouchers;

// The shares by largest remainder into the first places of `out`, as many as weights; the others, and every place where the call is
// refused, stay as they stood. The answer is 0 or the refusal 2, 3, 4, 9 or 11.
pub fn mkb_share(a: MkbAmount, weights: &[u32], out: &mut [i64]) -> u8
    ensures said { result ≡ refusal_of (shared_said (amount_from a) weights.now (length out.old)) }
    ensures places { out.new ≡ out_after (shared_said (amount_from a) weights.now (length out.old)) out.old }
{
    let outcome = share(a.into(), weights, out);
    number_in(&outcome)
}

// The vouchers by highest average into the first places of `out`, as many as weights; the others, and every place where the call is refused,
// stay as they stood. The answer is 0 or the refusal 6, 9 or 11.
pub fn mkb_vouchers(count: i64, weights: &[u32], out: &mut [u32]) -> u8
    ensures said { result ≡ refusal_of (vouchers_said (passed32 count) weights.now (length out.old)) }
    ensures places { out.new ≡ out_after (vouchers_said (passed32 count) weights.now (length out.old)) out.old }
{
    let outcome = vouchers(pass_u32(count), weights, out);
    number_in(&outcome)
}
