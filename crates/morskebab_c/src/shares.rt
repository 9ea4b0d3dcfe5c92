// One-off sharing, and vouchers. What each answers is said at the function of its name.
ghost use Rattle.std.specs.Prelude.{◌≡◌, length};
ghost use Rattle.weights.specs.Lent.{out_after};
ghost use Rattle.sharing.specs.Shared.{shared_said};
ghost use Rattle.vouchers.specs.Said.{vouchers_said};
ghost use Rattle.flat.specs.Given.{amount_from, passed32};
ghost use Rattle.flat.specs.Answers.{refusal_of};

use flat::MkbAmount;

#[unsafe(no_mangle)]
pub extern "C" fn mkb_share(a: MkbAmount, weights: &[u32], out: &mut [i64]) -> u8
    ensures said { result ≡ refusal_of (shared_said (amount_from a) weights.now (length out.old)) }
    ensures places { out.new ≡ out_after (shared_said (amount_from a) weights.now (length out.old)) out.old }
{
    morskebab::mkb_share(a, weights, out)
}

#[unsafe(no_mangle)]
pub extern "C" fn mkb_vouchers(count: i64, weights: &[u32], out: &mut [u32]) -> u8
    ensures said { result ≡ refusal_of (vouchers_said (passed32 count) weights.now (length out.old)) }
    ensures places { out.new ≡ out_after (vouchers_said (passed32 count) weights.now (length out.old)) out.old }
{
    morskebab::mkb_vouchers(count, weights, out)
}
