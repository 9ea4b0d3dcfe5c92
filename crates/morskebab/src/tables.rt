// Compound tables.
ghost use Rattle.std.specs.Prelude.{◌≡◌, length};
ghost use Rattle.whole.specs.Whole.{magnitude_of};
ghost use Rattle.compound.specs.Table.{table_said, list_after};
ghost use Rattle.flat.specs.Given.{amount_from, passed32};
ghost use Rattle.flat.specs.Answers.{refusal_of};

use compound::compound;
use flat::{MkbAmount, pass_u32};
use refusal::number_in;

// The principal and the balance after each period into the first places of `out`, one more than periods; the others, and every place where
// the call is refused, stay as they stood. The answer is 0 or the refusal 2, 3, 4, 6, 10, 11 or 13.
pub fn mkb_compound(principal: MkbAmount, rate: i64, periods: i64, out: &mut [i64]) -> u8
    ensures said { result ≡ refusal_of (table_said (amount_from principal) (passed32 rate) (passed32 periods) (length out.old)) }
    ensures places { out.new ≡ list_after (magnitude_of principal.coefficient) (passed32 rate) (table_said (amount_from principal) (passed32 rate) (passed32 periods) (length out.old)) out.old }
{
    let outcome = compound(principal.into(), pass_u32(rate), pass_u32(periods), out);
    number_in(&outcome)
}
