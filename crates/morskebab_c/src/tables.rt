// Compound tables. What each answers is said at the function of its name.
ghost use Rattle.std.specs.Prelude.{◌≡◌, length};
ghost use Rattle.whole.specs.Whole.{magnitude_of};
ghost use Rattle.compound.specs.Table.{table_said, list_after};
ghost use Rattle.flat.specs.Given.{amount_from, passed32};
ghost use Rattle.flat.specs.Answers.{refusal_of};

use flat::MkbAmount;

#[unsafe(no_mangle)]
pub extern "C" fn mkb_compound(principal: MkbAmount, rate: i64, periods: i64, out: &mut [i64]) -> u8
    ensures said { result ≡ refusal_of (table_said (amount_from principal) (passed32 rate) (passed32 periods) (length out.old)) }
    ensures places { out.new ≡ list_after (magnitude_of principal.coefficient) (passed32 rate) (table_said (amount_from principal) (passed32 rate) (passed32 periods) (length out.old)) out.old }
{
    morskebab::mkb_compound(principal, rate, periods, out)
}
