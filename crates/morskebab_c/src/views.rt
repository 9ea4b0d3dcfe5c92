// The walk of a statement's records: where it begins, and what stands at a place. What each answers is said at the function of its name.
ghost use Rattle.std.specs.Prelude.{◌≡◌};
ghost use Rattle.statement.specs.declared.Version.TheVariants.{Plain};
ghost use Rattle.statement.specs.Walking.{step_at, place_after};
ghost use Rattle.view.specs.Opening.{open_said};
ghost use Rattle.flat.specs.Given.{passed64};
ghost use Rattle.flat.specs.Views.{first_of, step_of};

use flat::{MkbFirst, MkbStep};

#[unsafe(no_mangle)]
pub extern "C" fn mkb_first_payout(bytes: &[u8]) -> MkbFirst
    ensures { result ≡ first_of (open_said bytes.now) }
{
    morskebab::mkb_first_payout(bytes)
}

#[unsafe(no_mangle)]
pub extern "C" fn mkb_payout_at(bytes: &[u8], at: i64) -> MkbStep
    ensures { result ≡ step_of (step_at bytes.now (passed64 at)) (place_after Plain bytes.now (passed64 at)) }
{
    morskebab::mkb_payout_at(bytes, at)
}
