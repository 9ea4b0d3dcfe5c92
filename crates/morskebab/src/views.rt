// The walk of a statement's records: where it begins, and what stands at a place.
ghost use Rattle.std.specs.Prelude.{◌≡◌};
ghost use Rattle.statement.specs.declared.Version.TheVariants.{Plain};
ghost use Rattle.statement.specs.Walking.{step_at, place_after};
ghost use Rattle.view.specs.Opening.{open_said};
ghost use Rattle.flat.specs.Given.{passed64};
ghost use Rattle.flat.specs.Views.{first_of, step_of};

use flat::{MkbFirst, MkbStep, flat_step, pass_u64};
use statement::place_after;
use view::{open_at, read_at};

// Where a view of the statement file that the bytes end in begins, or refusal 17 or 14.
pub fn mkb_first_payout(bytes: &[u8]) -> MkbFirst
    ensures { result ≡ first_of (open_said bytes.now) }
{
    open_at(bytes).into()
}

// The record at a place, or that the view has ended, and the place of what comes next: behind the record, or the same where it has ended.
pub fn mkb_payout_at(bytes: &[u8], at: i64) -> MkbStep
    ensures { result ≡ step_of (step_at bytes.now (passed64 at)) (place_after Plain bytes.now (passed64 at)) }
{
    let place = pass_u64(at) as usize;
    let next = place_after(bytes, place);
    flat_step(read_at(bytes, place), next)
}
