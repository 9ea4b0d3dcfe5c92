// Where a view of a statement begins, and what it hands out at a place, flattened.
ghost use Rattle.std.specs.Prelude.{◌≡◌};
ghost use Rattle.refusal.specs.Rows.{means};
ghost use Rattle.flat.specs.Views.{first_of, step_of};

use crate::{MkbFirst, MkbStep};
use refusal::{Refusal, blamed_in, number_in};
use statement::Payout;

impl From<Result<usize, Refusal>> for MkbFirst {
    ghost from_gives = { λ answer flat. flat ≡ first_of (means answer) };

    fn from(answer: Result<usize, Refusal>) -> MkbFirst {
        MkbFirst {
            refusal: number_in(&answer),
            blamed: blamed_in(&answer),
            first: answer.unwrap_or(0) as u64,
        }
    }
}

// The record at a place, or none where the view has ended, and the place of what comes next.
pub fn flat_step(step: Option<Payout>, next: usize) -> MkbStep
    ensures { result ≡ step_of step next }
{
    match step {
        Some(payout) => MkbStep {
            next: next as u64,
            ended: false,
            place: payout.place,
            currency: payout.currency,
            coefficient: payout.coefficient,
        },
        None => MkbStep {
            next: next as u64,
            ended: true,
            place: 0,
            currency: 0,
            coefficient: 0,
        },
    }
}
