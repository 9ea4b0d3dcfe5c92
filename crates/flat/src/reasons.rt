// What a checked statement of either version says of itself, and what a view of it hands out at a place, flattened.
ghost use Rattle.std.specs.Prelude.{◌≡◌};
ghost use Rattle.refusal.specs.Rows.{means};
ghost use Rattle.flat.specs.Reasons.{any_statement_of, any_step_of};

use crate::{MkbAnyStatement, MkbAnyStep};
use refusal::Refusal;
use statement::{Reasoned, SummaryOfAny};

impl From<Result<SummaryOfAny, Refusal>> for MkbAnyStatement {
    ghost from_gives = { λ answer flat. flat ≡ any_statement_of (means answer) };

    fn from(answer: Result<SummaryOfAny, Refusal>) -> MkbAnyStatement {
        match answer {
            Ok(SummaryOfAny { version, summary }) => MkbAnyStatement {
                refusal: 0,
                blamed: 0,
                version,
                first: summary.first as u64,
                count: summary.count as u64,
                sum: summary.sum,
            },
            Err(refusal) => MkbAnyStatement {
                refusal: refusal.number(),
                blamed: refusal.blamed(),
                version: 0,
                first: 0,
                count: 0,
                sum: 0,
            },
        }
    }
}

// The record at a place, or none where the view has ended, and the place of what comes next.
pub fn flat_any_step(step: Option<Reasoned>, next: usize) -> MkbAnyStep
    ensures { result ≡ any_step_of step next }
{
    match step {
        Some(Reasoned { payout, reason }) => MkbAnyStep {
            next: next as u64,
            ended: false,
            place: payout.place,
            currency: payout.currency,
            reason,
            coefficient: payout.coefficient,
        },
        None => MkbAnyStep {
            next: next as u64,
            ended: true,
            place: 0,
            currency: 0,
            reason: 0,
            coefficient: 0,
        },
    }
}
