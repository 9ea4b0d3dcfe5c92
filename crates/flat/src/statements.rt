// A written statement's end, and what a checked one says of itself, flattened.
ghost use Rattle.std.specs.Prelude.{◌≡◌};
ghost use Rattle.refusal.specs.Rows.{means};
ghost use Rattle.flat.specs.Statements.{end_of, statement_of};

use crate::{MkbEnd, MkbStatement};
use refusal::{Refusal, blamed_in, number_in};
use statement::Summary;

impl From<Result<usize, Refusal>> for MkbEnd {
    ghost from_gives = { λ answer flat. flat ≡ end_of (means answer) };

    fn from(answer: Result<usize, Refusal>) -> MkbEnd {
        MkbEnd {
            refusal: number_in(&answer),
            blamed: blamed_in(&answer),
            end: answer.unwrap_or(0) as u64,
        }
    }
}

impl From<Result<Summary, Refusal>> for MkbStatement {
    ghost from_gives = { λ answer flat. flat ≡ statement_of (means answer) };

    fn from(answer: Result<Summary, Refusal>) -> MkbStatement {
        match answer {
            Ok(summary) => MkbStatement {
                refusal: 0,
                blamed: 0,
                first: summary.first as u64,
                count: summary.count as u64,
                sum: summary.sum,
            },
            Err(refusal) => MkbStatement {
                refusal: refusal.number(),
                blamed: refusal.blamed(),
                first: 0,
                count: 0,
                sum: 0,
            },
        }
    }
}
