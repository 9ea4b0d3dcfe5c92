// What was written into a lent buffer, flattened.
ghost use Rattle.std.specs.Prelude.{◌≡◌};
ghost use Rattle.refusal.specs.Rows.{means};
ghost use Rattle.flat.specs.Answers.{written_of};

use crate::MkbWritten;
use refusal::{Refusal, blamed_in, number_in};

impl From<Result<usize, Refusal>> for MkbWritten {
    ghost from_gives = { λ answer flat. flat ≡ written_of (means answer) };

    fn from(answer: Result<usize, Refusal>) -> MkbWritten {
        MkbWritten {
            refusal: number_in(&answer),
            blamed: blamed_in(&answer),
            length: answer.unwrap_or(0) as u64,
        }
    }
}
