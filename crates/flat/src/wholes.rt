// A plain quotient, flattened.
ghost use Rattle.std.specs.Prelude.{◌≡◌};
ghost use Rattle.refusal.specs.Rows.{means};
ghost use Rattle.flat.specs.Answers.{whole_of};

use crate::MkbWhole;
use refusal::{Refusal, blamed_in, number_in};

impl From<Result<i64, Refusal>> for MkbWhole {
    ghost from_gives = { λ answer flat. flat ≡ whole_of (means answer) };

    fn from(answer: Result<i64, Refusal>) -> MkbWhole {
        MkbWhole {
            refusal: number_in(&answer),
            blamed: blamed_in(&answer),
            value: answer.unwrap_or(0),
        }
    }
}
