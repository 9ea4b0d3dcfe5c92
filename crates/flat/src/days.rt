// A day count, flattened.
ghost use Rattle.std.specs.Prelude.{◌≡◌};
ghost use Rattle.refusal.specs.Rows.{means};
ghost use Rattle.flat.specs.Answers.{days_of};

use crate::MkbDays;
use refusal::{Refusal, blamed_in, number_in};

impl From<Result<u32, Refusal>> for MkbDays {
    ghost from_gives = { λ answer flat. flat ≡ days_of (means answer) };

    fn from(answer: Result<u32, Refusal>) -> MkbDays {
        MkbDays {
            refusal: number_in(&answer),
            blamed: blamed_in(&answer),
            days: answer.unwrap_or(0),
        }
    }
}
