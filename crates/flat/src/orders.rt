// An order, flattened: -1, 0 or 1.
ghost use Rattle.std.specs.Prelude.{◌≡◌};
ghost use Rattle.refusal.specs.Rows.{means};
ghost use Rattle.flat.specs.Answers.{sign_of, order_of};

use crate::MkbOrderAnswer;
use refusal::{Refusal, blamed_in, number_in};
use std::cmp::Ordering;

fn sign_of(order: Ordering) -> i8
    ensures { result ≡ sign_of order }
{
    match order {
        Ordering::Less => -1,
        Ordering::Equal => 0,
        Ordering::Greater => 1,
    }
}

impl From<Result<Ordering, Refusal>> for MkbOrderAnswer {
    ghost from_gives = { λ answer flat. flat ≡ order_of (means answer) };

    fn from(answer: Result<Ordering, Refusal>) -> MkbOrderAnswer {
        MkbOrderAnswer {
            refusal: number_in(&answer),
            blamed: blamed_in(&answer),
            order: answer.map_or(0, sign_of),
        }
    }
}
