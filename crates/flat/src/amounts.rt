// An amount as C lays it out, flattened and taken back.
ghost use Rattle.std.specs.Prelude.{◌≡◌};
ghost use Rattle.refusal.specs.Rows.{means};
ghost use Rattle.flat.specs.Answers.{amount_of, amount_answer_of};

use crate::{MkbAmount, MkbAmountAnswer};
use amount::Amount;
use refusal::{Refusal, blamed_in, number_in};

impl MkbAmount {
    // The amount whose every field is 0.
    pub const NONE: MkbAmount = MkbAmount {
        currency: 0,
        scale: 0,
        coefficient: 0,
    };
}

impl From<Amount> for MkbAmount {
    ghost from_gives = { λ amount flat. flat ≡ amount_of amount };

    fn from(amount: Amount) -> MkbAmount {
        MkbAmount {
            currency: i32::from(amount.currency.0),
            scale: i32::from(amount.scale),
            coefficient: amount.coefficient,
        }
    }
}

impl From<Result<Amount, Refusal>> for MkbAmountAnswer {
    ghost from_gives = { λ answer flat. flat ≡ amount_answer_of (means answer) };

    fn from(answer: Result<Amount, Refusal>) -> MkbAmountAnswer {
        MkbAmountAnswer {
            refusal: number_in(&answer),
            blamed: blamed_in(&answer),
            amount: answer.map_or(MkbAmount::NONE, MkbAmount::from),
        }
    }
}
