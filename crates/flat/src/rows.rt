// A row of doubles as C lays it out, and the answers of its two calls flattened.
ghost use Rattle.std.specs.Prelude.{◌≡◌};
ghost use Rattle.refusal.specs.Rows.{means};
ghost use Rattle.flat.specs.Rows.{row_from, row_answer_of, double_of};

use crate::{MkbAmount, MkbColumns, MkbDouble, MkbRowAnswer};
use doubles::{Amounts, Row};
use refusal::{Refusal, blamed_in, number_in};

impl From<MkbColumns> for Row {
    ghost from_gives = { λ given row. row ≡ row_from given };

    fn from(given: MkbColumns) -> Row {
        Row {
            net: given.net,
            tax: given.tax,
        }
    }
}

impl From<Result<Amounts, Refusal>> for MkbRowAnswer {
    ghost from_gives = { λ answer flat. flat ≡ row_answer_of (means answer) };

    fn from(answer: Result<Amounts, Refusal>) -> MkbRowAnswer {
        match answer {
            Ok(amounts) => MkbRowAnswer {
                refusal: 0,
                blamed: 0,
                net: amounts.net.into(),
                tax: amounts.tax.into(),
            },
            Err(refusal) => MkbRowAnswer {
                refusal: refusal.number(),
                blamed: refusal.blamed(),
                net: MkbAmount::NONE,
                tax: MkbAmount::NONE,
            },
        }
    }
}

impl From<Result<f64, Refusal>> for MkbDouble {
    ghost from_gives = { λ answer flat. flat ≡ double_of (means answer) };

    fn from(answer: Result<f64, Refusal>) -> MkbDouble {
        MkbDouble {
            refusal: number_in(&answer),
            blamed: blamed_in(&answer),
            value: answer.unwrap_or(0.0),
        }
    }
}
