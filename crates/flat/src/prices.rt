// A price taken apart, flattened.
ghost use Rattle.std.specs.Prelude.{◌≡◌};
ghost use Rattle.refusal.specs.Rows.{means};
ghost use Rattle.flat.specs.Answers.{split_of};

use crate::{MkbAmount, MkbSplit};
use refusal::Refusal;
use tax::Split;

impl From<Result<Split, Refusal>> for MkbSplit {
    ghost from_gives = { λ answer flat. flat ≡ split_of (means answer) };

    fn from(answer: Result<Split, Refusal>) -> MkbSplit {
        match answer {
            Ok(split) => MkbSplit {
                refusal: 0,
                blamed: 0,
                net: split.net.into(),
                tax: split.tax.into(),
                gross: split.gross.into(),
            },
            Err(refusal) => MkbSplit {
                refusal: refusal.number(),
                blamed: refusal.blamed(),
                net: MkbAmount::NONE,
                tax: MkbAmount::NONE,
                gross: MkbAmount::NONE,
            },
        }
    }
}
