// The table of currencies: read through a `match`, so that it becomes read-only data.
ghost use Rattle.std.specs.Prelude.{◌≡◌};
ghost use Rattle.currency.specs.Table.{line_of};
ghost use Rattle.currency.specs.Tens.{power_of_ten};

use crate::{Currency, Line};

// The line of a currency number; a number that the table doesn't have reads 0.
#[tactic(auto, unfolding(crate::specs::Table::line_of))]
pub fn line_of(currency: Currency) -> Line
    ensures { result ≡ line_of currency }
{
    let number = currency.0;
    match number {
        0 => Line {
            code: [b'E', b'U', b'R'],
            figures: 100_000,
            places: 5,
            digits: 2,
        },
        1 => Line {
            code: [b'B', b'E', b'F'],
            figures: 403_399,
            places: 4,
            digits: 0,
        },
        2 => Line {
            code: [b'D', b'E', b'M'],
            figures: 195_583,
            places: 5,
            digits: 2,
        },
        3 => Line {
            code: [b'E', b'S', b'P'],
            figures: 166_386,
            places: 3,
            digits: 0,
        },
        4 => Line {
            code: [b'F', b'R', b'F'],
            figures: 655_957,
            places: 5,
            digits: 2,
        },
        5 => Line {
            code: [b'I', b'E', b'P'],
            figures: 787_564,
            places: 6,
            digits: 2,
        },
        6 => Line {
            code: [b'I', b'T', b'L'],
            figures: 193_627,
            places: 2,
            digits: 0,
        },
        7 => Line {
            code: [b'L', b'U', b'F'],
            figures: 403_399,
            places: 4,
            digits: 0,
        },
        8 => Line {
            code: [b'N', b'L', b'G'],
            figures: 220_371,
            places: 5,
            digits: 2,
        },
        9 => Line {
            code: [b'A', b'T', b'S'],
            figures: 137_603,
            places: 4,
            digits: 2,
        },
        10 => Line {
            code: [b'P', b'T', b'E'],
            figures: 200_482,
            places: 3,
            digits: 0,
        },
        11 => Line {
            code: [b'F', b'I', b'M'],
            figures: 594_573,
            places: 5,
            digits: 2,
        },
        12 => Line {
            code: [b'G', b'R', b'D'],
            figures: 340_750,
            places: 3,
            digits: 0,
        },
        13 => Line {
            code: [b'S', b'I', b'T'],
            figures: 239_640,
            places: 3,
            digits: 2,
        },
        14 => Line {
            code: [b'C', b'Y', b'P'],
            figures: 585_274,
            places: 6,
            digits: 2,
        },
        15 => Line {
            code: [b'M', b'T', b'L'],
            figures: 429_300,
            places: 6,
            digits: 2,
        },
        16 => Line {
            code: [b'S', b'K', b'K'],
            figures: 301_260,
            places: 4,
            digits: 2,
        },
        17 => Line {
            code: [b'E', b'E', b'K'],
            figures: 156_466,
            places: 4,
            digits: 2,
        },
        18 => Line {
            code: [b'L', b'V', b'L'],
            figures: 702_804,
            places: 6,
            digits: 2,
        },
        19 => Line {
            code: [b'L', b'T', b'L'],
            figures: 345_280,
            places: 5,
            digits: 2,
        },
        20 => Line {
            code: [b'H', b'R', b'K'],
            figures: 753_450,
            places: 5,
            digits: 2,
        },
        _ => Line {
            code: [0, 0, 0],
            figures: 0,
            places: 0,
            digits: 0,
        },
    }
}

// 10^k for k up to 12, and 0 past it.
#[tactic(auto, unfolding(crate::specs::Tens::power_of_ten))]
pub fn power_of_ten(k: u8) -> u64
    ensures { result ≡ power_of_ten k }
{
    match k {
        0 => 1,
        1 => 10,
        2 => 100,
        3 => 1_000,
        4 => 10_000,
        5 => 100_000,
        6 => 1_000_000,
        7 => 10_000_000,
        8 => 100_000_000,
        9 => 1_000_000_000,
        10 => 10_000_000_000,
        11 => 100_000_000_000,
        12 => 1_000_000_000_000,
        _ => 0,
    }
}
