// A line of the table of currencies, field for field.
ghost use Rattle.std.specs.Prelude.{◌≡◌};
ghost use Rattle.flat.specs.Answers.{line_flat};

use crate::MkbLine;
use currency::Line;

impl From<Line> for MkbLine {
    ghost from_gives = { λ line flat. flat ≡ line_flat line };

    fn from(line: Line) -> MkbLine {
        let code = line.code;
        MkbLine {
            code,
            places: line.places,
            digits: line.digits,
            figures: line.figures,
        }
    }
}
