// The three bytes at the very beginning of the input that are no part of its first line.
ghost use Rattle.std.specs.Prelude.{◌≡◌};
ghost use Rattle.intake.specs.Marks.{mark_of};

use crate::Mark;

const FIRST: u8 = 239;

const SECOND: u8 = 187;

const THIRD: u8 = 191;

// What the first bytes of the input are.
#[tactic(auto, unfolding(crate::specs::Marks::begins_with))]
pub fn mark_of(bytes: &[u8]) -> Mark
    ensures { result ≡ mark_of bytes.now }
{
    match bytes {
        [] | [FIRST] | [FIRST, SECOND] => Mark::Part,
        [FIRST, SECOND, THIRD, ..] => Mark::Whole,
        _ => Mark::Nothing,
    }
}
