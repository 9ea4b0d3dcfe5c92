// The next line: it ends at a newline, or at the end of the input.
ghost use Rattle.std.specs.Prelude.{◌≡◌, ◌≤◌, length};
ghost use Rattle.intake.specs.Cuts.{stop_of, line_of, last_of, unended_of, cut_from, standing_of, cut_of};
ghost use Rattle.intake.specs.Bounds.{Within};

use crate::{Cut, Found, Intake, LONGEST};
use lines::line_end;

const RETURN: u8 = b'\r';

// Where a line stops that ends at a place: before the one carriage return that may stand there.
#[tactic(auto, unfolding(crate::specs::Cuts::stop_of))]
fn stop_of(text: &[u8], from: usize, end: usize) -> usize
    requires { end ≤ length text.now }
    ensures { result ≡ stop_of text.now from end }
{
    if from < end && text[end - 1] == RETURN {
        return end - 1;
    }
    end
}

// The line that ends at a place, with the next one from another on.
#[tactic(auto, using(crate::proofs::Stops::stop_within), unfolding(crate::specs::Cuts::line_of))]
fn line_of(text: &[u8], at: Intake, end: usize, next: usize, unended: bool) -> Cut
    requires { (at.from ≤ end) × (end ≤ length text.now) }
    ensures { result ≡ line_of text.now at end next unended }
{
    let stop = stop_of(text, at.from, end);
    let long = at.skipping || LONGEST < stop - at.from;
    Cut {
        found: if long { Found::Long } else { Found::Line },
        start: at.from,
        end: if long { end } else { stop },
        unended,
        next: Intake {
            from: next,
            skipping: false,
            ended: at.ended,
        },
    }
}

// The input's last line, which has no newline; or nothing, where there is no line.
#[tactic(auto, unfolding(crate::specs::Cuts::last_of))]
fn last_of(text: &[u8], at: Intake) -> Cut
    requires { at.from ≤ length text.now }
    ensures { result ≡ last_of text.now at }
{
    let end = text.len();
    if at.skipping || at.from < end {
        return line_of(text, at, end, end, true);
    }
    Cut {
        found: Found::Nothing,
        start: end,
        end,
        unended: false,
        next: at,
    }
}

// A line without an end so far: its bytes are kept, or dropped where they are already too many, with a carriage return at their end.
#[tactic(auto, unfolding(crate::specs::Cuts::unended_of))]
fn unended_of(at: Intake, end: usize) -> Cut
    requires { at.from ≤ end }
    ensures { result ≡ unended_of at end }
{
    let dropped = Intake {
        from: end,
        skipping: true,
        ended: at.ended,
    };
    let too_many = at.skipping || LONGEST + 1 < end - at.from;
    Cut {
        found: Found::More,
        start: at.from,
        end,
        unended: false,
        next: if too_many { dropped } else { at },
    }
}

#[tactic(auto, using(lines::proofs::FirstWord::line_from), unfolding(crate::specs::Cuts::cut_from))]
fn cut(text: &[u8], at: Intake) -> Cut
    requires { at.from ≤ length text.now }
    ensures { result ≡ cut_from text.now at }
{
    let end = line_end(text, at.from);
    if end < text.len() {
        return line_of(text, at, end, end + 1, false);
    }
    if at.ended {
        return last_of(text, at);
    }
    unended_of(at, text.len())
}

// Where reading stands: at the end of the bytes where the place is beyond them.
#[tactic(auto, unfolding(crate::specs::Cuts::standing_of))]
fn standing_of(text: &[u8], at: Intake) -> Intake
    ensures { result ≡ standing_of text.now at }
{
    Intake {
        from: at.from.min(text.len()),
        ..at
    }
}

// What the bytes held begin with from where reading stands.
pub fn next_line(text: &[u8], at: Intake) -> Cut
    ensures said { result ≡ cut_of text.now at }
    ensures within { Within (length text.now) result }
{
    cut(text, standing_of(text, at))
}
