// The text of any number of units at a place of a buffer, for the programs: a sum may be over the largest amount's.
ghost use Rattle.std.specs.Prelude.{◌≡◌};
ghost use Rattle.lines.specs.Texts.{put_at, place_behind};
ghost use Rattle.text.specs.Putting.{units_text};

use crate::writing::{length_of, put};
use amount::Amount;

// The text of a magnitude at a scale from a place on, where there is room, and the place behind it; else nothing, and the same place. A scale that no
// amount has leaves nothing.
pub fn put_text(out: &mut [u8], at: usize, negative: bool, m: u64, scale: u8) -> usize
    ensures out_after { out.new ≡ put_at out.old at (units_text negative m scale) }
    ensures value { result ≡ place_behind out.old at (units_text negative m scale) }
{
    if Amount::SCALE < scale {
        return at;
    }
    let length = length_of(negative, m, scale);
    if out.len() < at {
        return at;
    }
    if out.len() - at < length {
        return at;
    }
    put(&mut out[at..], negative, m, scale);
    at + length
}
