// The words of a line, one after another, and their numbers into a list.
ghost use Rattle.std.specs.Prelude.{◌≡◌};
ghost use Rattle.spoken.specs.Reading.{put_numbers, silence, read_of, spoken_of};

use crate::hearing::{add, hear};
use crate::{Form, Heard, Spoken, Step};
use intake::put;
use lines::{Number, word_from};

fn nothing_heard() -> Heard
    ensures { result ≡ silence }
{
    Heard {
        count: 0,
        awaited: None,
        coded: false,
        wrong: false,
        refused: None,
    }
}

// A word's number at a place of the list, or its two from that place on, where the list has them.
fn put_step(step: Step, place: usize, numbers: &mut [Number])
    ensures { numbers.new ≡ put_numbers step place numbers.old }
{
    match step.front {
        None => put(numbers, place, step.last),
        Some(front) => {
            put(numbers, place, front);
            put(numbers, add(place, 1), step.last);
        },
    }
}

#[tactic(auto, unfolding(crate::specs::Reading::spoken_of))]
fn spoken_of(heard: Heard) -> Spoken
    ensures { result ≡ spoken_of heard }
{
    let given = if heard.wrong || heard.awaited.is_some() {
        None
    } else {
        Some(heard.count)
    };
    Spoken {
        given,
        coded: heard.coded,
        refused: heard.refused,
    }
}

// A `while` from word to word: no index is counted.
// The words of a line from a place on, of a form: their numbers stand in the list.
pub fn read_words(line: &[u8], from: usize, form: Form, numbers: &mut [Number]) -> Spoken
    ensures said { result ≡ spoken_of (read_of line.now from form numbers.old).heard }
    ensures numbers { numbers.new ≡ (read_of line.now from form numbers.old).numbers }
{
    let mut at = from;
    let mut heard = nothing_heard();
    while at < line.len() {
        let word = word_from(line, at);
        let end = word.end;
        if end <= word.start {
            return spoken_of(heard);
        }
        let place = heard.count;
        let step = hear(line, word, form, heard);
        put_step(step, place, numbers);
        heard = step.next;
        at = end;
    }
    spoken_of(heard)
}
