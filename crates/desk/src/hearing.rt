// A line's numbers, by its words.
use crate::answers::Fault;
use console::{Verb, form_of, takes};
use intake::{nth, read_numbers};
use lines::Number;
use spoken::read_words;

// How many numbers a verb's words are, and whether the first is a currency that was given by its code.
#[derive(Clone, Copy)]
pub struct Heard {
    pub count: usize,
    pub coded: bool,
}

// Whether a verb takes so many numbers; what stands in the list behind them is no number of the line.
fn check_count(verb: Verb, count: usize, numbers: &[Number]) -> Result<(), Fault> {
    if takes(verb, count, nth(given(numbers, count), 3).as_u8()) {
        Ok(())
    } else {
        Err(Fault::Unknown)
    }
}

// A verb's words that are not numbers alone.
fn hear_words(
    verb: Verb,
    line: &[u8],
    from: usize,
    numbers: &mut [Number],
) -> Result<Heard, Fault> {
    let spoken = read_words(line, from, form_of(verb), numbers);
    let count = spoken.given.ok_or(Fault::Unknown)?;
    check_count(verb, count, numbers)?;
    match spoken.refused {
        Some(number) => Err(Fault::Text(number)),
        None => Ok(Heard {
            count,
            coded: spoken.coded,
        }),
    }
}

// The numbers of a verb's words from a place on to the front of a list: by its words only where they are not numbers alone, which takes longer and
// answers numbers the same.
pub(crate) fn hear(
    verb: Verb,
    line: &[u8],
    from: usize,
    numbers: &mut [Number],
) -> Result<Heard, Fault> {
    let Some(count) = read_numbers(line, from, numbers) else {
        return hear_words(verb, line, from, numbers);
    };
    check_count(verb, count, numbers)?;
    Ok(Heard {
        count,
        coded: false,
    })
}

// The numbers that were heard; all that are kept, where there were more.
pub(crate) fn given(numbers: &[Number], count: usize) -> &[Number] {
    numbers.get(..count).unwrap_or(numbers)
}

pub(crate) fn u64_at(numbers: &[Number], place: usize) -> u64 {
    nth(numbers, place).as_u64()
}
