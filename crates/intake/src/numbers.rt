// The numbers of a line, read once into a list, and passed on in the types that calls take.
ghost use Rattle.std.specs.Prelude.{◌≡◌, ◌≤◌, length, set};
ghost use Rattle.intake.specs.Numbers.{nth, amount_at};
ghost use Rattle.intake.specs.Words.{asks_nothing, next_word, given_of, numbers_of};

use amount::Amount;
use currency::Currency;
use lines::{NOUGHT, Number, Word, read_number, word_from};

// Whether a line is empty or a comment.
#[tactic(auto, unfolding(crate::specs::Words::asks_nothing))]
pub fn asks_nothing(line: &[u8]) -> bool
    ensures { result ≡ asks_nothing line.now }
{
    matches!(line, [] | [b'#', ..])
}

// The first word from a place on, which lies within the line.
#[tactic(auto, using(lines::proofs::FirstWord::start_end, lines::proofs::FirstWord::end_within), unfolding(crate::specs::Words::next_word))]
pub fn next_word(line: &[u8], at: usize) -> Word
    ensures said { result ≡ next_word line.now at }
    ensures within { (result.start ≤ result.end) × (result.end ≤ length line.now) }
{
    word_from(line, at.min(line.len()))
}

// Puts a number at a place of a list, where it has it.
pub fn put(numbers: &mut [Number], place: usize, number: Number)
    ensures { numbers.new ≡ set numbers.old place number }
{
    if place < numbers.len() {
        numbers[place] = number;
    }
}

// A `while` from word to word: no index is counted.
// The words of a line from a place on: how many numbers they are, where they are numbers alone. Those before the first that is none stand in the list.
pub fn read_numbers(line: &[u8], from: usize, numbers: &mut [Number]) -> Option<usize>
    ensures given { result ≡ given_of line.now from }
    ensures numbers { numbers.new ≡ numbers_of line.now from numbers.old }
{
    let mut at = from;
    let mut count = 0;
    while at < line.len() {
        let word = word_from(line, at);
        let end = word.end;
        if end <= word.start {
            return Some(count);
        }
        let number = read_number(line, word)?;
        put(numbers, count, number);
        count += 1;
        at = end;
    }
    Some(count)
}

// The number at a place of a list; 0 where it has no such place.
pub fn nth(numbers: &[Number], place: usize) -> Number
    ensures { result ≡ nth numbers.now place }
{
    match numbers.get(place) {
        Some(number) => *number,
        None => NOUGHT,
    }
}

// The amount of three numbers from a place on: its currency, its scale and its coefficient. No list has a place past the largest.
pub fn amount_at(numbers: &[Number], place: usize) -> Amount
    ensures { result ≡ amount_at numbers.now place }
{
    Amount {
        currency: Currency(nth(numbers, place).as_u8()),
        scale: nth(numbers, place.saturating_add(1)).as_u8(),
        coefficient: nth(numbers, place.saturating_add(2)).as_i64(),
    }
}
