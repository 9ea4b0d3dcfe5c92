// What a line asks for.
ghost use Rattle.std.specs.Prelude.{◌≡◌};
ghost use Rattle.quarter.specs.Asking.{first_of, form_of, takes_of, unknown_of, call_of, refund_of, called_of, called_with, spoken_as, in_words, behind_first, asked_of};

use crate::{Asked, Call, First};
use amount::Amount;
use intake::{amount_at, asks_nothing, next_word, nth, read_numbers};
use lines::NOUGHT;
use spoken::{Form, Kind, read_words};

// The numbers of an amount, and of a refund with the code of a reason behind it.
const AMOUNT: usize = 3;

const NUMBERS: usize = 4;

// The last code of a reason.
const REASON: u16 = 99;

#[tactic(auto, using(crate::proofs::Words::other_length, crate::proofs::Words::other_first, crate::proofs::Words::is_same), unfolding(console::specs::Verbs::same_bytes))]
fn first_of(word: &[u8]) -> First
    ensures { result ≡ first_of word.now }
{
    match word {
        b"post" => First::Post,
        b"refund" => First::Refund,
        b"open" => First::Open,
        b"card" => First::Card,
        _ => First::Other,
    }
}

// What stands behind a first word: a currency, an amount, or numbers alone.
pub(crate) fn form_of(first: First) -> Form
    ensures { result ≡ form_of first }
{
    let kind = match first {
        First::Open => Kind::Unit,
        First::Post | First::Refund => Kind::Money,
        First::Card | First::Other => Kind::Plain,
    };
    Form {
        first: kind,
        fourth: Kind::Plain,
    }
}

// Whether so many numbers may stand behind a first word: a refund's reason may be left out.
fn takes(first: First, count: usize) -> bool
    ensures { result ≡ takes_of first count }
{
    match first {
        First::Open => 1 <= count,
        First::Card => true,
        First::Post => count == AMOUNT,
        First::Refund => count == AMOUNT || count == NUMBERS,
        First::Other => false,
    }
}

// An `open` or a `card` that is not understood ends its book, so that no later line is credited to the wrong one.
fn unknown(first: First) -> Asked
    ensures { result ≡ unknown_of first }
{
    match first {
        First::Open | First::Card => Asked::Astray,
        First::Post | First::Refund | First::Other => Asked::Unknown,
    }
}

// A posting or a refund of an amount, whose text may have been refused with a number.
fn call(refund: bool, amount: Amount, refused: Option<u8>, reason: u16) -> Asked
    ensures { result ≡ call_of refund amount refused reason }
{
    match refused {
        Some(number) => Asked::Refused(number),
        None => Asked::Call(Call {
            refund,
            amount,
            reason,
        }),
    }
}

// A refund with any other number in its reason's place is not understood.
fn refund(amount: Amount, refused: Option<u8>, reason: u16) -> Asked
    ensures { result ≡ refund_of amount refused reason }
{
    if REASON < reason {
        return Asked::Unknown;
    }
    call(true, amount, refused, reason)
}

fn called(first: First, amount: Amount, refused: Option<u8>, reason: u16) -> Asked
    ensures { result ≡ called_of first amount refused reason }
{
    match first {
        First::Open => Asked::Open,
        First::Card => Asked::Card,
        First::Post => call(false, amount, refused, 0),
        First::Refund => refund(amount, refused, reason),
        First::Other => Asked::Unknown,
    }
}

// A first word with so many numbers behind it.
#[tactic(auto, unfolding(crate::specs::Asking::called_with))]
fn called_with(
    first: First,
    count: usize,
    amount: Amount,
    refused: Option<u8>,
    reason: u16,
) -> Asked
    ensures { result ≡ called_with first count amount refused reason }
{
    if takes(first, count) {
        return called(first, amount, refused, reason);
    }
    unknown(first)
}

// A first word with the words behind it, which are so many numbers where they are understood.
#[tactic(auto, unfolding(crate::specs::Asking::spoken_as))]
fn spoken_as(
    first: First,
    given: Option<usize>,
    amount: Amount,
    refused: Option<u8>,
    reason: u16,
) -> Asked
    ensures { result ≡ spoken_as first given amount refused reason }
{
    match given {
        Some(count) => called_with(first, count, amount, refused, reason),
        None => unknown(first),
    }
}

// What a line asks for whose words from a place on are not numbers alone.
#[tactic(auto, unfolding(crate::specs::Asking::in_words))]
fn in_words(line: &[u8], from: usize, first: First) -> Asked
    ensures { result ≡ in_words line.now from first }
{
    let mut numbers = [NOUGHT; NUMBERS];
    let spoken = read_words(line, from, form_of(first), &mut numbers);
    let amount = amount_at(&numbers, 0);
    let reason = nth(&numbers, AMOUNT).as_u16();
    spoken_as(first, spoken.given, amount, spoken.refused, reason)
}

// What a line asks for by its words from a place on: most are numbers alone, which are read at less cost.
#[tactic(auto, unfolding(crate::specs::Asking::behind_first))]
fn behind_first(line: &[u8], from: usize, first: First) -> Asked
    ensures { result ≡ behind_first line.now from first }
{
    let mut numbers = [NOUGHT; NUMBERS];
    match read_numbers(line, from, &mut numbers) {
        Some(count) => {
            let reason = nth(&numbers, AMOUNT).as_u16();
            called_with(first, count, amount_at(&numbers, 0), None, reason)
        },
        None => in_words(line, from, first),
    }
}

// What a line asks for.
#[tactic(auto, unfolding(crate::specs::Asking::asked_of))]
pub fn asked_of(line: &[u8]) -> Asked
    ensures { result ≡ asked_of line.now }
{
    if asks_nothing(line) {
        return Asked::Nothing;
    }
    let word = next_word(line, 0);
    behind_first(line, word.end, first_of(&line[word.start..word.end]))
}
