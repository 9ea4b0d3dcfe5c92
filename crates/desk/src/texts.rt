// Amounts as texts, read and written by the library.
use crate::answers::{Fault, Reply, put_reply};
use crate::lists::room_at;
use amount::Amount;
use console::{Verb, form_of};
use currency::Currency;
use intake::{next_word, nth};
use lines::{NOUGHT, Number};
use page::Page;
use refusal::Refusal;
use spoken::read_words;
use text::{read, write};

// The bytes of the lent buffer at most, and what each is before.
const BYTES: usize = 64;

const BEFORE: u8 = b'_';

// The answer to a line whose verb has a currency and a text behind it, and nothing else: the text may have any bytes but a space.
pub(crate) fn put_read(line: &[u8], from: usize, page: &mut Page) -> Result<(), Fault> {
    let unit = next_word(line, from);
    let word = next_word(line, unit.end);
    let rest = next_word(line, word.end);
    if word.end <= word.start || rest.start < rest.end {
        return Err(Fault::Unknown);
    }
    let mut numbers = [NOUGHT; 1];
    let spoken = read_words(&line[..unit.end], from, form_of(Verb::Read), &mut numbers);
    if spoken.given.is_none() {
        return Err(Fault::Unknown);
    }
    let currency = Currency(nth(&numbers, 0).as_u8());
    let amount = read(currency, &line[word.start..word.end])?;
    let scale = if spoken.coded {
        Some(amount.scale)
    } else {
        None
    };
    put_reply(page, scale, Reply::Value(amount));
    Ok(())
}

// The text into the first bytes of the buffer, and all of these.
pub(crate) fn put_written(
    amount: Amount,
    numbers: &[Number],
    page: &mut Page,
) -> Result<(), Refusal> {
    let room = room_at(numbers, 3, BYTES);
    let mut bytes = [BEFORE; BYTES];
    let length = write(amount, &mut bytes[..room])?;
    page.put_named(b"= ", length as u64);
    page.put(b" ");
    page.put(&bytes[..room]);
    Ok(())
}
