// Statement files, with a reason beside each payout or without: written into a lent buffer, which is put whole, so that a byte that should have stayed
// is seen.
use crate::answers::Fault;
use crate::hearing::u64_at;
use crate::lists::room_at;
use currency::Currency;
use hexadecimal::put_hex;
use intake::{nth, read_coefficients, read_places};
use lines::Number;
use page::Page;
use refusal::Refusal;
use statement::{write, write_reasons};

// The bytes of the lent buffer at most, and what each is before.
const BYTES: usize = 1_500;

const BEFORE: u8 = 165;

// The numbers in front of a statement's lists: its currency, its start, the buffer's room and how many of the numbers behind them are places.
const FRONT: u64 = 4;

// With reasons there is one more: how many reason codes stand behind the places.
const FRONT_WITH_REASONS: u64 = 5;

// More numbers than a line of 4,000 bytes has.
pub(crate) const LISTED: usize = 2_000;

// The numbers of a statement: those in front, and its lists.
#[derive(Clone, Copy)]
struct Run<'a> {
    front: &'a [Number],
    places: &'a [Number],
    // the reason codes, where it is one with reasons
    codes: Option<&'a [Number]>,
    coefficients: &'a [Number],
}

// The first of the numbers, as many as are asked for, and the others; where there are not so many the line is not understood.
fn cut(numbers: &[Number], count: u64) -> Result<(&[Number], &[Number]), Fault> {
    numbers
        .split_at_checked(count as usize)
        .ok_or(Fault::Unknown)
}

impl<'a> Run<'a> {
    // The file into a buffer: the place behind it.
    fn write(&self, out: &mut [u8]) -> Result<usize, Refusal> {
        let currency = Currency(nth(self.front, 0).as_u8());
        let start = u64_at(self.front, 1) as usize;
        let mut places = [0u16; LISTED];
        let mut coefficients = [0i64; LISTED];
        let some = read_places(self.places, 0, self.places.len(), &mut places);
        let others = read_coefficients(
            self.coefficients,
            0,
            self.coefficients.len(),
            &mut coefficients,
        );
        let places = &places[..some];
        let coefficients = &coefficients[..others];
        let Some(codes) = self.codes else {
            return write(currency, places, coefficients, out, start);
        };
        let mut reasons = [0u16; LISTED];
        let more = read_places(codes, 0, codes.len(), &mut reasons);
        write_reasons(currency, places, &reasons[..more], coefficients, out, start)
    }

    // The file's end, and the whole buffer that it was written into.
    fn put(&self, page: &mut Page) -> Result<(), Refusal> {
        let room = room_at(self.front, 2, BYTES);
        let mut bytes = [BEFORE; BYTES];
        let end = self.write(&mut bytes[..room])?;
        page.put_named(b"= ", end as u64);
        page.put(b" ");
        page.at = put_hex(page.bytes, page.at, &bytes[..room]);
        Ok(())
    }
}

pub(crate) fn put_statement(numbers: &[Number], page: &mut Page) -> Result<(), Fault> {
    let (front, listed) = cut(numbers, FRONT)?;
    let (places, coefficients) = cut(listed, u64_at(front, 3))?;
    let run = Run {
        front,
        places,
        codes: None,
        coefficients,
    };
    Ok(run.put(page)?)
}

pub(crate) fn put_reasons(numbers: &[Number], page: &mut Page) -> Result<(), Fault> {
    let (front, listed) = cut(numbers, FRONT_WITH_REASONS)?;
    let (places, others) = cut(listed, u64_at(front, 3))?;
    let (codes, coefficients) = cut(others, u64_at(front, 4))?;
    let run = Run {
        front,
        places,
        codes: Some(codes),
        coefficients,
    };
    Ok(run.put(page)?)
}
