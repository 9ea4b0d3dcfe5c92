// An amount read from its text.
ghost use Rattle.std.specs.Prelude.{◌≡◌, false, ◌^◌, ◌<◌, ◌≤◌, length};
ghost use Rattle.refusal.specs.Rows.{means};
ghost use Rattle.currency.specs.Table.{unknown};
ghost use Rattle.text.specs.Read.{start_in, digits_end, scale_at, bad_whole, bad_fraction, bad_shape, read_said, made_said};
ghost use Rattle.text.specs.Scan.{most_short, bad_point, rest_said, Scanned};

use amount::Amount;
use currency::Currency;
use refusal::Refusal;
use whole::signed;

// The most characters of a text.
const CHARACTERS: usize = 20;
// And of one within L: a minus, fifteen digits and a point.
const SHORT: usize = 17;

// Where digits end, and the number that they make behind the digits before them.
#[derive(Clone, Copy)]
pub(crate) struct Counted {
    end: usize,
    number: u64,
}

// The place behind the minus, or the first where there is none.
fn start_of(bytes: &[u8]) -> usize
    ensures { result ≡ start_in bytes.now }
{
    if bytes.len() == 0 {
        return 0;
    }
    if bytes[0] == b'-' { 1 } else { 0 }
}

// Where the digits from a place on end.
fn digits_end(bytes: &[u8], at: usize) -> usize
    ensures { result ≡ digits_end bytes.now at }
{
    for i in at..bytes.len() {
        if !bytes[i].is_ascii_digit() {
            return i;
        }
    }
    at.max(bytes.len())
}

// No digit before the point, or a 0 before another.
fn bad_whole(bytes: &[u8], start: usize, end: usize) -> bool
    requires { end ≤ length bytes.now }
    ensures { result ≡ bad_whole bytes.now start end }
{
    if end <= start {
        return true;
    }
    if bytes[start] != b'0' {
        return false;
    }
    start + 1 < end
}

// No point, or not 1 to 6 bytes behind it.
fn bad_point(bytes: &[u8], end: usize) -> bool
    requires { end < length bytes.now }
    ensures { result ≡ bad_point bytes.now end }
{
    if bytes[end] != b'.' {
        return true;
    }
    let count = bytes.len() - (end + 1);
    if count == 0 {
        return true;
    }
    (Amount::SCALE as usize) < count
}

// Something else than a point with 1 to 6 digits up to the end.
fn bad_fraction(bytes: &[u8], end: usize) -> bool
    ensures { result ≡ bad_fraction bytes.now end }
{
    if bytes.len() <= end {
        return false;
    }
    if bad_point(bytes, end) {
        return true;
    }
    digits_end(bytes, end + 1) < bytes.len()
}

fn bad_shape(bytes: &[u8], start: usize, end: usize) -> bool
    requires { end ≤ length bytes.now }
    ensures { result ≡ bad_shape bytes.now start end }
{
    if CHARACTERS < bytes.len() {
        return true;
    }
    if bad_whole(bytes, start, end) {
        return true;
    }
    bad_fraction(bytes, end)
}

// How many digits stand behind the point.
fn scale_of(count: usize, end: usize) -> u8
    requires { scale_at count end ≤ 6 }
    ensures { result ≡ scale_at count end }
{
    if count <= end {
        return 0;
    }
    (count - (end + 1)) as u8
}

// The amount, or refusal 14 for a minus on zero, or 13 over L.
fn amount_of(currency: Currency, negative: bool, scale: u8, m: u64) -> Result<Amount, Refusal>
    ensures { means result ≡ made_said currency negative scale m }
{
    if m == 0 {
        if negative {
            return Err(Refusal::Malformed);
        }
    }
    if Amount::L < m {
        return Err(Refusal::Limit);
    }
    Ok(Amount {
        currency: currency,
        scale: scale,
        coefficient: signed(negative, m),
    })
}

// The digits from a place on, behind digits that make `before`, of a text that is short enough for a word to hold its number.
fn scan(bytes: &[u8], at: usize, before: u64) -> Counted
    requires { (at ≤ length bytes.now) × (length bytes.now ≤ most_short) × (before < 10 ^ at) }
    ensures { Scanned bytes.now at before result.end result.number }
{
    let mut number = before;
    for i in at..bytes.len() {
        let next = bytes[i];
        if !next.is_ascii_digit() {
            return Counted { end: i, number };
        }
        number = number * 10 + (next - b'0') as u64;
    }
    Counted {
        end: bytes.len(),
        number,
    }
}

// What follows the digits before the point, which end at a place and make a number.
fn read_rest(
    currency: Currency,
    negative: bool,
    bytes: &[u8],
    end: usize,
    number: u64,
) -> Result<Amount, Refusal>
    requires { (end ≤ length bytes.now) × (length bytes.now ≤ most_short) × (number < 10 ^ end) }
    ensures { means result ≡ rest_said currency negative bytes.now end number }
{
    if bytes.len() <= end {
        return amount_of(currency, negative, 0, number);
    }
    if bad_point(bytes, end) {
        return Err(Refusal::Malformed);
    }
    let fraction = scan(bytes, end + 1, number);
    if fraction.end < bytes.len() {
        return Err(Refusal::Malformed);
    }
    let scale = scale_of(bytes.len(), end);
    amount_of(currency, negative, scale, fraction.number)
}

// In one pass: each digit is tested and counts at once.
fn read_short(currency: Currency, bytes: &[u8]) -> Result<Amount, Refusal>
    requires { (unknown currency ≡ false) × (length bytes.now ≤ most_short) }
    ensures { means result ≡ read_said currency bytes.now }
{
    let start = start_of(bytes);
    let whole = scan(bytes, start, 0);
    let end = whole.end;
    if bad_whole(bytes, start, end) {
        return Err(Refusal::Malformed);
    }
    read_rest(currency, 0 < start, bytes, end, whole.number)
}

// A text of a good shape that is longer is over L.
fn read_long(currency: Currency, bytes: &[u8]) -> Result<Amount, Refusal>
    requires { (unknown currency ≡ false) × (most_short < length bytes.now) }
    ensures { means result ≡ read_said currency bytes.now }
{
    let start = start_of(bytes);
    let end = digits_end(bytes, start);
    if bad_shape(bytes, start, end) {
        return Err(Refusal::Malformed);
    }
    Err(Refusal::Limit)
}

// The amount that a text of a currency is: its digits after the point are its scale; or the refusal 4, 14 or 13.
pub fn read(currency: Currency, bytes: &[u8]) -> Result<Amount, Refusal>
    ensures { means result ≡ read_said currency bytes.now }
{
    if Currency::LAST < currency.0 {
        return Err(Refusal::Unknown);
    }
    if SHORT < bytes.len() {
        return read_long(currency, bytes);
    }
    read_short(currency, bytes)
}
