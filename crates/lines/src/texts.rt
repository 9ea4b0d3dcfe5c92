// Whole numbers and other bytes written as text. Where there is no room nothing is written, and the place stays.
ghost use Rattle.std.specs.Prelude.{◌≡◌, ◌∷◌, ◌+◌, ◌≤◌, length};
ghost use Rattle.lines.specs.Texts.{decimal, text_of, put_at, place_behind};

use crate::Number;

// How many decimal digits a number has.
pub fn places(m: u64) -> usize
    ensures { result ≡ length (decimal 20 m) }
{
    match m.checked_ilog10() {
        Some(tens) => tens as usize + 1,
        None => 1,
    }
}

// The digits of a number, as many as it has, from a place on where there is room: the last one first.
fn fill(out: &mut [u8], at: usize, count: usize, m: u64)
    requires { (count ≡ length (decimal 20 m)) × (at + count ≤ length out.old) }
    ensures { out.new ≡ put_at out.old at (decimal 20 m) }
{
    let mut rest = m;
    for i in (0..count).rev() {
        out[at + i] = b'0' + (rest % 10) as u8;
        rest /= 10;
    }
}

fn put_unsigned(out: &mut [u8], at: usize, m: u64) -> usize
    ensures out_after { out.new ≡ put_at out.old at (decimal 20 m) }
    ensures value { result ≡ place_behind out.old at (decimal 20 m) }
{
    let count = places(m);
    if out.len() < at {
        return at;
    }
    if out.len() - at < count {
        return at;
    }
    fill(out, at, count, m);
    at + count
}

fn put_negative(out: &mut [u8], at: usize, m: u64) -> usize
    ensures out_after { out.new ≡ put_at out.old at (45 ∷ decimal 20 m) }
    ensures value { result ≡ place_behind out.old at (45 ∷ decimal 20 m) }
{
    let count = places(m);
    if out.len() < at {
        return at;
    }
    if out.len() - at <= count {
        return at;
    }
    out[at] = b'-';
    fill(out, at + 1, count, m);
    at + 1 + count
}

// A buffer and a place here, in `put_bytes` and in the crates above: `page` keeps both for whoever puts more than one piece.
// The number in decimal at a place, a minus before it where it is below 0; the place behind it.
#[tactic(auto, unfolding(crate::specs::Texts::text_of))]
pub fn put_number(out: &mut [u8], at: usize, negative: bool, m: u64) -> usize
    ensures out_after { out.new ≡ put_at out.old at (text_of negative m) }
    ensures value { result ≡ place_behind out.old at (text_of negative m) }
{
    let number = Number {
        negative,
        magnitude: m,
    };
    if number.below_zero() {
        put_negative(out, at, m)
    } else {
        put_unsigned(out, at, m)
    }
}

// The bytes at a place; the place behind them.
pub fn put_bytes(out: &mut [u8], at: usize, bytes: &[u8]) -> usize
    ensures out_after { out.new ≡ put_at out.old at bytes.now }
    ensures value { result ≡ place_behind out.old at bytes.now }
{
    if out.len() < at {
        return at;
    }
    if out.len() - at < bytes.len() {
        return at;
    }
    let end = at + bytes.len();
    out[at..end].copy_from_slice(bytes);
    end
}
