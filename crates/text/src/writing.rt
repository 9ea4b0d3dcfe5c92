// The text of an amount.
ghost use Rattle.std.specs.Prelude.{◌≡◌, ◌+◌, ◌≤◌, length};
ghost use Rattle.lines.specs.Texts.{put_at, place_behind};
ghost use Rattle.text.specs.Grammar.{minus, pointed};
ghost use Rattle.text.specs.Written.{last_digits, spelled, text_of, room_said, write_said, Writes};

use amount::{Amount, check_one};
use currency::power_of_ten;
use lines::{places, put_bytes, put_number};
use refusal::Refusal;
use whole::{is_negative, magnitude};

// How many bytes the text of a magnitude has.
pub(crate) fn length_of(negative: bool, m: u64, scale: u8) -> usize
    requires { scale ≤ 6 }
    ensures { result ≡ length (spelled negative m scale) }
{
    let mut count = places(m / power_of_ten(scale));
    if negative {
        count += 1;
    }
    if scale == 0 {
        return count;
    }
    count + 1 + scale as usize
}

fn put_sign(out: &mut [u8], negative: bool) -> usize
    ensures out_after { out.new ≡ put_at out.old 0 (minus negative) }
    ensures value { result ≡ place_behind out.old 0 (minus negative) }
{
    if negative { put_bytes(out, 0, b"-") } else { 0 }
}

// The point and the digits behind it. They are the digits of the power of ten and the rest together, behind its 1, where the point goes.
fn put_fraction(out: &mut [u8], at: usize, scale: u8, m: u64)
    requires { (scale ≤ 6) × (at + length (pointed (last_digits scale m)) ≤ length out.old) }
    ensures { out.new ≡ put_at out.old at (pointed (last_digits scale m)) }
{
    if scale == 0 {
        return;
    }
    let power = power_of_ten(scale);
    put_number(out, at, false, power + m % power);
    out[at] = b'.';
}

// The text of a magnitude in front of a buffer that has room for it.
pub(crate) fn put(out: &mut [u8], negative: bool, m: u64, scale: u8)
    requires { (scale ≤ 6) × (length (spelled negative m scale) ≤ length out.old) }
    ensures { out.new ≡ put_at out.old 0 (spelled negative m scale) }
{
    let at = put_sign(out, negative);
    let end = put_number(out, at, false, m / power_of_ten(scale));
    put_fraction(out, end, scale, m);
}

// The same, or refusal 11 where there is no room.
fn write_text(negative: bool, m: u64, scale: u8, out: &mut [u8]) -> Result<usize, Refusal>
    requires { scale ≤ 6 }
    ensures { Writes (spelled negative m scale) (room_said (spelled negative m scale) (length out.old)) out.old result out.new }
{
    let length = length_of(negative, m, scale);
    if out.len() < length {
        return Err(Refusal::Room);
    }
    put(out, negative, m, scale);
    Ok(length)
}

// The amount's text in front of the buffer, and its length; the rest of the buffer stays. Or the refusal 2, 3, 4 or 11.
pub fn write(amount: Amount, out: &mut [u8]) -> Result<usize, Refusal>
    ensures { Writes (text_of amount) (write_said amount (length out.old)) out.old result out.new }
{
    let negative = is_negative(amount.coefficient);
    let m = magnitude(amount.coefficient);
    check_one(amount.scale, m, amount.currency)?;
    write_text(negative, m, amount.scale, out)
}
