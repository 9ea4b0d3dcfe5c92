// Bytes put as hexadecimal digits. Where there is no room nothing is written, and the place stays.
ghost use Rattle.std.specs.Prelude.{◌≡◌, ◌+◌, ◌*◌, ◌≤◌, ◌<◌, length};
ghost use Rattle.lines.specs.Texts.{put_at, place_behind};
ghost use Rattle.hexadecimal.specs.Hexadecimal.{digit_of, digits_of, hex_of};

use lines::put_bytes;

// The digit of a number, in small letters.
#[tactic(auto, unfolding(crate::specs::Hexadecimal::digit_of))]
fn digit_of(n: u8) -> u8
    requires { n < 16 }
    ensures { result ≡ digit_of n }
{
    if n < 10 { b'0' + n } else { b'a' - 10 + n }
}

// The digits of the bytes from a place on, where there is room.
fn fill_digits(out: &mut [u8], at: usize, bytes: &[u8])
    requires { at + length bytes.now * 2 ≤ length out.old }
    ensures { out.new ≡ put_at out.old at (digits_of bytes.now) }
{
    for (i, byte) in bytes.iter().enumerate() {
        let to = at + i * 2;
        out[to] = digit_of(*byte / 16);
        out[to + 1] = digit_of(*byte % 16);
    }
}

// The bytes at a place, two digits to each, or `-` for none; the place behind them.
pub fn put_hex(out: &mut [u8], at: usize, bytes: &[u8]) -> usize
    ensures out_after { out.new ≡ put_at out.old at (hex_of bytes.now) }
    ensures value { result ≡ place_behind out.old at (hex_of bytes.now) }
{
    if bytes.is_empty() {
        return put_bytes(out, at, b"-");
    }
    if out.len() < at {
        return at;
    }
    if (out.len() - at) / 2 < bytes.len() {
        return at;
    }
    fill_digits(out, at, bytes);
    at + bytes.len() * 2
}
