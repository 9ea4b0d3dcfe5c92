// Numbers in bytes, the least byte first, and coefficients as words.
ghost use Rattle.std.specs.Prelude.{◌≡◌, ◌+◌, ◌≤◌, length};
ghost use Rattle.statement.specs.Bytes.{little_endian, number_at, word_of, from_word, pasted};

use whole::{is_negative, magnitude, signed};

// The number of so many bytes from a place on.
pub(crate) fn number_at(bytes: &[u8], at: usize, count: usize) -> u64
    requires count_bound { count ≤ 8 }
    requires count_in_bounds { at + count ≤ length bytes.now }
    ensures { result ≡ number_at bytes.now at count }
{
    let mut number: u64 = 0;
    for i in (0..count).rev() {
        number = number * 256 + u64::from(bytes[at + i]);
    }
    number
}

// The number of eight bytes, in one expression: one load of the machine.
pub(crate) fn eight_at(bytes: &[u8], at: usize) -> u64
    requires { at + 8 ≤ length bytes.now }
    ensures { result ≡ number_at bytes.now at 8 }
{
    u64::from_le_bytes([
        bytes[at],
        bytes[at + 1],
        bytes[at + 2],
        bytes[at + 3],
        bytes[at + 4],
        bytes[at + 5],
        bytes[at + 6],
        bytes[at + 7],
    ])
}

// So many bytes of a number to the places from one on.
pub(crate) fn put_number(out: &mut [u8], at: usize, count: usize, number: u64)
    requires count_bound { count ≤ 8 }
    requires count_in_bounds { at + count ≤ length out.old }
    ensures { out.new ≡ pasted at (little_endian count number) out.old }
{
    out[at..at + count].copy_from_slice(&number.to_le_bytes()[..count]);
}

// A coefficient in two's complement, by its sign and magnitude: only `whole` makes a signed number of an unsigned one.
pub(crate) fn word_of(coefficient: i64) -> u64
    ensures { result ≡ word_of coefficient }
{
    let m = magnitude(coefficient);
    if is_negative(coefficient) {
        u64::MAX - m + 1
    } else {
        m
    }
}

// The coefficient that a word holds.
pub(crate) fn from_word(word: u64) -> i64
    ensures { result ≡ from_word word }
{
    if word < 1 << 63 {
        signed(false, word)
    } else {
        signed(true, u64::MAX - word + 1)
    }
}
