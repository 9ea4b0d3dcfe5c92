// Records and trailers into a lent part of a buffer.
ghost use Rattle.std.specs.Prelude.{◌≡◌, ◌+◌, ◌*◌, ◌≤◌, length};
ghost use Rattle.statement.specs.Bytes.{little_endian, pasted};
ghost use Rattle.statement.specs.Files.{version_of, record_bytes, record_width, code_bytes, code_zeros, trailer_bytes, trailer_width};
ghost use Rattle.statement.specs.Parts.{piece_of};

use crate::numbers::{put_number, word_of};
use crate::{Reasoned, Version};

impl Version {
    // The bytes of a record's reason code.
    pub(crate) fn code_bytes(self) -> usize
        ensures { result ≡ code_bytes self }
    {
        match self {
            Version::Plain => 0,
            Version::Reasons => 2,
        }
    }

    // The bytes of the zeros behind it.
    fn code_zeros(self) -> usize
        ensures { result ≡ code_zeros self }
    {
        match self {
            Version::Plain => 0,
            Version::Reasons => 6,
        }
    }
}

// A code and its zeros behind a record's sixteen bytes, where the version has them.
fn put_code(out: &mut [u8], version: Version, reason: u16)
    requires { record_width version ≤ length out.old }
    ensures { out.new ≡ pasted (16 + code_bytes version) (little_endian (code_zeros version) 0) (pasted 16 (little_endian (code_bytes version) reason) out.old) }
{
    let bytes = version.code_bytes();
    put_number(out, 16, bytes, u64::from(reason));
    put_number(out, 16 + bytes, version.code_zeros(), 0);
}

// A record to the front of what is still free.
fn put_record(out: &mut [u8], version: Version, reasoned: Reasoned)
    requires { record_width version ≤ length out.old }
    ensures { out.new ≡ pasted 0 (record_bytes version (piece_of reasoned)) out.old }
{
    put_number(out, 0, 2, u64::from(reasoned.payout.place));
    put_number(out, 2, 2, u64::from(reasoned.payout.currency));
    put_number(out, 4, 4, 0);
    put_number(out, 8, 8, word_of(reasoned.payout.coefficient));
    put_code(out, version, reasoned.reason);
}

// A record from a place on: the buffer is lent on from there.
pub(crate) fn put_record_at(out: &mut [u8], at: usize, version: Version, reasoned: Reasoned)
    requires { at + record_width version ≤ length out.old }
    ensures { out.new ≡ pasted at (record_bytes version (piece_of reasoned)) out.old }
{
    put_record(&mut out[at..], version, reasoned);
}

// A trailer to the front of what is still free.
fn put_trailer(out: &mut [u8], version: Version, count: u64, sum: i64)
    requires trailer_width_in_bounds { trailer_width ≤ length out.old }
    requires count_bound { record_width version * count ≤ 96000 }
    ensures { out.new ≡ pasted 0 (trailer_bytes (record_width version) count sum (version_of version)) out.old }
{
    put_number(out, 0, 4, version.width() as u64 * count);
    put_number(out, 4, 4, count);
    put_number(out, 8, 8, word_of(sum));
    put_number(out, 16, 2, u64::from(version.number()));
    put_number(out, 18, 6, 0);
}

// A trailer from a place on.
pub(crate) fn put_trailer_at(out: &mut [u8], at: usize, version: Version, count: u64, sum: i64)
    requires trailer_width_in_bounds { at + trailer_width ≤ length out.old }
    requires count_bound { record_width version * count ≤ 96000 }
    ensures { out.new ≡ pasted at (trailer_bytes (record_width version) count sum (version_of version)) out.old }
{
    put_trailer(&mut out[at..], version, count, sum);
}
