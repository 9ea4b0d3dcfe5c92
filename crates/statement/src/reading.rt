// Whether bytes end in a statement file, and what it says of itself.
ghost use Rattle.std.specs.Prelude.{◌≡◌, Ok, ◌+◌, ◌*◌, ◌≤◌, length};
ghost use Rattle.refusal.specs.Rows.{check_of, means};
ghost use Rattle.statement.specs.Files.{version_of, record_width, trailer_width};
ghost use Rattle.statement.specs.Reading.{trailer_at, trailer_rows, file_rows, version_rows, newer_at, read_rows, summary_in, read_said, version_in, any_rows, any_said};

use crate::looking::check_records;
use crate::numbers::{from_word, number_at};
use crate::{RECORDS, Summary, SummaryOfAny, TRAILER, Trailer, Version};
use refusal::Refusal;

// The numbers of the trailer at a place.
#[tactic(auto, unfolding(crate::specs::Reading::trailer_at))]
fn trailer_at(bytes: &[u8], place: usize) -> Trailer
    requires { place + trailer_width ≤ length bytes.now }
    ensures { result ≡ trailer_at bytes.now place }
{
    Trailer {
        distance: number_at(bytes, place, 4),
        count: number_at(bytes, place + 4, 4),
        sum: number_at(bytes, place + 8, 8),
        version: number_at(bytes, place + 16, 2),
        zeros: number_at(bytes, place + 18, 6),
    }
}

// The first row that holds at a trailer, for records of a version.
fn check_trailer(version: Version, place: u64, trailer: Trailer) -> Result<(), Refusal>
    ensures { result ≡ check_of (trailer_rows (record_width version) (version_of version) place trailer) }
{
    if trailer.version != u64::from(version.number()) {
        return Err(Refusal::Malformed);
    }
    if trailer.zeros != 0 {
        return Err(Refusal::Malformed);
    }
    if (RECORDS as u64) < trailer.count {
        return Err(Refusal::Malformed);
    }
    if trailer.distance != version.width() as u64 * trailer.count {
        return Err(Refusal::Malformed);
    }
    if place < trailer.distance {
        return Err(Refusal::Malformed);
    }
    Ok(())
}

// The first row that holds at the trailer at a place and the records before it.
fn check_at(bytes: &[u8], version: Version, place: usize) -> Result<(), Refusal>
    requires { place + trailer_width ≡ length bytes.now }
    ensures { result ≡ check_of (file_rows version bytes.now place (trailer_at bytes.now place)) }
{
    let trailer = trailer_at(bytes, place);
    check_trailer(version, place as u64, trailer)?;
    check_records(
        bytes,
        version,
        place - trailer.distance as usize,
        trailer.count as usize,
        trailer.sum,
    )
}

// Whether a trailer is of version 2.
fn is_newer(trailer: Trailer) -> bool
    ensures { result ≡ newer_at trailer }
{
    trailer.version == 2 && trailer.zeros == 0
}

// Not one with the check of either version below: the rows differ, and what they share is `check_at`.
// The first row that holds for the bytes.
#[tactic(auto, unfolding(crate::specs::Reading::read_rows, crate::specs::Reading::newer, crate::specs::Reading::version_rows))]
fn check_file(bytes: &[u8]) -> Result<(), Refusal>
    ensures { result ≡ check_of (read_rows bytes.now) }
{
    if bytes.len() < TRAILER {
        return Err(Refusal::Malformed);
    }
    let place = bytes.len() - TRAILER;
    if is_newer(trailer_at(bytes, place)) {
        return Err(Refusal::Newer);
    }
    check_at(bytes, Version::Plain, place)
}

// What a file says of itself.
fn summary_in(bytes: &[u8], version: Version) -> Summary
    requires { check_of (version_rows version bytes.now) ≡ Ok tt }
    ensures { result ≡ summary_in version bytes.now }
{
    let place = bytes.len() - TRAILER;
    let trailer = trailer_at(bytes, place);
    Summary {
        first: place - trailer.distance as usize,
        count: trailer.count as usize,
        sum: from_word(trailer.sum),
    }
}

// The first record's start, the count and the sum of the version 1 file that the bytes end in, or refusal 17 for version 2, or 14.
pub fn check(bytes: &[u8]) -> Result<Summary, Refusal>
    ensures { means result ≡ read_said bytes.now }
{
    check_file(bytes)?;
    Ok(summary_in(bytes, Version::Plain))
}

// The version that the last bytes hold, and 1 where they hold neither: its rows refuse them.
fn version_in(bytes: &[u8]) -> Version
    requires { trailer_width ≤ length bytes.now }
    ensures { result ≡ version_in bytes.now }
{
    if trailer_at(bytes, bytes.len() - TRAILER).version == 2 {
        return Version::Reasons;
    }
    Version::Plain
}

// The first row that holds for the bytes, by the rows of the version that they hold.
#[tactic(auto, unfolding(crate::specs::Reading::any_rows, crate::specs::Reading::version_rows))]
fn check_any_file(bytes: &[u8]) -> Result<(), Refusal>
    ensures { result ≡ check_of (any_rows bytes.now) }
{
    if bytes.len() < TRAILER {
        return Err(Refusal::Malformed);
    }
    check_at(bytes, version_in(bytes), bytes.len() - TRAILER)
}

// Both checks stand in the C interface; they share all below `check_at`.
// The version, the first record's start, the count and the sum of the file of either version that the bytes end in, or refusal 14.
pub fn check_any(bytes: &[u8]) -> Result<SummaryOfAny, Refusal>
    ensures { means result ≡ any_said bytes.now }
{
    check_any_file(bytes)?;
    let version = version_in(bytes);
    Ok(SummaryOfAny {
        version: version.number(),
        summary: summary_in(bytes, version),
    })
}
