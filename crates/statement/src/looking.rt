// Whether a record keeps its rule, and whether all records of a file do and have the trailer's sum.
ghost use Rattle.std.specs.Prelude.{◌≡◌, ◌+◌, ◌≤◌, ◌<◌, length};
ghost use Rattle.refusal.specs.Rows.{check_of};
ghost use Rattle.whole.specs.Whole.{magnitude_of};
ghost use Rattle.amount.specs.Amounts.{over_l};
ghost use Rattle.statement.specs.Bytes.{number_at, from_word};
ghost use Rattle.statement.specs.Files.{record_width, code_bytes, code_zeros};
ghost use Rattle.statement.specs.Reading.{coefficient_at, bad_code, bad_record, record_rows};
ghost use Rattle.statement.specs.Parts.{Inside, bad_head};

use crate::numbers::{eight_at, from_word, number_at, word_of};
use crate::{REASON, Version};
use amount::Amount;
use currency::Currency;
use refusal::Refusal;
use whole::magnitude;

// The first eight bytes of a record, by the currency that all records have.
fn bad_head(head: u64, agreed: u64) -> bool
    requires { agreed < 65536 }
    ensures { result ≡ bad_head head agreed }
{
    if u64::from(Currency::LAST) < agreed {
        return true;
    }
    head / 16 != 4_096 * agreed
}

fn bad_word(word: u64) -> bool
    ensures { result ≡ over_l (magnitude_of (from_word word)) }
{
    Amount::L < magnitude(from_word(word))
}

// What stands behind a record's coefficient, its zeros with its code as one number.
fn bad_code(bytes: &[u8], version: Version, at: usize) -> bool
    requires { at + record_width version ≤ length bytes.now }
    ensures { result ≡ bad_code version (number_at bytes.now (at + 16) (code_bytes version)) (number_at bytes.now (at + (16 + code_bytes version)) (code_zeros version)) }
{
    match version {
        Version::Plain => false,
        Version::Reasons => u64::from(REASON) < eight_at(bytes, at + 16),
    }
}

fn bad_record(bytes: &[u8], version: Version, agreed: u64, at: usize) -> bool
    requires agreed_bound { agreed < 65536 }
    requires record_in_bounds { at + record_width version ≤ length bytes.now }
    ensures { result ≡ bad_record version bytes.now agreed at }
{
    if bad_head(eight_at(bytes, at), agreed) {
        return true;
    }
    if bad_word(eight_at(bytes, at + 8)) {
        return true;
    }
    bad_code(bytes, version, at)
}

pub(crate) fn coefficient_at(bytes: &[u8], at: usize) -> i64
    requires { at + 16 ≤ length bytes.now }
    ensures { result ≡ coefficient_at bytes.now at }
{
    from_word(eight_at(bytes, at + 8))
}

// The first row that holds at the records and the trailer's sum, in one pass: an i64 holds the sum of records that keep their rule.
pub(crate) fn check_records(
    bytes: &[u8],
    version: Version,
    first: usize,
    count: usize,
    word: u64,
) -> Result<(), Refusal>
    requires { Inside version (length bytes.now) first count }
    ensures { result ≡ check_of (record_rows version bytes.now first count word) }
{
    let agreed = number_at(bytes, first + 2, 2);
    let mut sum: i64 = 0;
    for i in 0..count {
        let at = first + version.width() * i;
        if bad_record(bytes, version, agreed, at) {
            return Err(Refusal::Malformed);
        }
        sum += coefficient_at(bytes, at);
    }
    if word_of(sum) != word {
        return Err(Refusal::Malformed);
    }
    Ok(())
}
