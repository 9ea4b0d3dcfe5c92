// A run of payouts as a statement file in a lent buffer.
ghost use Rattle.std.specs.Prelude.{◌≡◌, [], ◌+◌, ◌*◌, ◌≤◌, pos, length, get_or};
ghost use Rattle.refusal.specs.Rows.{means};
ghost use Rattle.statement.specs.declared.Version.TheVariants.{Reasons};
ghost use Rattle.statement.specs.Bytes.{pasted};
ghost use Rattle.statement.specs.Files.{record_bytes, record_width, file_of, file_bytes, file_size, joined, total_of};
ghost use Rattle.statement.specs.Writing.{payout_with, payout, write_said, reasons_said, buffer_after};
ghost use Rattle.statement.specs.Parts.{Few, Writable};

use crate::records::{put_record_at, put_trailer_at};
use crate::runs::Run;
use crate::{Payout, Reasoned, TRAILER, Version};
use currency::Currency;
use refusal::Refusal;

// The sum of the coefficients, which an i64 holds.
fn sum_of(coefficients: &[i64]) -> i64
    requires { Few (λ i. get_or coefficients.now i (pos 0)) (length coefficients.now) }
    ensures { result ≡ total_of (λ i. get_or coefficients.now i (pos 0)) (length coefficients.now) }
{
    let mut sum: i64 = 0;
    for coefficient in coefficients {
        sum += *coefficient;
    }
    sum
}

// A payout's code; 0 where there are none.
fn code_at(codes: &[u16], i: usize) -> u16
    ensures { result ≡ get_or codes.now i 0 }
{
    codes.get(i).copied().unwrap_or(0)
}

// A record for each payout from the start on, each into what is still free.
fn put_records(version: Version, run: Run<'_>, out: &mut [u8], start: usize) -> usize
    requires places_len { length run.places.now ≡ length run.coefficients.now }
    requires places_in_bounds { start + record_width version * length run.places.now ≤ length out.old }
    ensures end { result ≡ start + record_width version * length run.entry.places.now }
    ensures buffer { out.new ≡ pasted start (joined (λ i. record_bytes version (payout_with run.entry.currency run.entry.places.now run.entry.codes.now run.entry.coefficients.now i)) (length run.entry.places.now)) out.old }
{
    let width = version.width();
    for (i, place) in run.places.iter().enumerate() {
        let code = code_at(run.codes, i);
        let payout = Payout {
            place: *place,
            currency: u16::from(run.currency.0),
            coefficient: run.coefficients[i],
        };
        put_record_at(
            out,
            start + width * i,
            version,
            Reasoned {
                payout,
                reason: code,
            },
        );
    }
    start + width * run.places.len()
}

// The file of a run from the start on, and the place behind it.
fn put_file(version: Version, run: Run<'_>, out: &mut [u8], start: usize) -> usize
    requires { Writable version run.currency run.places.now run.codes.now run.coefficients.now (length out.old) start }
    ensures end { result ≡ start + file_size version (length run.entry.places.now) }
    ensures buffer { out.new ≡ pasted start (file_of version (payout_with run.entry.currency run.entry.places.now run.entry.codes.now run.entry.coefficients.now) (length run.entry.places.now)) out.old }
{
    let sum = sum_of(run.coefficients);
    let at = put_records(version, run, out, start);
    put_trailer_at(out, at, version, run.places.len() as u64, sum);
    at + TRAILER
}

// A record for each payout from the start on and a trailer behind them; the file's end, or the refusal 3, 4, 9 or 11. No other byte
// changes, and none where the run is refused.
pub fn write(
    currency: Currency,
    places: &[u16],
    coefficients: &[i64],
    out: &mut [u8],
    start: usize,
) -> Result<usize, Refusal>
    ensures said { means result ≡ write_said currency places.now coefficients.now (length out.old) start }
    ensures buffer { out.new ≡ buffer_after (write_said currency places.now coefficients.now (length out.old) start) start (file_bytes (payout currency places.now coefficients.now) (length places.now)) out.old }
{
    let run = Run {
        currency,
        places,
        codes: &[],
        coefficients,
    };
    run.check(Version::Plain, out.len(), start)?;
    Ok(put_file(Version::Plain, run, out, start))
}

// Both stand in the C interface, over one `Run`.
// The same with a reason code beside each payout, as a file of version 2; a code over 99 and a third list of another length are 9 too.
pub fn write_reasons(
    currency: Currency,
    places: &[u16],
    reasons: &[u16],
    coefficients: &[i64],
    out: &mut [u8],
    start: usize,
) -> Result<usize, Refusal>
    ensures said { means result ≡ reasons_said currency places.now reasons.now coefficients.now (length out.old) start }
    ensures buffer { out.new ≡ buffer_after (reasons_said currency places.now reasons.now coefficients.now (length out.old) start) start (file_of Reasons (payout_with currency places.now reasons.now coefficients.now) (length places.now)) out.old }
{
    let run = Run {
        currency,
        places,
        codes: reasons,
        coefficients,
    };
    run.check(Version::Reasons, out.len(), start)?;
    Ok(put_file(Version::Reasons, run, out, start))
}
