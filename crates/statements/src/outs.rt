// The new file. Its last byte, the last of a trailer's zeros, is written when all else went well: whatever ends the program before that, the bytes that
// stand are no statement, and no reader takes them for one.
use crate::records::Records;
use currency::Currency;
use refusal::Refusal;
use statement::{RECORD_WITH_REASON, RECORDS, TRAILER, write_reasons};
use std::fs::OpenFile;
use std::io;
use std::io::{Error, Write};

// A byte and the longest statement.
const LONGEST: usize = 1 + RECORDS * RECORD_WITH_REASON + TRAILER;

// Why there are no statements.
#[derive(Drop)]
pub enum Fault {
    // reading failed, which is said where it failed
    Unread,
    // a statement is refused, which none of a book's payouts is
    Refused(Refusal),
    // writing failed
    Unwritten(Error),
}

impl From<Refusal> for Fault {
    fn from(refusal: Refusal) -> Fault {
        Fault::Refused(refusal)
    }
}

impl From<Error> for Fault {
    fn from(error: Error) -> Fault {
        Fault::Unwritten(error)
    }
}

// Writes the statement of the records that wait, but for its last byte: where one is written before it, that one's last byte stands in front.
pub(crate) fn put_statement(
    writer: &mut impl Write,
    begun: bool,
    currency: Currency,
    records: &Records,
) -> Result<(), Fault> {
    let count = records.count.min(RECORDS);
    let mut file = [0u8; LONGEST];
    let end = write_reasons(
        currency,
        &records.places[..count],
        &records.reasons[..count],
        &records.coefficients[..count],
        &mut file,
        1,
    )?;
    let from = if begun { 0 } else { 1 };
    let bytes = file.get(from..end.saturating_sub(1)).unwrap_or(&[]);
    writer.write_all(bytes)?;
    Ok(())
}

// Writes the last byte, behind all others on their device, and waits until it is there too.
pub(crate) fn end_file(file: &mut (impl Write + OpenFile)) -> io::Result<()> {
    file.sync_all()?;
    file.write_all(b"\0")?;
    file.sync_all()
}
