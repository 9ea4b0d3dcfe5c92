// Statement files by the readers of version 1 and of both versions: checked, and walked.
use crate::answers::{Fault, put_whole};
use console::Verb;
use hexadecimal::read_hex;
use intake::next_word;
use page::Page;
use refusal::Refusal;
use statement::{Payout, Summary, check, check_any};
use view::{new_any, open_any_at, open_at};

// The bytes of a file at most that a line has.
const BYTES: usize = 1_500;

// What a file says of itself.
fn put_summary(page: &mut Page, summary: Summary) {
    page.put_named(b" ", summary.first as u64);
    page.put_named(b" ", summary.count as u64);
    put_whole(page, summary.sum);
}

fn put_checked(bytes: &[u8], page: &mut Page) -> Result<(), Refusal> {
    let summary = check(bytes)?;
    page.put(b"=");
    put_summary(page, summary);
    Ok(())
}

// The same by the reader of both versions, the file's version in front.
fn put_checked_any(bytes: &[u8], page: &mut Page) -> Result<(), Refusal> {
    let any = check_any(bytes)?;
    page.put_named(b"= ", u64::from(any.version));
    put_summary(page, any.summary);
    Ok(())
}

// A record's place and coefficient; the file's currency in front of its first.
fn put_payout(page: &mut Page, leads: bool, payout: Payout) {
    if leads {
        page.put_named(b" ", u64::from(payout.currency));
    }
    page.put_named(b" ", u64::from(payout.place));
    put_whole(page, payout.coefficient);
}

fn put_view(bytes: &[u8], page: &mut Page) -> Result<(), Refusal> {
    let first = open_at(bytes)?;
    page.put(b"=");
    for (i, payout) in view::new(bytes, first).enumerate() {
        put_payout(page, i == 0, payout);
    }
    Ok(())
}

// The same by the reader of both versions, a reason code behind each record.
fn put_view_any(bytes: &[u8], page: &mut Page) -> Result<(), Refusal> {
    let (version, first) = open_any_at(bytes)?;
    page.put(b"=");
    for (i, record) in new_any(bytes, version, first).enumerate() {
        put_payout(page, i == 0, record.payout);
        page.put_named(b" ", u64::from(record.reason));
    }
    Ok(())
}

// The answer to a verb with one word of digits behind it, and nothing else.
pub(crate) fn put_of_hex(
    verb: Verb,
    line: &[u8],
    from: usize,
    page: &mut Page,
) -> Result<(), Fault> {
    let word = next_word(line, from);
    let rest = next_word(line, word.end);
    if rest.start < rest.end {
        return Err(Fault::Unknown);
    }
    let mut bytes = [0u8; BYTES];
    let count = read_hex(&line[word.start..word.end], &mut bytes).ok_or(Fault::Unknown)?;
    match verb {
        Verb::Check => put_checked(&bytes[..count], page)?,
        Verb::View => put_view(&bytes[..count], page)?,
        Verb::CheckAny => put_checked_any(&bytes[..count], page)?,
        Verb::ViewAny => put_view_any(&bytes[..count], page)?,
        _ => return Err(Fault::Unknown),
    }
    Ok(())
}
