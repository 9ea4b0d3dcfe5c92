// The lines of a statement.
use console::Output;
use page::Page;
use statement::{Reasoned, SummaryOfAny};
use view::{new_any, read_any_at};
use whole::{is_negative, magnitude};

// More bytes than a line has.
const LINE: usize = 200;

fn put_signed(page: &mut Page, words: &[u8], n: i64) {
    page.put(words);
    page.put_number(is_negative(n), magnitude(n));
}

// The currency of a statement is its first record's; an empty one has none.
fn put_currency(page: &mut Page, first: Option<Reasoned>) {
    match first {
        Some(record) => page.put_named(b" currency ", u64::from(record.payout.currency)),
        None => page.put(b" currency -"),
    }
}

fn put_heading(page: &mut Page, found: SummaryOfAny, first: Option<Reasoned>) {
    page.put_named(b"statement version ", u64::from(found.version));
    page.put_named(b" records ", found.summary.count as u64);
    put_signed(page, b" sum ", found.summary.sum);
    put_currency(page, first);
    page.put(b"\n");
}

fn put_record(page: &mut Page, record: Reasoned) {
    page.put_named(b"record ", u64::from(record.payout.place));
    put_signed(page, b" ", record.payout.coefficient);
    page.put_named(b" ", u64::from(record.reason));
    page.put(b"\n");
}

// The lines of the statement that the bytes end in: one for each of its records, as a view hands them out.
pub(crate) fn put_statement(
    rt: &(impl Print + Eprint),
    bytes: &[u8],
    found: SummaryOfAny,
    output: &mut Output,
) {
    let first = found.summary.first;
    output.make_room(rt, LINE);
    put_heading(
        &mut output.page,
        found,
        read_any_at(bytes, found.version, first),
    );
    for record in new_any(bytes, found.version, first) {
        output.make_room(rt, LINE);
        put_record(&mut output.page, record);
    }
}

// The bytes that are left where they are no statement.
pub(crate) fn put_other(rt: &(impl Print + Eprint), left: u64, output: &mut Output) {
    output.make_room(rt, LINE);
    output.page.put_named(b"other ", left);
    output.page.put(b"\n");
}
