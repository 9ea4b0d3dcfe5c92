// The report on a book, or on one of its cards.
use crate::accounts::Account;
use crate::checks::check_of;
use crate::partners::{partners_of, put_partners};
use crate::styles::{put_currency, put_units};
use crate::tally::{Count, Tally};
use crate::together::put_together;
use book::Book;
use currency::Line;
use page::Page;
use quarter::Opening;
use whole::magnitude;

// What the reports say together: that a check failed; that a line, an opening too, was refused or not understood.
#[derive(Clone, Copy)]
pub struct Findings {
    pub failed: bool,
    pub blemished: bool,
}

// A book by its currency, and its later cards by their numbers.
fn put_part(page: &mut Page, book: Book, style: Option<Line>) {
    if 1 < book.card {
        page.put_named(b"card ", u64::from(book.card));
    } else {
        put_currency(page, b"book ", style, book.currency);
    }
}

fn put_weights(page: &mut Page, book: Book) {
    page.put(b" weights");
    for weight in book.weights.iter().take(usize::from(book.count)) {
        page.put_named(b" ", u64::from(*weight));
    }
}

fn put_heading(page: &mut Page, account: &Account) {
    match account.opening {
        Opening::Nothing => page.put(b"book none"),
        Opening::Unknown => page.put(b"book not understood"),
        Opening::Refused(refusal) => page.put_named(b"book refused ", u64::from(refusal.number())),
        Opening::Accepted => {
            let book = account.book;
            put_part(page, book, account.style());
            put_weights(page, book);
        },
    }
}

// How many lines were accepted, refused and not understood, and the first of the last.
fn put_lines(page: &mut Page, tally: &Tally) {
    page.put_named(b"\nlines ", tally.accepted());
    page.put_named(b" accepted ", tally.refused());
    page.put_named(b" refused ", tally.unknown.times);
    page.put(b" not understood\n");
    if tally.unknown.times != 0 {
        page.put_named(b"not understood first ", tally.unknown.first);
        page.put(b"\n");
    }
}

fn put_refused(page: &mut Page, number: usize, count: Count) {
    page.put_named(b"refused ", number as u64);
    page.put_named(b" times ", count.times);
    page.put_named(b" first ", count.first);
    page.put(b"\n");
}

// A line for each refusal's number that was given.
fn put_numbers(page: &mut Page, tally: &Tally) {
    for (number, count) in tally.numbers.iter().enumerate().skip(1) {
        if count.times != 0 {
            put_refused(page, number, *count);
        }
    }
}

fn put_check(page: &mut Page, check: Result<(), u64>) {
    match check {
        Ok(()) => page.put(b"check ok\n"),
        Err(place) => {
            page.put_named(b"check FAILED ", place);
            page.put(b"\n");
        },
    }
}

fn put_sums(page: &mut Page, account: &Account) {
    let style = account.style();
    put_units(page, b"posted ", style, account.tally.posted.sum);
    put_units(page, b" refunded ", style, account.tally.refunded.sum);
    put_units(page, b" net ", style, magnitude(account.book.net));
    page.put(b"\n");
}

// The sums, the partners and the check of a book that was opened as asked; where it ends and has more cards, what they come to too. Says
// whether all checks are well.
fn put_totals(page: &mut Page, account: &Account, ends: bool) -> bool {
    let partners = partners_of(account);
    put_sums(page, account);
    put_partners(page, account, &partners);
    let check = check_of(account, &partners);
    put_check(page, check);
    if !ends || account.cards.count == 0 {
        return check.is_ok();
    }
    let together = put_together(page, account, &partners);
    put_check(page, together);
    check.is_ok() && together.is_ok()
}

// Puts the report on an account, whose book may end with it.
pub(crate) fn put_report(page: &mut Page, findings: &mut Findings, account: &Account, ends: bool) {
    if account.is_silent() {
        return;
    }
    put_heading(page, account);
    put_lines(page, &account.tally);
    put_numbers(page, &account.tally);
    if !account.is_open() {
        findings.blemished = true;
        return;
    }
    if !account.tally.is_clean() {
        findings.blemished = true;
    }
    if !put_totals(page, account, ends) {
        findings.failed = true;
    }
}
