// The answers, put on a page.
use amount::Amount;
use currency::{Currency, line_of};
use page::Page;
use refusal::{Blamed, Refusal};
use std::cmp::Ordering;
use text::put_text;
use whole::{is_negative, magnitude};

// Why a line is not answered: it is not understood, or the library refuses it, or a text in it, of whose refusal `spoken` tells the number alone.
#[derive(Clone, Copy)]
pub enum Fault {
    Unknown,
    Refused(Refusal),
    Text(u8),
}

impl From<Refusal> for Fault {
    fn from(refusal: Refusal) -> Fault {
        Fault::Refused(refusal)
    }
}

// The answer of a call that needs no book.
#[derive(Clone, Copy)]
pub enum Reply {
    Whole(i64),
    Two(i64, i64),
    // the 64 bits of a double
    Bits(u64),
    Value(Amount),
    // an amount, and the days that it is for
    Interest(Amount, u32),
    Ordered(Ordering),
}

// The refusal's number, and which of two dates it blames.
fn put_refusal(page: &mut Page, refusal: Refusal) {
    page.put_named(b"! ", u64::from(refusal.number()));
    match refusal {
        Refusal::Date(Blamed::First) => page.put(b" first"),
        Refusal::Date(Blamed::Second) => page.put(b" second"),
        _ => {},
    }
}

pub(crate) fn put_fault(page: &mut Page, fault: Fault) {
    match fault {
        Fault::Unknown => page.put(b"?"),
        Fault::Refused(refusal) => put_refusal(page, refusal),
        Fault::Text(number) => page.put_named(b"! ", u64::from(number)),
    }
}

// A space and the number.
pub(crate) fn put_whole(page: &mut Page, n: i64) {
    put_coefficient(page, None, n);
}

// A coefficient as a text at a scale, where it has one; else as a number.
fn put_units(page: &mut Page, scale: Option<u8>, negative: bool, m: u64) {
    match scale {
        Some(scale) => page.at = put_text(page.bytes, page.at, negative, m, scale),
        None => page.put_number(negative, m),
    }
}

// A space and a coefficient.
pub(crate) fn put_coefficient(page: &mut Page, scale: Option<u8>, n: i64) {
    page.put(b" ");
    put_units(page, scale, is_negative(n), magnitude(n));
}

// A space and a payout.
pub(crate) fn put_payout(page: &mut Page, scale: Option<u8>, n: u64) {
    page.put(b" ");
    put_units(page, scale, false, n);
}

// A space and a currency's code.
fn put_code(page: &mut Page, currency: Currency) {
    page.put(b" ");
    page.put(&line_of(currency).code);
}

// By its code and a text where the line's first currency was given by its code.
fn put_amount(page: &mut Page, coded: bool, amount: Amount) {
    page.put(b"=");
    if coded {
        put_code(page, amount.currency);
        put_coefficient(page, Some(amount.scale), amount.coefficient);
    } else {
        page.put_named(b" ", u64::from(amount.currency.0));
        page.put_named(b" ", u64::from(amount.scale));
        put_whole(page, amount.coefficient);
    }
}

fn put_order(page: &mut Page, order: Ordering) {
    match order {
        Ordering::Less => page.put(b"= less"),
        Ordering::Equal => page.put(b"= equal"),
        Ordering::Greater => page.put(b"= greater"),
    }
}

// The answer; its coefficients as texts at a scale where the line's first currency was given by its code.
pub(crate) fn put_reply(page: &mut Page, scale: Option<u8>, reply: Reply) {
    match reply {
        Reply::Whole(n) => {
            page.put(b"=");
            put_whole(page, n);
        },
        Reply::Two(one, other) => {
            page.put(b"=");
            put_coefficient(page, scale, one);
            put_coefficient(page, scale, other);
        },
        Reply::Bits(bits) => page.put_named(b"= ", bits),
        Reply::Value(amount) => put_amount(page, scale.is_some(), amount),
        Reply::Interest(amount, days) => {
            put_amount(page, scale.is_some(), amount);
            page.put_named(b" ", u64::from(days));
        },
        Reply::Ordered(order) => put_order(page, order),
    }
}

// The first of the coefficients, as many as are asked for.
pub(crate) fn put_list(page: &mut Page, scale: Option<u8>, coefficients: &[i64], count: usize) {
    for n in coefficients.iter().take(count) {
        put_coefficient(page, scale, *n);
    }
}
