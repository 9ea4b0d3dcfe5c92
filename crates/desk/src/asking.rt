// The lines that need no book.
use crate::answers::{Fault, Reply, put_reply};
use crate::calls::{
    convert_to, interest_of, negate, net_for, order_of, put_shared, quotient_of, rescale, sum_of,
    tax_of_gross, tax_of_net,
};
use crate::columns::{export_of, row_of};
use crate::hearing::{given, hear};
use crate::lists::{put_compound, put_vouchers};
use crate::readers::put_of_hex;
use crate::statements::{put_reasons, put_statement};
use crate::texts::{put_read, put_written};
use console::Verb;
use intake::amount_at;
use lines::Number;
use page::Page;

// A call that needs no book, with its numbers.
fn call(verb: Verb, numbers: &[Number]) -> Result<Reply, Fault> {
    let reply = match verb {
        Verb::Round => quotient_of(numbers)?,
        Verb::Sum => sum_of(numbers)?,
        Verb::Order => order_of(numbers)?,
        Verb::Negate => negate(numbers)?,
        Verb::Rescale => rescale(numbers)?,
        Verb::Convert => convert_to(numbers)?,
        Verb::Interest => interest_of(numbers)?,
        Verb::TaxNet => tax_of_net(numbers)?,
        Verb::TaxGross => tax_of_gross(numbers)?,
        Verb::NetFor => net_for(numbers)?,
        Verb::Row => row_of(numbers)?,
        Verb::Export => export_of(numbers)?,
        _ => return Err(Fault::Unknown),
    };
    Ok(reply)
}

// A verb that needs no book, with its numbers; the answer's coefficients as texts where the first is a currency that was given by its code.
fn put_call(verb: Verb, coded: bool, numbers: &[Number], page: &mut Page) -> Result<(), Fault> {
    let amount = amount_at(numbers, 0);
    let scale = if coded { Some(amount.scale) } else { None };
    match verb {
        Verb::Share => put_shared(amount, scale, numbers, page)?,
        Verb::Vouchers => put_vouchers(numbers, page)?,
        Verb::Write => put_written(amount, numbers, page)?,
        Verb::Compound => put_compound(amount, scale, numbers, page)?,
        Verb::Statement => put_statement(numbers, page)?,
        Verb::Reasons => put_reasons(numbers, page)?,
        _ => put_reply(page, scale, call(verb, numbers)?),
    }
    Ok(())
}

// The answer to a verb by its numbers, which go to the front of the list; what stands behind them there is an earlier line's.
fn put_of(
    verb: Verb,
    line: &[u8],
    from: usize,
    numbers: &mut [Number],
    page: &mut Page,
) -> Result<(), Fault> {
    let heard = hear(verb, line, from, numbers)?;
    put_call(verb, heard.coded, given(numbers, heard.count), page)
}

// The answer to a verb that needs no book, whose words stand from a place on. The list for its numbers is lent, so that no line clears one.
pub(crate) fn put_asked(
    verb: Verb,
    line: &[u8],
    from: usize,
    numbers: &mut [Number],
    page: &mut Page,
) -> Result<(), Fault> {
    match verb {
        Verb::Read => put_read(line, from, page),
        Verb::Check | Verb::View | Verb::CheckAny | Verb::ViewAny => {
            put_of_hex(verb, line, from, page)
        },
        _ => put_of(verb, line, from, numbers, page),
    }
}
