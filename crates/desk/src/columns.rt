// The calls of doubles, which a line has by their 64 bits.
use crate::answers::Reply;
use crate::hearing::u64_at;
use currency::Currency;
use doubles::{Row, bits_of, export, of_bits, take_row};
use intake::{amount_at, nth};
use lines::Number;
use refusal::Refusal;

pub(crate) fn row_of(numbers: &[Number]) -> Result<Reply, Refusal> {
    let currency = Currency(nth(numbers, 0).as_u8());
    let scale = nth(numbers, 1).as_u8();
    let mode = nth(numbers, 2).as_u8();
    let given = Row {
        net: of_bits(u64_at(numbers, 3)),
        tax: of_bits(u64_at(numbers, 4)),
    };
    let amounts = take_row(given, currency, scale, mode)?;
    Ok(Reply::Two(amounts.net.coefficient, amounts.tax.coefficient))
}

pub(crate) fn export_of(numbers: &[Number]) -> Result<Reply, Refusal> {
    Ok(Reply::Bits(bits_of(export(amount_at(numbers, 0))?)))
}
