// The calls that need no book: each takes its numbers and calls the library.
ghost use Rattle.std.specs.Prelude.{◌+◌, ◌<◌, ◌^◌};

use crate::answers::{Reply, put_list};
use crate::hearing::u64_at;
use crate::lists::WEIGHTS;
use amount::Amount;
use calendar::{Date, day_count};
use currency::Currency;
use euro::{convert, convert_by};
use intake::{amount_at, nth, read_weights};
use lines::Number;
use page::Page;
use refusal::Refusal;
use rounding::plain_quotient;
use sharing::share;
use tax::{Split, net_for_gross, tax_from_gross, tax_from_net};
use weights::MOST_WEIGHTS;

// A quotient of a product where there are four numbers; of three, the second factor is 1.
pub(crate) fn quotient_of(numbers: &[Number]) -> Result<Reply, Refusal> {
    let mode = nth(numbers, 0).as_u8();
    let a = nth(numbers, 1).as_i64();
    let (b, d) = if numbers.len() == 4 {
        (nth(numbers, 2).as_i64(), u64_at(numbers, 3))
    } else {
        (1, u64_at(numbers, 2))
    };
    Ok(Reply::Whole(plain_quotient(mode, a, b, d)?))
}

pub(crate) fn sum_of(numbers: &[Number]) -> Result<Reply, Refusal> {
    let sum = amount_at(numbers, 0).sum(amount_at(numbers, 3))?;
    Ok(Reply::Value(sum))
}

pub(crate) fn order_of(numbers: &[Number]) -> Result<Reply, Refusal> {
    let order = amount_at(numbers, 0).order(amount_at(numbers, 3))?;
    Ok(Reply::Ordered(order))
}

pub(crate) fn negate(numbers: &[Number]) -> Result<Reply, Refusal> {
    Ok(Reply::Value(amount_at(numbers, 0).negate()?))
}

pub(crate) fn rescale(numbers: &[Number]) -> Result<Reply, Refusal> {
    let scale = nth(numbers, 3).as_u8();
    let mode = nth(numbers, 4).as_u8();
    Ok(Reply::Value(amount_at(numbers, 0).rescale(scale, mode)?))
}

// By the euro step's decimals where there are five numbers.
pub(crate) fn convert_to(numbers: &[Number]) -> Result<Reply, Refusal> {
    let amount = amount_at(numbers, 0);
    let to = Currency(nth(numbers, 3).as_u8());
    let converted = if numbers.len() == 5 {
        convert_by(amount, to, nth(numbers, 4).as_u8())?
    } else {
        convert(amount, to)?
    };
    Ok(Reply::Value(converted))
}

fn date_at(numbers: &[Number], place: usize) -> Date
    requires { place + 2 < 2 ^ 64 }
{
    Date {
        year: nth(numbers, place).as_u16(),
        month: nth(numbers, place + 1).as_u8(),
        day: nth(numbers, place + 2).as_u8(),
    }
}

// The interest, and the days that it is for: they are counted once the interest is accepted, so that no refusal is met there.
pub(crate) fn interest_of(numbers: &[Number]) -> Result<Reply, Refusal> {
    let principal = amount_at(numbers, 0);
    let rate = nth(numbers, 3).as_u32();
    let basis = nth(numbers, 4).as_u8();
    let start = date_at(numbers, 5);
    let end = date_at(numbers, 8);
    let mode = nth(numbers, 11).as_u8();
    let amount = interest::interest(principal, rate, basis, start, end, mode)?;
    Ok(Reply::Interest(amount, day_count(basis, start, end)?))
}

// A price taken apart, by its amount, its rate and its mode.
fn split_by<F: Fn(Amount, u32, u8) -> Result<Split, Refusal>>(
    numbers: &[Number],
    split: F,
) -> Result<Split, Refusal>
    requires { F.IsAlwaysCallable split }
{
    split(
        amount_at(numbers, 0),
        nth(numbers, 3).as_u32(),
        nth(numbers, 4).as_u8(),
    )
}

pub(crate) fn tax_of_net(numbers: &[Number]) -> Result<Reply, Refusal> {
    let split = split_by(numbers, |net, rate, mode| tax_from_net(net, rate, mode))?;
    Ok(Reply::Two(split.tax.coefficient, split.gross.coefficient))
}

pub(crate) fn tax_of_gross(numbers: &[Number]) -> Result<Reply, Refusal> {
    let split = split_by(
        numbers,
        |gross, rate, mode| tax_from_gross(gross, rate, mode),
    )?;
    Ok(Reply::Two(split.tax.coefficient, split.net.coefficient))
}

pub(crate) fn net_for(numbers: &[Number]) -> Result<Reply, Refusal> {
    let split = split_by(
        numbers,
        |gross, rate, mode| net_for_gross(gross, rate, mode),
    )?;
    Ok(Reply::Value(split.net))
}

// The shares of an amount by the numbers behind it.
pub(crate) fn put_shared(
    amount: Amount,
    scale: Option<u8>,
    numbers: &[Number],
    page: &mut Page,
) -> Result<(), Refusal> {
    let mut weights = [0u32; WEIGHTS];
    let partners = read_weights(numbers, 3, numbers.len(), &mut weights);
    let mut shares = [0i64; MOST_WEIGHTS];
    share(amount, &weights[..partners], &mut shares)?;
    page.put(b"=");
    put_list(page, scale, &shares, partners);
    Ok(())
}
