// The calls of a run by a table of one cycle, for a book of which no row holds: only the coefficient's own rows are left to look at, and a
// call's running totals are the next call's.
ghost use Rattle.std.specs.Prelude.{◌≡◌, ℕ, ◌+◌, ◌*◌, ◌≤◌, ◌<◌, length, get_or};
ghost use Rattle.refusal.specs.Rows.{gives, means};
ghost use Rattle.amount.specs.Amounts.{largest};
ghost use Rattle.units.specs.Rule.{totals};
ghost use Rattle.book.specs.Books.{partners};
ghost use Rattle.book.specs.Moves.{next_book, less_of};
ghost use Rattle.bulk.specs.Runs.{written};
ghost use Rattle.bulk.specs.Serving.{Fit, Served};
ghost use Rattle.bulk.specs.Left.{Sound, left_said, Stepped};
ghost use Rattle.cycle.specs.Cycle.{Weighed, Cycled};

use crate::reading::totals_by;
use crate::turns::write;
use amount::Amount;
use book::Book;
use cycle::fill_cycle;
use refusal::Refusal;
use whole::{is_negative, magnitude, signed};

// The next net total, after a call of magnitude m at a net total, beside so much that is settled.
fn next_net(refund: bool, negative: bool, m: u64, settled: u64, net: u64) -> Result<u64, Refusal>
    requires { settled + net ≤ largest }
    ensures { means result ≡ left_said settled refund negative m net }
{
    if Amount::L < m {
        return Err(Refusal::Magnitude);
    }
    if negative {
        return Err(Refusal::Negative);
    }
    if refund {
        if net < m {
            return Err(Refusal::Refund);
        }
        Ok(net - m)
    } else {
        if Amount::L < settled + (net + m) {
            return Err(Refusal::Limit);
        }
        Ok(net + m)
    }
}

// The totals at the greater net total less those at the lesser, to the sixteen places from one on.
fn pay(high: [u64; Book::PARTNERS], low: [u64; Book::PARTNERS], out: &mut [u64], at: usize)
    requires by_index { (i : ℕ) → get_or low i 0 ≤ get_or high i 0 }
    requires partners_in_bounds { at + partners ≤ length out.old }
    ensures { out.new ≡ written out.old at (less_of high low) partners }
{
    for (i, total) in high.iter().enumerate() {
        out[at + i] = *total - low[i];
    }
}

// Serves call j at a net total and answers the next one: `held` has the totals at the one, and then at the other.
fn step(
    weights: [u32; Book::PARTNERS],
    sum: u64,
    table: &[u16],
    refund: bool,
    coefficient: i64,
    j: usize,
    settled: u64,
    net: u64,
    held: &mut [u64; Book::PARTNERS],
    payouts: &mut [u64],
    numbers: &mut [u8],
) -> u64
    requires weighed { Weighed weights sum }
    requires cycled { Cycled weights sum table.now }
    requires net_bound { (settled + net ≤ largest) × (held.old ≡ totals weights net) }
    requires partners_in_bounds { (j * partners + partners ≤ length payouts.old) × (j < length numbers.old) }
    ensures { Stepped settled weights refund coefficient j net payouts.old numbers.old result held.new payouts.new numbers.new }
{
    let at = j * Book::PARTNERS;
    let m = magnitude(coefficient);
    let next = match next_net(refund, is_negative(coefficient), m, settled, net) {
        Ok(next) => next,
        Err(refusal) => {
            numbers[j] = refusal.number();
            write(payouts, at, [0; Book::PARTNERS]);
            return net;
        },
    };
    numbers[j] = 0;
    let totals = totals_by(weights, sum, table, next);
    if refund {
        pay(*held, totals, payouts, at);
    } else {
        pay(totals, *held, payouts, at);
    }
    *held = totals;
    next
}

// Serves all calls in turn, by a table of the cycle, and answers the last net total.
fn by_rows(
    book: Book,
    sum: u64,
    table: &[u16],
    refunds: &[bool],
    coefficients: &[i64],
    payouts: &mut [u64],
    numbers: &mut [u8],
) -> u64
    requires sound { Sound book }
    requires weighed { Weighed book.weights sum }
    requires cycled { Cycled book.weights sum table.now }
    requires fit { Fit (length refunds.now) (length coefficients.now) (length payouts.old) (length numbers.old) }
    ensures { (result ≤ largest) × Served book refunds.now coefficients.now payouts.old numbers.old (next_book book (gives result)) payouts.new numbers.new }
{
    let weights = book.weights;
    let settled = book.settled_sum();
    let mut net = magnitude(book.net);
    let mut held = totals_by(weights, sum, table, net);
    for (j, refund) in refunds.iter().enumerate() {
        net = step(
            weights,
            sum,
            table,
            *refund,
            coefficients[j],
            j,
            settled,
            net,
            &mut held,
            payouts,
            numbers,
        );
    }
    net
}

// Serves all calls in turn: the table is filled once.
pub(crate) fn by_table(
    book: Book,
    sum: u64,
    refunds: &[bool],
    coefficients: &[i64],
    payouts: &mut [u64],
    numbers: &mut [u8],
) -> Book
    requires sound { Sound book }
    requires weighed { Weighed book.weights sum }
    requires fit { Fit (length refunds.now) (length coefficients.now) (length payouts.old) (length numbers.old) }
    ensures { Served book refunds.now coefficients.now payouts.old numbers.old result payouts.new numbers.new }
{
    let weights = book.weights;
    let mut table: [u16; Book::WEIGHT_SUM as usize] = [0; Book::WEIGHT_SUM as usize];
    fill_cycle(weights, &mut table);
    let net = by_rows(book, sum, &table, refunds, coefficients, payouts, numbers);
    book.at_net(signed(false, net))
}
