// The rows of the table of refusals that a call on a book can hold, each part a check of its own.
ghost use Rattle.std.specs.Prelude.{◌≡◌, cond, ◌++◌};
ghost use Rattle.refusal.specs.Rows.{gives, first_row, check_of, means};
ghost use Rattle.book.specs.Settled.{any_over};
ghost use Rattle.book.specs.Books.{net_of, settled_sum, card_rows, listed_rows};
ghost use Rattle.book.specs.Moves.{units_of, move_rows, post_rows, refund_rows};
ghost use Rattle.book.specs.Checks.{size_rows, currency_rows, settled_said, contract_rows, sign_rows, last_rows, behind_rows, rest_rows};

use crate::settled::{any_over, past_of, sums_from};
use crate::weights::check_weights;
use crate::{Book, Past};
use amount::Amount;
use currency::{Currency, not_own_digits};
use refusal::Refusal;
use whole::{is_negative, magnitude};

// Rows 2 and 3 at an amount and at a net total: m and n are the magnitudes of the coefficient and of the net total.
#[tactic(auto, unfolding(crate::specs::Checks::size_rows))]
fn check_size(scale: u8, m: u64, currency: Currency, n: u64) -> Result<(), Refusal>
    ensures { result ≡ check_of (size_rows scale m currency n) }
{
    if Amount::SCALE < scale {
        return Err(Refusal::Scale);
    }
    if not_own_digits(currency, scale) {
        return Err(Refusal::Scale);
    }
    if Amount::L < m {
        return Err(Refusal::Magnitude);
    }
    if Amount::L < n {
        return Err(Refusal::Magnitude);
    }
    Ok(())
}

// Rows 4 and 5 at the currencies of an amount and of a book.
#[tactic(auto, unfolding(crate::specs::Checks::currency_rows))]
fn check_currencies(currency: Currency, own: Currency) -> Result<(), Refusal>
    ensures { result ≡ check_of (currency_rows currency own) }
{
    if Currency::LAST < currency.0 {
        return Err(Refusal::Unknown);
    }
    if Currency::LAST < own.0 {
        return Err(Refusal::Unknown);
    }
    if currency.0 != own.0 {
        return Err(Refusal::Differ);
    }
    Ok(())
}

// Row 10 at an amount and at a book's net total and settled totals.
#[tactic(auto, unfolding(crate::specs::Checks::sign_rows))]
fn check_signs(amount: bool, net: bool, settled: bool) -> Result<(), Refusal>
    ensures { result ≡ check_of (sign_rows amount net settled) }
{
    if amount {
        return Err(Refusal::Negative);
    }
    if net {
        return Err(Refusal::Negative);
    }
    if settled {
        return Err(Refusal::Negative);
    }
    Ok(())
}

// Row 9 at a card number and at what is past the count.
#[tactic(auto, unfolding(crate::specs::Books::card_rows))]
fn check_card(card: u16, behind: bool) -> Result<(), Refusal>
    ensures { result ≡ check_of (card_rows card behind) }
{
    if card < 1 {
        return Err(Refusal::Weights);
    }
    if Book::CARDS < card {
        return Err(Refusal::Weights);
    }
    if behind {
        return Err(Refusal::Weights);
    }
    Ok(())
}

// Row 9 at a book.
#[tactic(auto, using(refusal::proofs::Joined::front_passed))]
fn check_contract(
    count: usize,
    weights: [u32; Book::PARTNERS],
    card: u16,
    behind: bool,
) -> Result<(), Refusal>
    ensures { result ≡ check_of (contract_rows count weights card behind) }
{
    check_weights(count, weights)?;
    check_card(card, behind)
}

// N, the book's net total, and A, the amount's units: neither is negative where a call is accepted.
pub(crate) fn net_of(book: Book) -> u64
    ensures { result ≡ net_of book }
{
    magnitude(book.net)
}

pub(crate) fn units_of(amount: Amount) -> u64
    ensures { result ≡ units_of amount }
{
    magnitude(amount.coefficient)
}

// Row 3 at a book's settled totals, and what is to be known of them.
fn past_in(book: Book) -> Result<Past, Refusal>
    ensures { means result ≡ settled_said book.count book.net book.settled }
{
    let settled = book.settled;
    past_of(settled, usize::from(book.count), book.net)
}

// Seven numbers and tests of a book's rows, named once: a struct for one call would be longer.
// Rows 9 and 10: the weights and the card, then the signs of the amount, of the net total and of the settled totals.
#[tactic(auto, using(refusal::proofs::Joined::front_passed))]
fn check_standing(
    count: usize,
    weights: [u32; Book::PARTNERS],
    card: u16,
    behind: bool,
    amount: bool,
    net: bool,
    settled: bool,
) -> Result<(), Refusal>
    ensures { result ≡ check_of (contract_rows count weights card behind ++ sign_rows amount net settled) }
{
    check_contract(count, weights, card, behind)?;
    check_signs(amount, net, settled)
}

// Rows 4, 5, 9 and 10 of a posting or a refund.
fn check_behind(book: Book, past: Past, amount: Amount) -> Result<(), Refusal>
    ensures { result ≡ check_of (behind_rows book past amount) }
{
    let currency = amount.currency;
    let own = book.currency;
    check_currencies(currency, own)?;
    let weights = book.weights;
    let negative = is_negative(book.net);
    check_standing(
        usize::from(book.count),
        weights,
        book.card,
        past.behind,
        is_negative(amount.coefficient),
        negative,
        past.negative,
    )
}

// Rows 2 to 10 of a posting or a refund; answers the sum of the settled totals.
fn check_move(book: Book, amount: Amount) -> Result<u64, Refusal>
    ensures { means result ≡ first_row (move_rows book amount) (gives (settled_sum book)) }
{
    let units = units_of(amount);
    let net = net_of(book);
    let currency = amount.currency;
    check_size(amount.scale, units, currency, net)?;
    let past = past_in(book)?;
    check_behind(book, past, amount)?;
    Ok(past.sum)
}

// The rows of a posting; row 13 last, where the sum of numbers within L can't wrap.
pub(crate) fn check_post(book: Book, amount: Amount) -> Result<(), Refusal>
    ensures { result ≡ check_of (post_rows book amount) }
{
    let settled = check_move(book, amount)?;
    if Amount::L < settled + (net_of(book) + units_of(amount)) {
        Err(Refusal::Limit)
    } else {
        Ok(())
    }
}

// The rows of a refund; row 12 last.
pub(crate) fn check_refund(book: Book, amount: Amount) -> Result<(), Refusal>
    ensures { result ≡ check_of (refund_rows book amount) }
{
    check_move(book, amount)?;
    if net_of(book) < units_of(amount) {
        Err(Refusal::Refund)
    } else {
        Ok(())
    }
}

// Rows 9, 10 and 11 behind a book's weights and card.
#[tactic(auto, unfolding(crate::specs::Checks::last_rows))]
fn check_last(broken: bool, net: bool, settled: bool, short: bool) -> Result<(), Refusal>
    ensures { result ≡ check_of (last_rows broken net settled short) }
{
    if broken {
        return Err(Refusal::Weights);
    }
    if net {
        return Err(Refusal::Negative);
    }
    if settled {
        return Err(Refusal::Negative);
    }
    if short {
        return Err(Refusal::Room);
    }
    Ok(())
}

// Row 4 at a book, row 9, and the rows behind it.
fn check_rest(book: Book, past: Past, broken: bool, short: bool) -> Result<(), Refusal>
    ensures { result ≡ check_of (rest_rows book past broken short) }
{
    let own = book.currency;
    if Currency::LAST < own.0 {
        return Err(Refusal::Unknown);
    }
    let weights = book.weights;
    check_contract(usize::from(book.count), weights, book.card, past.behind)?;
    check_last(broken, is_negative(book.net), past.negative, short)
}

impl Book {
    // The rows of a given book, and of lists that a call takes with it: whether they break a rule, and whether a lent one is short.
    pub fn check(self, broken: bool, short: bool) -> Result<(), Refusal>
        ensures { result ≡ check_of (listed_rows self broken short) }
    {
        if Amount::L < net_of(self) {
            return Err(Refusal::Magnitude);
        }
        let past = past_in(self)?;
        check_rest(self, past, broken, short)
    }

    // The settled totals added; 0 where one is over L.
    pub fn settled_sum(self) -> u64
        ensures { result ≡ cond (any_over self.settled) 0 (settled_sum self) }
    {
        let settled = self.settled;
        if any_over(settled) {
            return 0;
        }
        sums_from(settled, 0).above
    }
}
