// The share book: an amount of money shared by weights, unit by unit, over any run of postings and refunds.
#![tactic(auto)]

use currency::Currency;
use refusal::Refusal;

mod cards;
mod checks;
mod moves;
mod opening;
mod settled;
mod weights;

// A currency, a count of 1 to 16, sixteen weights (those past the count are 0) with sum W from 1 to 10,000, a net total from 0 to L, a card
// number of 1 to 1,000, and sixteen settled totals (those past the count are 0), which with the net total sum to L at most. Any values may
// come in: every call checks them all.
#[derive(Clone, Copy)]
pub struct Book {
    pub currency: Currency,
    pub count: u8,
    pub weights: [u32; Book::PARTNERS],
    pub net: i64,
    pub card: u16,
    pub settled: [i64; Book::PARTNERS],
}

impl Book {
    // The places for partners.
    pub const PARTNERS: usize = running::PARTNERS;
    // The largest sum of the weights.
    pub const WEIGHT_SUM: u64 = running::WEIGHT_SUM;
    // The last card.
    pub const CARDS: u16 = 1_000;
}

// What the rows behind row 3 need to know of a book's settled totals: whether one past the count isn't 0, whether one is negative, and their sum.
#[derive(Clone, Copy)]
struct Past {
    behind: bool,
    negative: bool,
    sum: u64,
}

// Sums of settled totals: of those from 0 on, and of the magnitudes of those below. A struct, as both sums come of one pass and always exist.
#[derive(Clone, Copy)]
struct Sums {
    above: u64,
    below: u64,
}

// The answer of a posting, a refund or a new card: where it is refused, the given book and sixteen payouts of zero. A new card pays zeros.
// No Result<_, Refusal>: the promises `Answers` and `Cards` have the book and the payouts of a refused call too.
#[derive(Clone, Copy)]
pub struct Moved {
    pub outcome: Result<(), Refusal>,
    pub book: Book,
    pub payouts: [u64; Book::PARTNERS],
}
