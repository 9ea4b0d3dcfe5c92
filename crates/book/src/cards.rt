// A new card: the contract is renegotiated, and the old cents stay put.
ghost use Rattle.std.specs.Prelude.{◌≡◌, ℕ, ◌+◌, ◌≤◌, pos, get_or};
ghost use Rattle.whole.specs.Whole.{magnitude_of};
ghost use Rattle.amount.specs.Amounts.{largest};
ghost use Rattle.book.specs.Cards.{card_with, Cards};
ghost use Rattle.book.specs.Checks.{breaks_by, Ready, added_by};

use crate::checks::net_of;
use crate::weights::{check_list, placed};
use crate::{Book, Moved};
use running::totals_at;
use whole::{magnitude, signed};

// The new weights break row 9: another count, no further card, or the rule of an opening's weights.
#[tactic(auto, unfolding(crate::specs::Checks::breaks_by))]
fn breaks(count: u8, card: u16, weights: &[u32]) -> bool
    ensures { result ≡ breaks_by count card weights.now }
{
    if weights.len() != usize::from(count) {
        return true;
    }
    if Book::CARDS <= card {
        return true;
    }
    match check_list(weights) {
        Err(_) => true,
        Ok(()) => false,
    }
}

// Settled totals from 0 on with running totals added, place by place.
fn grown(settled: [i64; Book::PARTNERS], totals: [u64; Book::PARTNERS]) -> [i64; Book::PARTNERS]
    requires { (i : ℕ) → magnitude_of (get_or settled i (pos 0)) + get_or totals i 0 ≤ largest }
    ensures { result ≡ added_by settled totals }
{
    std::array::from_fn(|i| signed(false, magnitude(settled[i]) + totals[i]))
}

// The book on its next card, with these weights: what the old card's partners have is settled.
fn next_card(book: Book, weights: [u32; Book::PARTNERS]) -> Book
    requires { Ready book }
    ensures { result ≡ card_with book weights }
{
    let old = book.weights;
    let before = book.settled;
    let totals = totals_at(old, net_of(book));
    let settled = grown(before, totals);
    let card = book.card + 1;
    Book {
        weights,
        net: 0,
        card,
        settled,
        ..book
    }
}

impl Book {
    // Closes the card: its running totals are settled, and the next card begins with these weights and a net total of 0.
    pub fn card(self, weights: &[u32]) -> Moved
        ensures { Cards self weights.now result }
    {
        let broken = breaks(self.count, self.card, weights);
        match self.check(broken, false) {
            Err(refusal) => Moved {
                outcome: Err(refusal),
                book: self,
                payouts: [0; Book::PARTNERS],
            },
            Ok(()) => {
                let next = next_card(self, placed(weights));
                Moved {
                    outcome: Ok(()),
                    book: next,
                    payouts: [0; Book::PARTNERS],
                }
            },
        }
    }
}
