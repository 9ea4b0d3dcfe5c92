// Posting and refunding, and a book's running totals.
ghost use Rattle.std.specs.Prelude.{◌≡◌, ◌≤◌};
ghost use Rattle.refusal.specs.Number.{number_of, blamed_of};
ghost use Rattle.refusal.specs.Rows.{gives, refuses};
ghost use Rattle.whole.specs.Sums.{sum_of};
ghost use Rattle.amount.specs.Amounts.{largest};
ghost use Rattle.units.specs.Rule.{totals};
ghost use Rattle.book.specs.Books.{weight_sum, zeros, book_at};
ghost use Rattle.book.specs.Moves.{less_of, Answers, Posts, Refunds, Tallies};

use crate::checks::{check_post, check_refund, net_of, units_of};
use crate::{Book, Moved};
use amount::Amount;
use refusal::Refusal;
use running::{totals_at, units_between};
use whole::signed;

// A refused posting or refund: the book that was given, and no payouts.
#[tactic(auto, unfolding(crate::specs::Moves::next_book))]
fn refused(book: Book, refusal: Refusal) -> Moved
    ensures { Answers book (refuses (number_of refusal) (blamed_of refusal)) zeros result }
{
    Moved {
        outcome: Err(refusal),
        book,
        payouts: [0; Book::PARTNERS],
    }
}

// The book at a new net total, and each partner's running total at the greater net total less that at the lesser.
fn moved(book: Book, net: u64, low: u64, high: u64) -> Moved
    requires { (1 ≤ sum_of book.weights) × (sum_of book.weights ≤ weight_sum) × (net ≤ largest) }
    ensures { Answers book (gives net) (less_of (totals book.weights high) (totals book.weights low)) result }
{
    let weights = book.weights;
    let payouts = units_between(weights, low, high);
    let next = book.at_net(signed(false, net));
    Moved {
        outcome: Ok(()),
        book: next,
        payouts,
    }
}

impl Book {
    // The same book at another net total.
    pub fn at_net(self, net: i64) -> Book
        ensures { result ≡ book_at self net }
    {
        Book { net, ..self }
    }

    // Pays each partner the difference of its running totals at N + A and N.
    pub fn post(self, amount: Amount) -> Moved
        ensures { Posts self amount result }
    {
        match check_post(self, amount) {
            Err(refusal) => refused(self, refusal),
            Ok(()) => {
                let net = net_of(self);
                let next = net + units_of(amount);
                moved(self, next, net, next)
            },
        }
    }

    // Takes back the difference of the running totals at N and N - A.
    pub fn refund(self, amount: Amount) -> Moved
        ensures { Refunds self amount result }
    {
        match check_refund(self, amount) {
            Err(refusal) => refused(self, refusal),
            Ok(()) => {
                let net = net_of(self);
                let next = net - units_of(amount);
                moved(self, next, next, net)
            },
        }
    }

    // Each partner's running total at N.
    pub fn totals(self) -> Result<[u64; Book::PARTNERS], Refusal>
        ensures { Tallies self result }
    {
        self.check(false, false)?;
        let weights = self.weights;
        let totals = totals_at(weights, net_of(self));
        Ok(totals)
    }
}
