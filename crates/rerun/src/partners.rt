// The partners of a report.
ghost use Rattle.std.specs.Prelude.{◌^◌, ◌≤◌};

use crate::accounts::Account;
use crate::styles::put_units;
use amount::Amount;
use book::Book;
use currency::Line;
use page::Page;
use whole::magnitude;

// N x weight / W rounded down and up.
#[derive(Clone, Copy)]
pub struct Share {
    pub least: u64,
    pub most: u64,
}

pub(crate) const NO_SHARE: Share = Share { least: 0, most: 0 };

// A partner's numbers.
#[derive(Clone, Copy)]
pub struct Partner {
    pub weight: u64,
    pub paid: u64,
    pub taken: u64,
    pub total: u64,
    pub share: Share,
}

// N x weight; a book has no greater ones than these, and their product fits.
fn product(n: u64, weight: u64) -> u64
    ensures { result ≤ 10 ^ 19 }
{
    if Amount::L < n || Book::WEIGHT_SUM < weight {
        return 0;
    }
    n * weight
}

impl Share {
    // A quotient rounded down and up, and noughts for a divisor of 0.
    fn of(n: u64, d: u64) -> Share
        requires { n ≤ 10 ^ 19 }
    {
        if d == 0 {
            return NO_SHARE;
        }
        Share {
            least: n / d,
            most: n.div_ceil(d),
        }
    }

    pub(crate) fn add(&mut self, other: Share) {
        self.least = self.least.wrapping_add(other.least);
        self.most = self.most.wrapping_add(other.most);
    }

    // Whether a sum is between the two.
    pub(crate) fn holds(self, sum: u64) -> bool {
        self.least <= sum && sum <= self.most
    }

    pub(crate) fn put(self, page: &mut Page, style: Option<Line>) {
        put_units(page, b" least ", style, self.least);
        put_units(page, b" most ", style, self.most);
        page.put(b"\n");
    }
}

impl Partner {
    // Paid less taken is the total, which is between its shares.
    pub(crate) fn holds(&self) -> bool {
        self.taken.wrapping_add(self.total) == self.paid && self.share.holds(self.total)
    }

    fn put(&self, page: &mut Page, place: usize, style: Option<Line>) {
        page.put_named(b"partner ", place as u64);
        page.put_named(b" weight ", self.weight);
        put_units(page, b" paid ", style, self.paid);
        put_units(page, b" taken ", style, self.taken);
        put_units(page, b" total ", style, self.total);
        self.share.put(page, style);
    }
}

// W, the sum of the weights.
fn weight_sum(weights: &[u32; Book::PARTNERS]) -> u64 {
    weights
        .iter()
        .fold(0u64, |sum, weight| sum.wrapping_add(u64::from(*weight)))
}

// All partners of an account, on its present card; a book whose totals are refused has totals of 0.
pub(crate) fn partners_of(account: &Account) -> [Partner; Book::PARTNERS] {
    let book = account.book;
    let totals = book.totals().unwrap_or([0; Book::PARTNERS]);
    let n = magnitude(book.net);
    let sum = weight_sum(&book.weights);
    std::array::from_fn(|place| {
        let weight = u64::from(book.weights[place]);
        Partner {
            weight,
            paid: account.tally.posted.payouts[place],
            taken: account.tally.refunded.payouts[place],
            total: totals[place],
            share: Share::of(product(n, weight), sum),
        }
    })
}

// A line for each of the book's partners.
pub(crate) fn put_partners(
    page: &mut Page,
    account: &Account,
    partners: &[Partner; Book::PARTNERS],
) {
    let style = account.style();
    for (place, partner) in partners
        .iter()
        .enumerate()
        .take(usize::from(account.book.count))
    {
        partner.put(page, place, style);
    }
}
