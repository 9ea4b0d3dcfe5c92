// What a book's cards come to, at its end where it has more than one.
use crate::accounts::Account;
use crate::checks::checked;
use crate::partners::{Partner, Share};
use crate::styles::put_units;
use book::Book;
use currency::Line;
use page::Page;
use whole::magnitude;

// A partner's settled and running totals together, and its shares added over the cards.
#[derive(Clone, Copy)]
struct Together {
    sum: u64,
    share: Share,
}

impl Together {
    fn put(&self, page: &mut Page, place: usize, cards: u64, style: Option<Line>) {
        page.put_named(b"settled ", place as u64);
        page.put_named(b" cards ", cards);
        put_units(page, b" together ", style, self.sum);
        self.share.put(page, style);
    }
}

// Where nothing fails for a partner, the sums add to all cards' net totals.
fn check_sums(all: &[Together; Book::PARTNERS], net: u64, count: u8) -> Result<(), u64> {
    let sum = all
        .iter()
        .fold(0u64, |sum, partner| sum.wrapping_add(partner.sum));
    let failing = all
        .iter()
        .position(|partner| !partner.share.holds(partner.sum));
    checked(failing, sum == net, count)
}

// A line for each of the book's partners, and the check to be put behind them.
pub(crate) fn put_together(
    page: &mut Page,
    account: &Account,
    partners: &[Partner; Book::PARTNERS],
) -> Result<(), u64> {
    let book = account.book;
    let style = account.style();
    let mut cards = account.cards;
    cards.add(magnitude(book.net), partners);
    let all = std::array::from_fn(|place| Together {
        sum: magnitude(book.settled[place]).wrapping_add(partners[place].total),
        share: cards.shares[place],
    });
    for (place, partner) in all.iter().enumerate().take(usize::from(book.count)) {
        partner.put(page, place, cards.count, style);
    }
    check_sums(&all, cards.net, book.count)
}
