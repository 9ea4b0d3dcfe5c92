// Whether the numbers of a report agree.
use crate::accounts::Account;
use crate::partners::Partner;
use book::Book;
use whole::magnitude;

// The last partner's place.
fn last_of(count: u8) -> u64 {
    u64::from(count).saturating_sub(1)
}

// The partner at whom a check fails: the first for whom something fails; the last where the sums alone don't agree.
pub(crate) fn checked(failing: Option<usize>, agree: bool, count: u8) -> Result<(), u64> {
    match failing {
        Some(place) => Err(place as u64),
        None if agree => Ok(()),
        None => Err(last_of(count)),
    }
}

// A card's check: beside what holds of each partner, the net total is what was posted less what was refunded, and the totals add to it.
pub(crate) fn check_of(account: &Account, partners: &[Partner; Book::PARTNERS]) -> Result<(), u64> {
    let net = magnitude(account.book.net);
    let posted = account.tally.posted.sum;
    let refunded = account.tally.refunded.sum;
    let total = partners
        .iter()
        .fold(0u64, |sum, partner| sum.wrapping_add(partner.total));
    let agree = refunded.wrapping_add(net) == posted && total == net;
    let failing = partners.iter().position(|partner| !partner.holds());
    checked(failing, agree, account.book.count)
}
