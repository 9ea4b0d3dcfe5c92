// What a book's cards come to together.
use crate::partners::{NO_SHARE, Partner, Share};
use book::Book;

// How many cards, their net totals together, and each partner's shares added over the cards.
#[derive(Clone, Copy)]
pub struct Cards {
    pub count: u64,
    pub net: u64,
    pub shares: [Share; Book::PARTNERS],
}

pub(crate) const NO_CARDS: Cards = Cards {
    count: 0,
    net: 0,
    shares: [NO_SHARE; Book::PARTNERS],
};

impl Cards {
    // Adds a card, by its net total and its partners.
    pub(crate) fn add(&mut self, net: u64, partners: &[Partner; Book::PARTNERS]) {
        self.count = self.count.wrapping_add(1);
        self.net = self.net.wrapping_add(net);
        for (share, partner) in self.shares.iter_mut().zip(partners) {
            share.add(partner.share);
        }
    }
}
