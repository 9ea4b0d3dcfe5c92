// Records that wait for their statement's end.
ghost use Rattle.std.specs.Prelude.{◌≤◌};

use book::Book;
use statement::RECORDS;
use whole::signed;

// In three lists, as a statement is written from them: places, codes of reasons and coefficients, of which the first so many wait.
#[derive(Drop)]
pub struct Records {
    pub count: usize,
    pub places: [u16; RECORDS],
    pub reasons: [u16; RECORDS],
    pub coefficients: [i64; RECORDS],
}

impl Records {
    pub(crate) fn new() -> Records {
        Records {
            count: 0,
            places: [0; RECORDS],
            reasons: [0; RECORDS],
            coefficients: [0; RECORDS],
        }
    }

    // Whether there is a place for each payout above 0.
    pub(crate) fn have_room(&self, payouts: &[u64; Book::PARTNERS]) -> bool {
        let paid = payouts.iter().filter(|payout| 0 < **payout).count();
        self.count <= RECORDS - paid
    }

    // A record behind the others, where there is a place for it.
    fn put(&mut self, place: u16, reason: u16, coefficient: i64) {
        let at = self.count;
        if RECORDS <= at {
            return;
        }
        self.places[at] = place;
        self.reasons[at] = reason;
        self.coefficients[at] = coefficient;
        self.count = at + 1;
    }

    // A record for each payout above 0, with a negative coefficient where it was taken back.
    pub(crate) fn put_paid(&mut self, payouts: &[u64; Book::PARTNERS], refund: bool, reason: u16) {
        for (place, payout) in payouts.iter().enumerate() {
            if 0 < *payout {
                self.put(place as u16, reason, signed(refund, *payout));
            }
        }
    }
}
