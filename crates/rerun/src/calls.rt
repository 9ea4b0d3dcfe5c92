// The calls that wait for a run.
ghost use Rattle.std.specs.Prelude.{◌≡◌, ◌<◌, ◌≤◌, ◌↔◌, IsTrue};
ghost use Rattle.rerun.specs.declared.calls.TheConstants.{CALLS};

use crate::accounts::Account;
use crate::tally::Answered;
use book::Book;
use bulk::run;

// The calls of a run.
const CALLS: usize = 8_192;
// A payout to each partner for each call of a run.
const PAYOUTS: usize = CALLS * Book::PARTNERS;

// So many calls, call by call in the lists that `bulk::run` takes, which are the C interface's, and the places for what it answers; and their lines.
#[derive(Drop)]
pub struct Calls {
    pub count: usize,
    pub refunds: [bool; CALLS],
    pub coefficients: [i64; CALLS],
    pub lines: [u64; CALLS],
    pub payouts: [u64; PAYOUTS],
    pub numbers: [u8; CALLS],
    ghost held: { count ≤ CALLS },
}

impl Calls {
    pub(crate) fn new() -> Calls {
        Calls {
            count: 0,
            refunds: [false; CALLS],
            coefficients: [0; CALLS],
            lines: [0; CALLS],
            payouts: [0; PAYOUTS],
            numbers: [0; CALLS],
        }
    }

    // Whether no place is left for a call.
    pub(crate) fn is_full(&self) -> bool
        ensures { IsTrue result ↔ (CALLS ≤ self.now.count) }
    {
        CALLS <= self.count
    }

    // Puts a call behind those that wait.
    pub(crate) fn push(&mut self, refund: bool, coefficient: i64, line: u64)
        requires { self.old.count < CALLS }
    {
        let place = self.count;
        self.refunds[place] = refund;
        self.coefficients[place] = coefficient;
        self.lines[place] = line;
        self.count = place + 1;
    }

    // Serves the calls on an account's book, and counts them there; then none waits. Where none did no run is begun, since a run makes a short
    // book's cycle, also where it serves nothing.
    pub(crate) fn serve(&mut self, account: &mut Account) {
        let count = self.count;
        if count == 0 {
            return;
        }
        let ran = run(
            account.book,
            &self.refunds[..count],
            &self.coefficients[..count],
            &mut self.payouts,
            &mut self.numbers,
        );
        account.book = ran.book;
        for i in 0..ran.served.min(count) {
            let call = Answered {
                refund: self.refunds[i],
                coefficient: self.coefficients[i],
                number: self.numbers[i],
                line: self.lines[i],
            };
            let payouts = std::array::from_fn(|place| self.payouts[i * Book::PARTNERS + place]);
            account.tally.count_call(call, &payouts);
        }
        self.count = 0;
    }
}
