// Calls gathered for a run, line by line from the bytes that are held.
ghost use Rattle.std.specs.Prelude.{◌≤◌, length, IfSome};

use crate::accounts::Account;
use crate::calls::Calls;
use crate::tally::Count;
use amount::Amount;
use console::{Feed, first_feed};
use currency::line_of;
use intake::Lead;
use quarter::{Asked, Next, Reading, read_line};

// The lines of one stretch: more than a buffer holds.
const STRETCH: usize = 100_000;

// How far the input is read.
#[derive(Clone, Copy)]
pub struct Progress {
    pub feed: Feed,
    // what is known of the first word of a line that is too long to hold
    pub lead: Lead,
    // how many lines are done, and whether the last has no newline
    pub lines: u64,
    pub unended: bool,
}

// The currency and the digits of the amounts that may wait.
#[derive(Clone, Copy)]
pub struct Own {
    pub currency: u8,
    pub digits: u8,
}

impl Own {
    // Those of an open book. Without a book no call may wait, since every one is refused.
    pub(crate) fn of(account: &Account) -> Option<Own> {
        if !account.is_open() {
            return None;
        }
        let currency = account.book.currency;
        Some(Own {
            currency: currency.0,
            digits: line_of(currency).digits,
        })
    }

    fn has(self, amount: Amount) -> bool {
        amount.currency.0 == self.currency && amount.scale == self.digits
    }
}

impl Progress {
    // Nothing is read yet.
    pub(crate) fn new() -> Progress {
        Progress {
            feed: first_feed(),
            lead: Lead::Spaces,
            lines: 0,
            unended: false,
        }
    }

    // What the bytes held begin with; a line that they begin with is done.
    fn read(&mut self, text: &[u8]) -> Reading
        ensures { (result.start ≤ result.end) × (result.end ≤ length text.now) }
    {
        let read = read_line(text, self.feed, self.lead);
        self.feed = read.feed;
        self.lead = read.lead;
        if let Next::Line(_) = read.next {
            self.lines = self.lines.wrapping_add(1);
            self.unended = read.unended;
        }
        read
    }

    // A stretch of lines: the calls on the book itself wait, and lines that are not understood are counted, until there is something that can't
    // wait, or no place for a call.
    pub(crate) fn gather(
        &mut self,
        text: &[u8],
        own: Option<Own>,
        calls: &mut Calls,
        unknown: &mut Count,
    ) -> Option<Reading>
        ensures { IfSome result (λ read. (read.start ≤ read.end) × (read.end ≤ length text.now)) }
    {
        for _ in 0..STRETCH {
            if calls.is_full() {
                return None;
            }
            let read = self.read(text);
            match read.next {
                Next::Line(Asked::Nothing) => {},
                Next::Line(Asked::Unknown) => unknown.add(self.lines),
                Next::Line(Asked::Call(call)) if own.is_some_and(|own| own.has(call.amount)) => {
                    calls.push(call.refund, call.amount.coefficient, self.lines);
                },
                _ => return Some(read),
            }
        }
        None
    }
}
