// What is counted of a book's lines.
use book::Book;
use refusal::Refusal;
use whole::magnitude;

// The numbers of the table of refusals, and 0 for a call that is accepted.
const NUMBERS: usize = Refusal::LAST as usize + 1;

// How many lines were counted, and the first of them.
#[derive(Clone, Copy)]
pub struct Count {
    pub times: u64,
    pub first: u64,
}

const NO_LINES: Count = Count { times: 0, first: 0 };

impl Count {
    // Counts a line. A call that can't wait is counted before those that do, so that an earlier line may come later.
    pub(crate) fn add(&mut self, line: u64) {
        if self.times == 0 || line < self.first {
            self.first = line;
        }
        self.times = self.times.wrapping_add(1);
    }
}

// The accepted postings, or the accepted refunds: the sum of their coefficients, and of what each partner got by them, or gave back.
#[derive(Clone, Copy)]
pub struct Side {
    pub sum: u64,
    pub payouts: [u64; Book::PARTNERS],
}

const NO_CALLS: Side = Side {
    sum: 0,
    payouts: [0; Book::PARTNERS],
};

impl Side {
    // All sums are made before one is stored, so that the places don't wait for one another.
    fn add(&mut self, coefficient: i64, payouts: &[u64; Book::PARTNERS]) {
        self.sum = self.sum.wrapping_add(magnitude(coefficient));
        let before = self.payouts;
        self.payouts = std::array::from_fn(|place| before[place].wrapping_add(payouts[place]));
    }
}

// A call that was served: what it moves, the number that it was answered with, and its line.
#[derive(Clone, Copy)]
pub struct Answered {
    pub refund: bool,
    pub coefficient: i64,
    pub number: u8,
    pub line: u64,
}

#[derive(Clone, Copy)]
pub struct Tally {
    // the lines of the calls that got each number
    pub numbers: [Count; NUMBERS],
    // the lines that were not understood
    pub unknown: Count,
    pub posted: Side,
    pub refunded: Side,
}

pub(crate) const NOTHING: Tally = Tally {
    numbers: [NO_LINES; NUMBERS],
    unknown: NO_LINES,
    posted: NO_CALLS,
    refunded: NO_CALLS,
};

// How many lines were counted.
fn times(counts: &[Count]) -> u64 {
    counts
        .iter()
        .fold(0u64, |sum, count| sum.wrapping_add(count.times))
}

impl Tally {
    // How many calls were accepted, and how many were refused.
    pub(crate) fn accepted(&self) -> u64 {
        self.numbers[0].times
    }

    pub(crate) fn refused(&self) -> u64 {
        times(&self.numbers[1..])
    }

    // Whether no line is counted.
    pub(crate) fn is_empty(&self) -> bool {
        times(&self.numbers) == 0 && self.unknown.times == 0
    }

    // Whether every line is a call that was accepted.
    pub(crate) fn is_clean(&self) -> bool {
        self.refused() == 0 && self.unknown.times == 0
    }

    // Counts a line with its number.
    pub(crate) fn count_number(&mut self, number: u8, line: u64) {
        if let Some(count) = self.numbers.get_mut(usize::from(number)) {
            count.add(line);
        }
    }

    // Counts a call with its payouts; a refused call moves nothing.
    pub(crate) fn count_call(&mut self, call: Answered, payouts: &[u64; Book::PARTNERS]) {
        self.count_number(call.number, call.line);
        if call.number != 0 {
            return;
        }
        if call.refund {
            self.refunded.add(call.coefficient, payouts);
        } else {
            self.posted.add(call.coefficient, payouts);
        }
    }
}
