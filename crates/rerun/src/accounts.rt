// The current book with what is counted of it on its card, and what its cards before come to.
use crate::cards::{Cards, NO_CARDS};
use crate::partners::{Partner, partners_of};
use crate::tally::{Answered, NOTHING, Tally};
use amount::Amount;
use book::{Book, Moved};
use currency::{Line, line_of};
use quarter::{Opening, begin, card_of, no_book};
use refusal::{Refusal, number_in};
use whole::magnitude;

#[derive(Clone, Copy)]
pub struct Account {
    pub opening: Opening,
    pub book: Book,
    // its currency was given by its code
    pub coded: bool,
    pub tally: Tally,
    pub cards: Cards,
}

fn move_by(book: Book, refund: bool, amount: Amount) -> Moved {
    if refund {
        book.refund(amount)
    } else {
        book.post(amount)
    }
}

impl Account {
    // The book whose every field is 0, before any opening and after one that is not understood.
    pub(crate) fn none(opening: Opening) -> Account {
        Account {
            opening,
            book: no_book(),
            coded: false,
            tally: NOTHING,
            cards: NO_CARDS,
        }
    }

    // The opening that a line asks for.
    pub(crate) fn open(line: &[u8]) -> Account {
        let begun = begin(line);
        Account {
            opening: begun.opening,
            book: begun.book,
            coded: begun.coded,
            tally: NOTHING,
            cards: NO_CARDS,
        }
    }

    // Whether the book was opened as asked.
    pub(crate) fn is_open(&self) -> bool {
        matches!(self.opening, Opening::Accepted)
    }

    // Whether there is nothing to report: before any opening that is so where no line is counted.
    pub(crate) fn is_silent(&self) -> bool {
        matches!(self.opening, Opening::Nothing) && self.tally.is_empty()
    }

    // Its currency's line where it was opened by the code: then that is put, and its sums as texts at the currency's digits. Else all are numbers.
    pub(crate) fn style(&self) -> Option<Line> {
        if self.coded {
            Some(line_of(self.book.currency))
        } else {
            None
        }
    }

    // Serves and counts one call. An amount that is not in the book's currency at its own digits is refused at any net total, so that such a
    // call may go before those that wait.
    pub(crate) fn call(&mut self, refund: bool, amount: Amount, line: u64) {
        let moved = move_by(self.book, refund, amount);
        self.book = moved.book;
        let call = Answered {
            refund,
            coefficient: amount.coefficient,
            number: number_in(&moved.outcome),
            line,
        };
        self.tally.count_call(call, &moved.payouts);
    }

    // The book on the new card that a line asks for.
    pub(crate) fn next_card(&self, line: &[u8]) -> Result<Book, Refusal> {
        let moved = card_of(self.book, line);
        moved.outcome?;
        Ok(moved.book)
    }

    // Goes on with the book on a new card, on which nothing is counted yet.
    pub(crate) fn turn_card(&mut self, book: Book) {
        let partners = partners_of(self);
        self.cards.add(magnitude(self.book.net), &partners);
        self.book = book;
        self.tally = NOTHING;
    }
}
