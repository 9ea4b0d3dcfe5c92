// The calls that take the current book or leave another one.
use crate::answers::{Fault, put_coefficient, put_list, put_payout};
use crate::hearing::{given, hear};
use book::{Book, Moved};
use console::Verb;
use currency::{Currency, line_of};
use intake::{amount_at, nth, read_weights};
use lines::{NOUGHT, Number};
use page::Page;
use quarter::no_book;
use refusal::Refusal;

// One weight more than a book takes: too many are refused by the library.
const WEIGHTS: usize = Book::PARTNERS + 1;

// The numbers that are kept of a line: a currency and the weights behind it.
const NUMBERS: usize = WEIGHTS + 1;

// The current book, and the scale of its texts where its currency was given by its code.
#[derive(Clone, Copy)]
pub struct Current {
    pub book: Book,
    pub scale: Option<u8>,
}

// Whether a verb takes the current book or leaves another one.
pub(crate) fn is_booked(verb: Verb) -> bool {
    matches!(
        verb,
        Verb::Open | Verb::Post | Verb::Refund | Verb::Totals | Verb::Card | Verb::Settled
    )
}

impl Current {
    // The current book before any opening, and after a refused one.
    pub(crate) fn new() -> Current {
        Current {
            book: no_book(),
            scale: None,
        }
    }

    // The current book is the one that is opened; after a refusal there is none.
    fn open(&mut self, coded: bool, numbers: &[Number], page: &mut Page) -> Result<(), Refusal> {
        *self = Current::new();
        let currency = Currency(nth(numbers, 0).as_u8());
        let mut weights = [0u32; WEIGHTS];
        let partners = read_weights(numbers, 1, numbers.len(), &mut weights);
        self.book = Book::open(currency, &weights[..partners])?;
        if coded {
            self.scale = Some(line_of(currency).digits);
        }
        page.put(b"= open");
        Ok(())
    }

    // The current book on a new card.
    fn card(&mut self, numbers: &[Number], page: &mut Page) -> Result<(), Refusal> {
        let mut weights = [0u32; WEIGHTS];
        let partners = read_weights(numbers, 0, numbers.len(), &mut weights);
        let moved = self.book.card(&weights[..partners]);
        moved.outcome?;
        self.book = moved.book;
        page.put_named(b"= card ", u64::from(self.book.card));
        Ok(())
    }

    // The card's number and the settled totals of the current book.
    fn put_settled(&self, page: &mut Page) -> Result<(), Refusal> {
        self.book.check(false, false)?;
        page.put_named(b"= ", u64::from(self.book.card));
        put_list(page, self.scale, &self.book.settled, Book::PARTNERS);
        Ok(())
    }

    // The net total, and a number for each of the book's places.
    fn put_row(&self, row: &[u64], page: &mut Page) {
        page.put(b"=");
        put_coefficient(page, self.scale, self.book.net);
        for n in row {
            put_payout(page, self.scale, *n);
        }
    }

    // The book after a posting or a refund, and its payouts; a refused one has moved nothing.
    fn put_moved(&mut self, moved: Moved, page: &mut Page) -> Result<(), Refusal> {
        moved.outcome?;
        self.book = moved.book;
        self.put_row(&moved.payouts, page);
        Ok(())
    }

    fn put_totals(&self, page: &mut Page) -> Result<(), Refusal> {
        let totals = self.book.totals()?;
        self.put_row(&totals, page);
        Ok(())
    }

    // The answer to a verb of the book whose words stand from a place on.
    pub(crate) fn put_asked(
        &mut self,
        verb: Verb,
        line: &[u8],
        from: usize,
        page: &mut Page,
    ) -> Result<(), Fault> {
        let mut list = [NOUGHT; NUMBERS];
        let heard = hear(verb, line, from, &mut list)?;
        let numbers = given(&list, heard.count);
        match verb {
            Verb::Open => self.open(heard.coded, numbers, page)?,
            Verb::Post => {
                let moved = self.book.post(amount_at(numbers, 0));
                self.put_moved(moved, page)?
            },
            Verb::Refund => {
                let moved = self.book.refund(amount_at(numbers, 0));
                self.put_moved(moved, page)?
            },
            Verb::Totals => self.put_totals(page)?,
            Verb::Card => self.card(numbers, page)?,
            Verb::Settled => self.put_settled(page)?,
            _ => return Err(Fault::Unknown),
        }
        Ok(())
    }
}
