// From a quarter's file to the statements of its books, line by line.
use crate::outs::{Fault, end_file, put_statement};
use crate::records::Records;
use book::Book;
use console::{BUFFER, FAILED, PATH, WELL, first_feed, path_text, read_path, refill, say_failed};
use currency::Currency;
use intake::Lead;
use quarter::{Asked, Call, Next, Opening, Reading, begin, card_of, read_line};
use std::fs;
use std::fs::{File, OpenFile};
use std::io::{Read, Write};
use std::rt::{Env, Files};

#[derive(Drop)]
pub struct Statements {
    pub reading: Reading,
    // the current book, where an accepted opening made it
    pub book: Option<Book>,
    pub records: Records,
    // a statement is written, but for its last byte
    pub begun: bool,
}

// The book that a line opens; only an accepted opening is a book.
fn opened(line: &[u8]) -> Option<Book> {
    let begun = begin(line);
    match begun.opening {
        Opening::Accepted => Some(begun.book),
        _ => None,
    }
}

impl Statements {
    fn new() -> Statements {
        let reading = Reading {
            feed: first_feed(),
            lead: Lead::Spaces,
            start: 0,
            end: 0,
            unended: false,
            next: Next::More,
        };
        Statements {
            reading,
            book: None,
            records: Records::new(),
            begun: false,
        }
    }

    // Writes a statement of the records that wait.
    fn close(&mut self, writer: &mut impl Write, currency: Currency) -> Result<(), Fault> {
        put_statement(writer, self.begun, currency, &self.records)?;
        self.begun = true;
        self.records.count = 0;
        Ok(())
    }

    // Ends the book: one without a payout has an empty statement.
    fn end_book(&mut self, writer: &mut impl Write) -> Result<(), Fault> {
        let Some(book) = self.book else {
            return Ok(());
        };
        self.close(writer, book.currency)?;
        self.book = None;
        Ok(())
    }

    // Puts the book on the new card that a line asks for, which closes nothing.
    fn go_on_card(&mut self, line: &[u8]) {
        if let Some(book) = self.book {
            self.book = Some(card_of(book, line).book);
        }
    }

    // A posting or a refund. The statement is closed before its records would take it over the most.
    fn pay(&mut self, writer: &mut impl Write, call: Call) -> Result<(), Fault> {
        let Some(book) = self.book else {
            return Ok(());
        };
        let moved = if call.refund {
            book.refund(call.amount)
        } else {
            book.post(call.amount)
        };
        if !self.records.have_room(&moved.payouts) {
            self.close(writer, book.currency)?;
        }
        self.book = Some(moved.book);
        self.records
            .put_paid(&moved.payouts, call.refund, call.reason);
        Ok(())
    }

    // What a line asks for.
    fn take(&mut self, writer: &mut impl Write, asked: Asked, line: &[u8]) -> Result<(), Fault> {
        match asked {
            Asked::Call(call) => self.pay(writer, call)?,
            Asked::Open => {
                self.end_book(writer)?;
                self.book = opened(line);
            },
            Asked::Astray => self.end_book(writer)?,
            Asked::Card => self.go_on_card(line),
            Asked::Nothing | Asked::Unknown | Asked::Refused(_) => {},
        }
        Ok(())
    }

    // The next line is taken, more bytes are read, or the last book is ended; whether it is.
    fn turn(
        &mut self,
        rt: &impl Eprint,
        reader: &mut impl Read,
        writer: &mut impl Write,
        text: &mut [u8],
    ) -> Result<bool, Fault> {
        let reading = read_line(text, self.reading.feed, self.reading.lead);
        self.reading = reading;
        match reading.next {
            Next::Line(asked) => self.take(writer, asked, &text[reading.start..reading.end])?,
            Next::More => self.reading.feed = refill(rt, reader, reading.feed, text),
            Next::End => self.end_book(writer)?,
        }
        Ok(matches!(reading.next, Next::End))
    }

    // Line by line. A proved loop has to end, and nothing says that a file does: the turns are counted, up to a number that no run reaches.
    fn run(
        &mut self,
        rt: &impl Eprint,
        reader: &mut impl Read,
        writer: &mut impl Write,
    ) -> Result<(), Fault> {
        let mut text = [0u8; BUFFER];
        for _ in 0..u64::MAX {
            if self.turn(rt, reader, writer, &mut text)? {
                return Ok(());
            }
        }
        Ok(())
    }
}

// Writes the statements of what the reader gives, and closes the file.
fn write_all(
    rt: &impl Eprint,
    reader: &mut impl Read,
    mut file: impl Write + OpenFile + Drop,
) -> Result<(), Fault> {
    let mut statements = Statements::new();
    statements.run(rt, reader, &mut file)?;
    if statements.reading.feed.failed {
        return Err(Fault::Unread);
    }
    if statements.begun {
        end_file(&mut file)?;
    }
    Ok(())
}

// Says what there is to be said of a file that isn't written whole, which is removed.
fn remove(rt: &(impl Files + Eprint), path: &str, fault: Fault) {
    if let Fault::Unwritten(error) = fault {
        say_failed(rt, "write", error);
    }
    if let Err(error) = fs::remove_file(rt, path) {
        say_failed(rt, path, error);
    }
}

// Writes the statements of what the reader gives to the new file of a path, and answers the status. The file is closed before the status is written,
// which may have its descriptor's number.
fn write_to<R: Files + Eprint>(rt: &R, reader: &mut impl Read, path: &str) -> u8 {
    match File::options().write(true).create_new(true).open(rt, path) {
        Ok(file) => match write_all(rt, reader, file) {
            Ok(()) => WELL,
            Err(fault) => {
                remove(rt, path, fault);
                FAILED
            },
        },
        Err(error) => {
            say_failed(rt, path, error);
            FAILED
        },
    }
}

// Writes the statements of what the reader gives to the new file that the second argument names, and answers the status.
pub(crate) fn write_new<R: Files + Env + Eprint>(rt: &R, mut reader: impl Read + Drop) -> u8 {
    let mut path = [0u8; PATH];
    let Some(length) = read_path(rt, 2, &mut path) else {
        return FAILED;
    };
    let Some(text) = path_text(rt, &path[..length]) else {
        return FAILED;
    };
    write_to(rt, &mut reader, text)
}
