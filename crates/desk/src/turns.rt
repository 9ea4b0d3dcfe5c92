// Line by line from a file to standard output: the bytes that are held and the answers that wait have a buffer each.
use crate::answers::{Fault, put_fault};
use crate::asking::put_asked;
use crate::books::{Current, is_booked};
use crate::statements::LISTED;
use console::{BUFFER, FAILED, Feed, Output, WELL, first_feed, next_cut, refill, verb_of};
use intake::{Found, asks_nothing, next_word};
use lines::{NOUGHT, Number};
use std::io::Read;

// More bytes than an answer has: the longest is a comment of 4,000.
const ANSWER: usize = 5_000;

#[derive(Drop)]
pub struct Desk<'a> {
    pub feed: Feed,
    pub output: Output<'a>,
    pub current: Current,
    // for the numbers of a line that needs no book
    pub numbers: &'a mut [Number],
}

impl<'a> Desk<'a> {
    fn new(out: &'a mut [u8], numbers: &'a mut [Number]) -> Desk<'a> {
        Desk {
            feed: first_feed(),
            output: Output::new(out),
            current: Current::new(),
            numbers,
        }
    }

    // Puts a line's answer behind those that wait. Whether the line was one of the book's.
    fn answer(&mut self, line: &[u8]) -> bool {
        if asks_nothing(line) {
            self.output.page.put(line);
            return false;
        }
        let word = next_word(line, 0);
        let verb = verb_of(&line[word.start..word.end]);
        let page = &mut self.output.page;
        let booked = is_booked(verb);
        let answered = if booked {
            self.current.put_asked(verb, line, word.end, page)
        } else {
            put_asked(verb, line, word.end, self.numbers, page)
        };
        if let Err(fault) = answered {
            put_fault(page, fault);
        }
        booked
    }

    // The next thing to do: a line is answered, more bytes are read, or the end is there. Whether there may be more to do.
    fn turn(
        &mut self,
        rt: &(impl Print + Eprint),
        reader: &mut impl Read,
        text: &mut [u8],
    ) -> bool {
        let failed = self.output.failed;
        let cut = next_cut(text, self.feed);
        self.feed.intake = cut.next;
        self.output.make_room(rt, ANSWER);
        match cut.found {
            Found::Line => {
                let booked = self.answer(&text[cut.start..cut.end]);
                self.output.page.put(b"\n");
                // a failed write is followed by one turn more, where the line was none of the book's: what is said of it may not change
                if !booked {
                    return !failed;
                }
            },
            Found::Long => {
                put_fault(&mut self.output.page, Fault::Unknown);
                self.output.page.put(b"\n");
            },
            // the answers are written before more is read, so that none waits for bytes that are slow to come
            Found::More => {
                self.output.write_out(rt);
                self.feed = refill(rt, reader, self.feed, text);
            },
            Found::Nothing => {
                self.output.write_out(rt);
                return false;
            },
        }
        !self.output.failed
    }

    // A proved loop has to end, and nothing says that a file does: no run has so many turns.
    fn answer_all(&mut self, rt: &(impl Print + Eprint), reader: &mut impl Read, text: &mut [u8]) {
        for _ in 0..u64::MAX {
            if !self.turn(rt, reader, text) {
                return;
            }
        }
    }
}

// Answers each line of what the reader gives, and answers the status.
pub(crate) fn answer_file(rt: &(impl Print + Eprint), mut reader: impl Read + Drop) -> u8 {
    let mut text = [0u8; BUFFER];
    let mut out = [0u8; BUFFER];
    let mut numbers = [NOUGHT; LISTED];
    let mut desk = Desk::new(&mut out, &mut numbers);
    desk.answer_all(rt, &mut reader, &mut text);
    if desk.output.failed || desk.feed.failed {
        FAILED
    } else {
        WELL
    }
}
