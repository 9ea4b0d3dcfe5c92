// From a file to the reports on standard output, stretch by stretch: calls are gathered and run, and what a stretch ends at is dealt with.
ghost use Rattle.std.specs.Prelude.{◌≤◌, length};

use crate::accounts::Account;
use crate::calls::Calls;
use crate::gathering::{Own, Progress};
use crate::reports::{Findings, put_report};
use console::{BLEMISHED, BUFFER, CHECK_FAILED, FAILED, Output, WELL, refill};
use page::Page;
use quarter::{Asked, Next, Opening, Reading};
use std::io::Read;

// More bytes than a report has.
const REPORT: usize = 8_000;
// After so many lines their number is said.
const SAID: u64 = 1_000_000;

// A file run again: how far it is read, the present book, the reports that wait, what they say together, and how many lines were said to be done.
#[derive(Drop)]
pub struct Rerun<'a> {
    pub progress: Progress,
    pub account: Account,
    pub output: Output<'a>,
    pub findings: Findings,
    pub said: u64,
}

// The last line: how far the input was read.
fn put_end(page: &mut Page, progress: Progress) {
    if progress.feed.failed {
        page.put_named(b"end FAILED after ", progress.lines);
        page.put(b" lines\n");
        return;
    }
    page.put_named(b"end ", progress.lines);
    if progress.unended {
        page.put(b" lines, the last one unended\n");
    } else {
        page.put(b" lines\n");
    }
}

impl<'a> Rerun<'a> {
    // Nothing is read yet, and there is no book.
    fn new(bytes: &'a mut [u8]) -> Rerun<'a> {
        Rerun {
            progress: Progress::new(),
            account: Account::none(Opening::Nothing),
            output: Output::new(bytes),
            findings: Findings {
                failed: false,
                blemished: false,
            },
            said: 0,
        }
    }

    // Says how many lines are done, where they are a million more.
    fn say(&mut self, rt: &impl Eprint) {
        let next = self.said.wrapping_add(SAID);
        if self.progress.lines < next {
            return;
        }
        let _ = eprintln!(rt; "{next} lines");
        self.said = next;
    }

    // Puts the report on the present book or card behind those that wait.
    fn report(&mut self, rt: &(impl Print + Eprint), ends: bool) {
        self.output.make_room(rt, REPORT);
        put_report(
            &mut self.output.page,
            &mut self.findings,
            &self.account,
            ends,
        );
    }

    // The book ends, with its report; what comes next takes its place.
    fn end_book(&mut self, rt: &(impl Print + Eprint), calls: &mut Calls, next: Account) {
        calls.serve(&mut self.account);
        self.report(rt, true);
        self.account = next;
    }

    // A new card; a refused one is counted in the part where it stands.
    fn turn_card(&mut self, rt: &(impl Print + Eprint), calls: &mut Calls, line: &[u8]) {
        calls.serve(&mut self.account);
        match self.account.next_card(line) {
            Err(refusal) => self
                .account
                .tally
                .count_number(refusal.number(), self.progress.lines),
            Ok(book) => {
                self.report(rt, false);
                self.account.turn_card(book);
            },
        }
    }

    // Deals with a line that can't wait.
    fn take_line(
        &mut self,
        rt: &(impl Print + Eprint),
        calls: &mut Calls,
        asked: Asked,
        line: &[u8],
    ) {
        let number = self.progress.lines;
        match asked {
            // a stretch passes over these
            Asked::Nothing | Asked::Unknown => {},
            Asked::Open => self.end_book(rt, calls, Account::open(line)),
            Asked::Card => self.turn_card(rt, calls, line),
            Asked::Astray => {
                self.end_book(rt, calls, Account::none(Opening::Unknown));
                self.account.tally.unknown.add(number);
            },
            Asked::Call(call) => self.account.call(call.refund, call.amount, number),
            Asked::Refused(refusal) => self.account.tally.count_number(refusal, number),
        }
    }

    // Whether there is more to do, with what a stretch ended at dealt with.
    fn take(
        &mut self,
        rt: &(impl Print + Eprint),
        reader: &mut impl Read,
        text: &mut [u8],
        calls: &mut Calls,
        read: Reading,
    ) -> bool
        requires { (read.start ≤ read.end) × (read.end ≤ length text.old) }
    {
        match read.next {
            Next::Line(asked) => {
                self.take_line(rt, calls, asked, &text[read.start..read.end]);
                !self.output.failed
            },
            Next::More => {
                self.progress.feed = refill(rt, reader, self.progress.feed, text);
                true
            },
            Next::End => {
                self.end_book(rt, calls, Account::none(Opening::Nothing));
                false
            },
        }
    }

    // Stretch by stretch: calls are gathered, and served where they can wait no more. A proved loop has to end, and nothing says that a file does:
    // the turns are counted up to a number that no run comes to.
    fn run(&mut self, rt: &(impl Print + Eprint), reader: &mut impl Read, text: &mut [u8]) {
        let mut calls = Calls::new();
        for _ in 0..u64::MAX {
            let own = Own::of(&self.account);
            let unknown = &mut self.account.tally.unknown;
            let met = self.progress.gather(text, own, &mut calls, unknown);
            self.say(rt);
            match met {
                None => calls.serve(&mut self.account),
                Some(read) => if !self.take(rt, reader, text, &mut calls, read) {
                    return;
                },
            }
        }
    }

    // Puts the last line, and writes all reports, unless writing failed before.
    fn close(&mut self, rt: &(impl Print + Eprint)) {
        if self.output.failed {
            return;
        }
        self.output.make_room(rt, REPORT);
        put_end(&mut self.output.page, self.progress);
        self.output.write_out(rt);
    }
}

// The status of the end: reading or writing failed, a check did, or a line was not accepted or has no end.
fn status_of(broken: bool, findings: Findings, unended: bool) -> u8 {
    if broken {
        return FAILED;
    }
    if findings.failed {
        return CHECK_FAILED;
    }
    if findings.blemished || unended {
        BLEMISHED
    } else {
        WELL
    }
}

// Runs the lines of what the reader gives, reports, and answers the status.
pub(crate) fn run_file(rt: &(impl Print + Eprint), mut reader: impl Read + Drop) -> u8 {
    let mut text = [0u8; BUFFER];
    let mut out = [0u8; BUFFER];
    let mut rerun = Rerun::new(&mut out);
    rerun.run(rt, &mut reader, &mut text);
    rerun.close(rt);
    let broken = rerun.progress.feed.failed || rerun.output.failed;
    status_of(broken, rerun.findings, rerun.progress.unended)
}
