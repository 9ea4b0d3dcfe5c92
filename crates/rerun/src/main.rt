// A quarter again: the postings and refunds of standard input, or of the file that the one argument names, and a report on each book.
#![tactic(auto)]

mod accounts;
mod calls;
mod cards;
mod checks;
mod gathering;
mod partners;
mod reports;
mod styles;
mod tally;
mod together;
mod turns;

use console::{FAILED, end_with, open_source};
use turns::run_file;

fn main(rt: HostRuntime) {
    match open_source(&rt) {
        Err(status) => {
            if status == FAILED {
                let _ = println!(rt; "end FAILED after 0 lines");
            }
            end_with(&rt, status);
        },
        Ok(stream) => {
            end_with(&rt, run_file(&rt, stream));
        },
    }
}
