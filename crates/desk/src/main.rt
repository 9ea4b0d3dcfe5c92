// The library at a prompt: one answer line for each line of standard input, or of the file that the one argument names.
#![tactic(auto)]

mod answers;
mod asking;
mod books;
mod calls;
mod columns;
mod hearing;
mod lists;
mod readers;
mod statements;
mod texts;
mod turns;

use console::{end_with, open_source};
use turns::answer_file;

fn main(rt: HostRuntime) {
    match open_source(&rt) {
        Err(status) => {
            end_with(&rt, status);
        },
        Ok(stream) => {
            end_with(&rt, answer_file(&rt, stream));
        },
    }
}
