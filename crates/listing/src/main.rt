// The statements of a file, walked from its end, the last one first, and what is before them.
#![tactic(auto)]

mod ends;
mod outs;
mod walks;

use console::{end_with, open_first};
use walks::walk_stream;

fn main(rt: HostRuntime) {
    match open_first(&rt, 2, b"one argument: the file to walk\n") {
        Err(status) => {
            end_with(&rt, status);
        },
        Ok(stream) => {
            end_with(&rt, walk_stream(&rt, stream));
        },
    }
}
