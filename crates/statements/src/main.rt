// The payouts of a quarter's file as statements for partners: standard input, or the file that the first argument names, and a new file that the second names.
#![tactic(auto)]

mod outs;
mod records;
mod turns;

use console::{end_with, open_first};
use turns::write_new;

fn main(rt: HostRuntime) {
    match open_first(
        &rt,
        3,
        b"two arguments: the file to read, and a new file to write\n",
    ) {
        Err(status) => {
            end_with(&rt, status);
        },
        Ok(stream) => {
            end_with(&rt, write_new(&rt, stream));
        },
    }
}
