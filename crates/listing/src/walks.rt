// The walk over a file from its end, statement by statement.
use crate::ends::{Ending, Unread};
use crate::outs::{put_other, put_statement};
use console::{BUFFER, FAILED, Output, Stream, WELL, say_failed};
use statement::check_any;
use std::io::{Error, ErrorKind, Read, Seek};
use std::os::unix::fs::FileTypeExt;
use std::rt::Files;
use std::{fs, io};

// Some statements at once, so that a file of many small ones is not read many times over.
const HELD: usize = 262_144;

// Standard input by its name.
const STANDARD: &str = "/proc/self/fd/0";

// Puts the statement that the bytes held end in; where they end in none, what is left, and nothing is left then.
fn step(rt: &(impl Print + Eprint), ending: &mut Ending, bytes: &[u8], output: &mut Output) {
    match check_any(bytes) {
        Ok(found) => {
            put_statement(rt, bytes, found, output);
            ending.drop_from(found.summary.first);
        },
        Err(_) => {
            put_other(rt, ending.left, output);
            ending.left = 0;
        },
    }
}

// Statement by statement. Each is shorter than what was left before it; the steps are counted, up to a number that no file has.
fn walk_all(
    rt: &(impl Print + Eprint),
    file: &mut (impl Read + Seek),
    output: &mut Output,
) -> Result<(), Unread> {
    let mut buffer = [0u8; HELD];
    let mut ending = Ending::of(rt, file)?;
    for _ in 0..u64::MAX {
        if output.failed || ending.left == 0 {
            return Ok(());
        }
        ending.hold(rt, file, &mut buffer)?;
        let bytes = buffer.get(..ending.held).unwrap_or(&buffer);
        step(rt, &mut ending, bytes, output);
    }
    Ok(())
}

// Prints the statements of the file, and answers the status; what was printed before reading failed stands.
fn walk_file(rt: &(impl Print + Eprint), mut file: impl Read + Seek + Drop) -> u8 {
    let mut bytes = [0u8; BUFFER];
    let mut output = Output::new(&mut bytes);
    let walked = walk_all(rt, &mut file, &mut output);
    output.write_out(rt);
    if walked.is_err() || output.failed {
        FAILED
    } else {
        WELL
    }
}

// Standard input once more, as a file that can be read from any place of it. One that can't be read at all is not opened: by its name it could be.
// Nor is a pipe, which has no places, and whose opening waits for one that writes.
fn open_again<R: Files>(rt: &R, mut input: impl Read + Drop) -> io::Result<R::File> {
    input.read(&mut [])?;
    if fs::metadata(rt, STANDARD)?.file_type().is_fifo() {
        return Err(Error::from(ErrorKind::NotSeekable));
    }
    fs::open(rt, STANDARD)
}

// Prints the statements of what a stream gives, and answers the status.
pub(crate) fn walk_stream<R: Files + Input + Print + Eprint>(
    rt: &R,
    stream: Stream<R::Reader, R::File>,
) -> u8 {
    match stream {
        Stream::Named(file) => walk_file(rt, file),
        Stream::Standard(input) => match open_again(rt, input) {
            Ok(file) => walk_file(rt, file),
            Err(error) => {
                say_failed(rt, "read", error);
                FAILED
            },
        },
    }
}
