// A program's start and end: the file that its one argument names, or standard input; and the status, which goes as one digit to descriptor 3.
ghost use Rattle.std.specs.Prelude.{◌≡◌, ◌+◌, ◌≤◌, ◌<◌, length, IfSome};
ghost use Rattle.console.specs.Sources.{end_of};

use crate::said::{say, say_failed};
use crate::verbs::same;
use crate::{FAILED, MISUSED, PATH, Stream};
use std::env::FillError;
use std::fs::File;
use std::io::Write;
use std::rt::{Env, Files};
use std::str::from_utf8;
use std::{fs, io};

// Descriptor 3 by its name.
const STATUS: &str = "/proc/self/fd/3";

// Whether the command has a word at a place, its own name being the first.
fn has_word(rt: &impl Env, place: usize) -> bool {
    match rt.arg(place, &mut []) {
        Err(FillError::NotPresent) => false,
        _ => true,
    }
}

// How many words the command has.
fn count_words(rt: &impl Env) -> usize {
    for place in 0..usize::MAX {
        if !has_word(rt, place) {
            return place;
        }
    }
    usize::MAX
}

// Puts the path that a word of the command names at the front of a buffer, and answers its length; none for one that is too long.
pub fn read_path(rt: &(impl Env + Eprint), place: usize, path: &mut [u8]) -> Option<usize>
    ensures { IfSome result (λ n. n ≤ length path.new) }
{
    match rt.arg(place, path) {
        Ok(length) => Some(length),
        Err(FillError::TooLong) => {
            say(rt, b"path: File name too long\n");
            None
        },
        Err(FillError::NotPresent) => {
            say(rt, b"path: Invalid argument\n");
            None
        },
    }
}

// The text of a path; none for one that is no text, since only a text can be opened.
pub fn path_text<'a>(rt: &impl Eprint, path: &'a [u8]) -> Option<&'a str>
    ensures { IfSome result (λ text. text.now ≡ path.now) }
{
    match from_utf8(path) {
        Ok(text) => Some(text),
        Err(_) => {
            say(rt, b"path: the name is not UTF-8\n");
            None
        },
    }
}

// The file of a path.
fn open_path<R: Files + Input + Eprint>(
    rt: &R,
    path: &[u8],
) -> Result<Stream<R::Reader, R::File>, u8>
    ensures { (2 ≤ end_of result) × (end_of result ≤ 3) }
{
    let Some(text) = path_text(rt, path) else {
        return Err(FAILED);
    };
    match fs::open(rt, text) {
        Ok(file) => Ok(Stream::Named(file)),
        Err(error) => {
            say_failed(rt, text, error);
            Err(FAILED)
        },
    }
}

// The file that the first argument names; `-` is standard input.
fn open_file<R: Files + Env + Input + Eprint>(rt: &R) -> Result<Stream<R::Reader, R::File>, u8>
    ensures { (2 ≤ end_of result) × (end_of result ≤ 3) }
{
    let mut path = [0u8; PATH];
    let Some(length) = read_path(rt, 1, &mut path) else {
        return Err(FAILED);
    };
    if same(&path[..length], b"-") {
        return Ok(Stream::Standard(rt.reader()));
    }
    open_path(rt, &path[..length])
}

// What a program reads that has so many words in its command, its own name among them: with any other number of them it ends with status 2,
// and says how it is used.
pub fn open_first<R: Files + Env + Input + Eprint>(
    rt: &R,
    count: usize,
    usage: &[u8],
) -> Result<Stream<R::Reader, R::File>, u8>
    ensures { (2 ≤ end_of result) × (end_of result ≤ 3) }
{
    if count_words(rt) == count {
        return open_file(rt);
    }
    say(rt, usage);
    Err(MISUSED)
}

// What the program reads; where there is nothing to read, it ends with status 2 or 3.
pub fn open_source<R: Files + Env + Input + Eprint>(
    rt: &R,
) -> Result<Stream<R::Reader, R::File>, u8>
    ensures { (2 ≤ end_of result) × (end_of result ≤ 3) }
{
    if count_words(rt) < 2 {
        return Ok(Stream::Standard(rt.reader()));
    }
    open_first(rt, 2, b"one argument at most: the file to read\n")
}

// Writes the digit behind what the descriptor's file has, where it is open to be written. One that is only read may be the user's own, and is left alone.
fn write_digit(rt: &impl Files, digit: u8) -> io::Result<()> {
    if fs::symlink_metadata(rt, STATUS)?.permissions().readonly() {
        return Ok(());
    }
    let mut file = File::options().append(true).open(rt, STATUS)?;
    file.write_all(&[digit])
}

// Writes the status, and answers its digit. That the descriptor is closed, or is the file that was read, is no error.
pub fn end_with(rt: &impl Files, status: u8) -> u8
    ensures { status < 10 → result ≡ 48 + status }
{
    if 9 < status {
        return b'0';
    }
    let digit = b'0' + status;
    let _ = write_digit(rt, digit);
    digit
}
