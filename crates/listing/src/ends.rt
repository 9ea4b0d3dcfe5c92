// A file read from its end: the bytes before a place of it, of which the last are held.
ghost use Rattle.std.specs.Prelude.{◌≡◌, ◌<◌, ◌≤◌, length, Ok, IfOk};

use console::{say, say_failed};
use statement::{RECORD_WITH_REASON, RECORDS, TRAILER};
use std::io;
use std::io::{Read, Seek, SeekFrom};

// The longest statement.
const LONGEST: usize = RECORDS * RECORD_WITH_REASON + TRAILER;

// Reading failed, and why is said.
#[derive(Clone, Copy)]
pub struct Unread;

// So many bytes of the file are left, and so many of these, their last, are held at the front of a buffer.
#[derive(Clone, Copy)]
pub struct Ending {
    pub left: u64,
    pub held: usize,
}

// What was read, or was sought; else what failed is said.
fn said<T>(rt: &impl Eprint, what: &str, answer: io::Result<T>) -> Result<T, Unread>
    ensures { IfOk result (λ value. answer ≡ Ok value) }
{
    match answer {
        Ok(value) => Ok(value),
        Err(error) => {
            say_failed(rt, what, error);
            Err(Unread)
        },
    }
}

// Nothing can be read where the file stands, at its end: it is a folder's and a pipe's that can't be told.
fn check_end(rt: &impl Eprint, file: &mut impl Read) -> Result<(), Unread> {
    let mut byte = [0u8; 1];
    let more = said(rt, "read", file.read(&mut byte))?;
    if more != 0 {
        say(rt, b"read: the file has no end\n");
        return Err(Unread);
    }
    Ok(())
}

// One read of the bytes from a place of the file on; how many they are.
fn read_part(
    rt: &impl Eprint,
    file: &mut (impl Read + Seek),
    place: u64,
    bytes: &mut [u8],
) -> Result<usize, Unread>
    ensures { IfOk result (λ more. (0 < more) × (more ≤ length bytes.old)) }
{
    said(rt, "seek", file.seek(SeekFrom::Start(place)))?;
    let more = said(rt, "read", file.read(bytes))?;
    if more == 0 {
        say(rt, b"read: the file has become shorter\n");
        return Err(Unread);
    }
    Ok(more)
}

// Reads the bytes from a place of the file on. A `while`: each read adds as many bytes as it gave.
fn read_whole(
    rt: &impl Eprint,
    file: &mut (impl Read + Seek),
    place: u64,
    bytes: &mut [u8],
) -> Result<(), Unread> {
    let mut done = 0;
    while done < bytes.len() {
        let from = place.wrapping_add(done as u64);
        done += read_part(rt, file, from, &mut bytes[done..])?;
    }
    Ok(())
}

impl Ending {
    // All of the file is left, and nothing is held.
    pub(crate) fn of(rt: &impl Eprint, file: &mut (impl Read + Seek)) -> Result<Ending, Unread> {
        let left = said(rt, "seek", file.seek(SeekFrom::End(0)))?;
        check_end(rt, file)?;
        Ok(Ending { left, held: 0 })
    }

    // Holds enough bytes for the longest statement, or all that are left. They are read again only where too few are held.
    pub(crate) fn hold(
        &mut self,
        rt: &impl Eprint,
        file: &mut (impl Read + Seek),
        buffer: &mut [u8],
    ) -> Result<(), Unread> {
        if LONGEST <= self.held || self.left <= self.held as u64 {
            return Ok(());
        }
        let count = self.left.min(buffer.len() as u64);
        read_whole(rt, file, self.left - count, &mut buffer[..count as usize])?;
        self.held = count as usize;
        Ok(())
    }

    // Keeps the bytes before a statement that starts at a place among those that are held.
    pub(crate) fn drop_from(&mut self, first: usize) {
        self.left = self
            .left
            .saturating_sub(self.held.saturating_sub(first) as u64);
        self.held = first;
    }
}
