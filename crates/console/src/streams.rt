// What a program reads, byte after byte.
use crate::Stream;
use std::io::{Read, Result};

impl<I: Read, F: Read> Read for Stream<I, F> {
    fn read(&mut self, buf: &mut [u8]) -> Result<usize> {
        match self {
            Stream::Standard(input) => input.read(buf),
            Stream::Named(file) => file.read(buf),
        }
    }
}
