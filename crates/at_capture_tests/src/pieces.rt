//! A reader for tests, which gives a few bytes at a time.
use std::io;
use std::io::{ErrorKind, Read};

/// A reader that gives a few bytes at a time, and is interrupted before each read. At the end of its bytes it may fail.
#[derive(Drop)]
pub(crate) struct Pieces<'a> {
    pub rest: &'a [u8],
    /// The most bytes that a read gives.
    pub most: usize,
    pub fails: bool,
    pub was_interrupted: bool,
}

impl<'a> Pieces<'a> {
    /// A reader of these bytes, so many at a time.
    pub(crate) fn of(bytes: &'a [u8], most: usize) -> Pieces<'a> {
        Pieces {
            rest: bytes,
            most,
            fails: false,
            was_interrupted: false,
        }
    }
}

impl Read for Pieces<'_> {
    fn read(&mut self, buf: &mut [u8]) -> io::Result<usize> {
        self.was_interrupted = !self.was_interrupted;
        if self.was_interrupted {
            return Err(io::Error::from(ErrorKind::Interrupted));
        }
        if self.rest.is_empty() && self.fails {
            return Err(io::Error::from(ErrorKind::Other));
        }
        let count = self.most.min(self.rest.len()).min(buf.len());
        buf[..count].copy_from_slice(&self.rest[..count]);
        self.rest = &self.rest[count..];
        Ok(count)
    }
}
