//! A reader and a writer that count what they are asked.
use std::io::{self, Read, Write};

/// Gives these bytes, as many as are asked for; then it ends, or fails each time where it is broken. Counts its reads
/// and the bytes that they asked for.
#[derive(Clone, Copy)]
pub(crate) struct Source<'a> {
    pub(crate) left: &'a [u8],
    pub(crate) broken: bool,
    pub(crate) reads: u64,
    pub(crate) asked: u64,
}

impl Source<'_> {
    /// One that gives these bytes.
    pub(crate) fn new(left: &[u8], broken: bool) -> Source<'_> {
        Source {
            left,
            broken,
            reads: 0,
            asked: 0,
        }
    }
}

impl Read for Source<'_> {
    fn read(&mut self, buf: &mut [u8]) -> io::Result<usize> {
        self.reads = self.reads.wrapping_add(1);
        self.asked = self.asked.wrapping_add(buf.len() as u64);
        match self.left.split_first() {
            Some((first, rest)) => {
                if buf.is_empty() {
                    return Ok(0);
                }
                buf[0] = *first;
                self.left = rest;
                Ok(1)
            }
            None if self.broken => Err(io::Error::from(io::ErrorKind::Interrupted)),
            None => Ok(0),
        }
    }
}

/// Takes so many bytes, one a call; then it fails, or takes none. Keeps the first 1,024 of them, and counts its
/// flushes.
#[derive(Clone, Copy)]
pub(crate) struct Sink {
    kept: [u8; 1024],
    count: usize,
    pub(crate) room: usize,
    pub(crate) broken: bool,
    pub(crate) writes: u64,
    pub(crate) flushes: u64,
}

impl Sink {
    /// One that holds nothing yet.
    pub(crate) fn new(room: usize, broken: bool) -> Sink {
        Sink {
            kept: [0; 1024],
            count: 0,
            room,
            broken,
            writes: 0,
            flushes: 0,
        }
    }

    /// Whether it took these bytes, at most 1,024 of them, and no more.
    pub(crate) fn took(&self, bytes: &[u8]) -> bool {
        self.kept.get(..self.count) == Some(bytes)
    }

    /// Takes a byte.
    fn take(&mut self, byte: u8) {
        if self.count < 1024 {
            self.kept[self.count] = byte;
        }
        self.count = self.count.wrapping_add(1);
    }
}

impl Write for Sink {
    fn write(&mut self, buf: &[u8]) -> io::Result<usize> {
        self.writes = self.writes.wrapping_add(1);
        if self.count >= self.room && self.broken {
            return Err(io::Error::from(io::ErrorKind::Interrupted));
        }
        match buf.first() {
            Some(byte) if self.count < self.room => {
                self.take(*byte);
                Ok(1)
            }
            _ => Ok(0),
        }
    }

    fn flush(&mut self) -> io::Result<()> {
        self.flushes = self.flushes.wrapping_add(1);
        Ok(())
    }
}
