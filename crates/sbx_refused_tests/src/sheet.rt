//! A writer that counts what it takes.
use std::io::{self, Write};

/// Takes so many bytes, one a call, and then fails. Keeps the first of them, and counts lines and the columns of the
/// longest, and knows whether it was flushed behind the last write. Its room is its own, so that no refused growth is
/// its.
#[derive(Clone, Copy)]
pub(crate) struct Sheet {
    kept: [u8; 4096],
    count: usize,
    most: usize,
    column: usize,
    pub(crate) lines: u64,
    pub(crate) longest: usize,
    pub(crate) flushed: bool,
}

impl Sheet {
    /// One with nothing on it.
    pub(crate) fn new(most: usize) -> Sheet {
        Sheet {
            kept: [0; 4096],
            count: 0,
            most,
            column: 0,
            lines: 0,
            longest: 0,
            flushed: false,
        }
    }

    /// The first bytes that were written.
    pub(crate) fn front(&self) -> &[u8] {
        self.kept.get(..self.count).unwrap_or(&self.kept)
    }

    fn take(&mut self, byte: u8) {
        if self.count < 4096 {
            self.kept[self.count] = byte;
        }
        self.count = self.count.wrapping_add(1);
        if byte == b'\n' {
            self.lines = self.lines.wrapping_add(1);
            self.column = 0;
        } else {
            self.column = self.column.wrapping_add(1);
            self.longest = self.longest.max(self.column);
        }
    }
}

impl Write for Sheet {
    fn write(&mut self, buf: &[u8]) -> io::Result<usize> {
        self.flushed = false;
        if self.count >= self.most {
            return Err(io::Error::from(io::ErrorKind::Other));
        }
        match buf.first() {
            Some(byte) => {
                self.take(*byte);
                Ok(1)
            }
            None => Ok(0),
        }
    }

    fn flush(&mut self) -> io::Result<()> {
        self.flushed = true;
        Ok(())
    }
}
