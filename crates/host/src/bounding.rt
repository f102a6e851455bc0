//! A writer that takes so many bytes and no more.
ghost use Rattle.std.specs.Prelude.{◌≡◌, ◌≤◌};

use std::io::{self, ErrorKind, Write};

/// A writer that counts the bytes it passes on, and fails at the first one beyond a bound.
#[derive(Drop)]
pub struct Bounded<W: Write> {
    inner: W,
    most: u64,
    count: u64,
    over: bool,
    ghost bound: { count ≤ most },
}

impl<W: Write> Bounded<W> {
    /// A writer that has taken nothing, and takes at most so many bytes.
    pub fn new(inner: W, most: u64) -> Self
        ensures bound { result.most ≡ most }
        ensures nothing { result.count ≡ 0 }
    {
        Bounded {
            inner,
            most,
            count: 0,
            over: false,
        }
    }

    /// How many bytes it has passed on.
    pub fn count(&self) -> u64
        ensures count { result ≡ self.now.count }
        ensures bound { result ≤ self.now.most }
    {
        self.count
    }

    /// Whether it was given more than it takes.
    pub fn is_over(&self) -> bool {
        self.over
    }
}

impl<W: Write> Write for Bounded<W> {
    ghost contents = { λ bounded. W.contents bounded.inner };

    fn write(&mut self, buf: &[u8]) -> io::Result<usize> {
        if buf.len() as u64 > self.most - self.count {
            self.over = true;
            return Err(io::Error::from(ErrorKind::QuotaExceeded));
        }
        let count = self.inner.write(buf)?;
        self.count += count as u64;
        Ok(count)
    }

    fn flush(&mut self) -> io::Result<()> {
        self.inner.flush()
    }
}
