//! A reader that knows how much it has given.
ghost use Rattle.std.specs.Prelude.{◌≡◌, ◌+◌, false};

use std::io::{self, Read};

/// A reader that counts the bytes that it gives, and knows whether it has met their end.
#[derive(Drop)]
pub struct Counted<R: Read> {
    inner: R,
    count: u64,
    met: bool,
}

impl<R: Read> Counted<R> {
    /// A reader that hasn't given anything.
    pub fn new(inner: R) -> Self
        ensures inner { result.inner ≡ inner }
        ensures nothing { (result.count ≡ 0) × (result.met ≡ false) }
    {
        Counted {
            inner,
            count: 0,
            met: false,
        }
    }

    /// The reader that gives them.
    pub fn into_inner(self) -> R
        ensures { result ≡ self.inner }
    {
        let Counted { inner, .. } = self;
        inner
    }

    /// How many bytes it has given.
    pub fn count(&self) -> u64
        ensures { result ≡ self.now.count }
    {
        self.count
    }

    /// Whether it was asked for more than there is, and has told the end.
    pub fn has_met_the_end(&self) -> bool
        ensures { result ≡ self.now.met }
    {
        self.met
    }
}

impl<R: Read> Read for Counted<R> {
    ghost remaining = { λ counted. R.remaining counted.inner };

    fn read(&mut self, buf: &mut [u8]) -> io::Result<usize> {
        let count = self.inner.read(buf)?;
        self.met = count == 0 && !buf.is_empty();
        self.count = self.count.saturating_add(count as u64);
        Ok(count)
    }
}
