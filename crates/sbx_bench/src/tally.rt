//! A writer that counts.
ghost use Rattle.std.specs.Prelude.{◌≡◌, ◌==◌, ◌+◌, ◌-◌, ◌^◌, Ok, count_by, length, min};

use std::io::{self, Write};

/// Counts the bytes and the line ends that it is given, each up to 2^64 - 1, and keeps none of them.
#[derive(Clone, Copy, Default)]
pub struct Tally {
    pub bytes: u64,
    pub lines: u64,
}

/// How many lines end in a text.
fn line_ends(text: &[u8]) -> usize
    ensures { result ≡ count_by (λ byte. byte == 10) text.now }
{
    text.iter().filter(|byte| **byte == b'\n').count()
}

impl Write for Tally {
    fn write(&mut self, buf: &[u8]) -> io::Result<usize>
        ensures all { result ≡ Ok (length buf.now) }
        ensures bytes_counted { self.new.bytes ≡ min (self.old.bytes + length buf.now) (2 ^ 64 - 1) }
        ensures lines_counted { self.new.lines ≡
            min (self.old.lines + count_by (λ byte. byte == 10) buf.now) (2 ^ 64 - 1) }
    {
        self.bytes = self.bytes.saturating_add(buf.len() as u64);
        self.lines = self.lines.saturating_add(line_ends(buf) as u64);
        Ok(buf.len())
    }

    fn flush(&mut self) -> io::Result<()>
        ensures unchanged { self.new ≡ self.old }
    {
        Ok(())
    }
}
