//! A run's streams as a conversation: what was put out is there to be read before an answer to it is waited for.
//!
//! - The input is read ahead: a read takes up to 8,192 bytes of what is there, and the next ones are given from them.
//! - The output is kept until a line ends or 1,024 bytes are kept: a whole line goes on at once, be it to a
//!   terminal, a file or a pipe.
//! - Before a read that asks the system, all that is kept goes on. So a prompt with no line end is seen before its
//!   answer is waited for. While bytes that were read ahead are left, nothing is flushed.
//! - What is left at the end goes on by a flush of its own, or as the writer is dropped.
//!
//! Both ends need the one writer, which so stands in a cell. It is taken within a single call at a time: a call
//! that finds it taken would be an error, and there is none.
ghost use Rattle.std.specs.Io.{ReadsAtMost};
ghost use Rattle.std.specs.Io.Buffered.{reader_remaining};
ghost use Rattle.std.specs.Io.KnownBytes.{ReadConsumes};

use std::cell::RefCell;
use std::io;
use std::io::{BufRead, BufReader, LineWriter, Read, Write};

/// The reader of a conversation. It gives the bytes of its input, and what was put out is flushed before it waits
/// for more.
#[derive(Drop)]
pub struct Hearer<'a, R: Read, W: Write + Drop> {
    input: BufReader<R>,
    out: &'a RefCell<LineWriter<W>>,
}

impl<'a, R: Read, W: Write + Drop> Hearer<'a, R, W> {
    /// A reader of this input, beside a writer.
    pub fn new(input: BufReader<R>, out: &'a RefCell<LineWriter<W>>) -> Self {
        Hearer { input, out }
    }

    /// Whether bytes were read ahead that it hasn't given yet.
    pub fn has_more_at_hand(&self) -> bool {
        !self.input.buffer().is_empty()
    }

    /// Flushes what is kept. Where that fails it stays kept: the failure is met again at the next line's end, or at
    /// the end.
    fn prompt(&self) {
        if let Ok(mut out) = self.out.try_borrow_mut() {
            let _ = out.flush();
        }
    }

    /// Reads where more than one byte is asked for, or none is at hand. It stands apart, so that the one byte that is
    /// at hand costs no call.
    #[inline(never)]
    fn read_on(&mut self, buf: &mut [u8]) -> io::Result<usize>
        ensures bound { ReadsAtMost result buf.new }
        ensures bytes { ReadConsumes (reader_remaining R.remaining self.old.input)
            (reader_remaining R.remaining self.new.input) result buf.new }
    {
        if self.input.buffer().is_empty() {
            self.prompt();
        }
        self.input.read(buf)
    }
}

impl<R: Read, W: Write + Drop> Read for Hearer<'_, R, W> {
    ghost remaining = { λ hearer. reader_remaining R.remaining hearer.input };

    fn read(&mut self, buf: &mut [u8]) -> io::Result<usize> {
        if buf.len() == 1
            && let Some(byte) = self.input.buffer().first().copied()
        {
            self.input.consume(1);
            buf[0] = byte;
            return Ok(1);
        }
        self.read_on(buf)
    }
}

/// The writer of a conversation. No clause can say what a cell holds, so its contract has the counts of writes and
/// not their bytes. A write takes all: the writer in the cell keeps it, and passes a whole line on by one call of
/// the system.
#[derive(Drop)]
pub struct Speaker<'a, W: Write + Drop> {
    out: &'a RefCell<LineWriter<W>>,
}

impl<'a, W: Write + Drop> Speaker<'a, W> {
    /// A writer to the one in the cell.
    pub fn new(out: &'a RefCell<LineWriter<W>>) -> Self {
        Speaker { out }
    }
}

impl<W: Write + Drop> Write for Speaker<'_, W> {
    fn write(&mut self, buf: &[u8]) -> io::Result<usize> {
        self.out.try_borrow_mut()?.write_all(buf)?;
        Ok(buf.len())
    }

    fn flush(&mut self) -> io::Result<()> {
        self.out.try_borrow_mut()?.flush()
    }

    fn write_all(&mut self, buf: &[u8]) -> io::Result<()> {
        self.out.try_borrow_mut()?.write_all(buf)
    }
}
