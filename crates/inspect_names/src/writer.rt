//! A writer that passes lines on with the names of a source.
use crate::names::Names;
use crate::renaming::{SourceTold, push_renamed};
use std::alloc::{AllocError, Global};
use std::io::{self, Write};
use want::Want;

/// A writer that keeps a line until it ends, and passes it on with a source's names and the lines of places.
#[derive(Drop)]
pub struct NamedWriter<'n, 'a, W: Write + Drop> {
    alloc: Global,
    names: &'n Names<'a>,
    line: Vec<u8>,
    out: W,
    want: Option<Want>,
}

impl<'n, 'a, W: Write + Drop> NamedWriter<'n, 'a, W> {
    /// A writer that keeps nothing yet.
    pub fn new(alloc: Global, names: &'n Names<'a>, out: W) -> Self {
        NamedWriter {
            alloc,
            names,
            line: Vec::new(alloc),
            out,
            want: None,
        }
    }

    /// Whether memory was refused for a line, which isn't the fault of the writer that it passes lines on to.
    pub fn want(&self) -> Option<Want> {
        self.want
    }

    /// The fault of a call for which memory was refused.
    fn starved(&mut self, error: AllocError) -> io::Error {
        let want = Want::from(error);
        self.want = Some(want);
        io::Error::from(AllocError::from(want))
    }

    /// What is kept, with the source's names.
    fn renamed(&self) -> Result<String, AllocError> {
        let mut text = String::new(self.alloc);
        push_renamed(
            &mut text,
            self.names,
            self.line.as_slice(),
            SourceTold::Places,
        )?;
        Ok(text)
    }

    /// Passes on what is kept.
    fn pass(&mut self) -> io::Result<()> {
        let text = match self.renamed() {
            Ok(text) => text,
            Err(error) => return Err(self.starved(error)),
        };
        self.line.clear();
        self.out.write_all(text.as_bytes())
    }

    /// One more byte, and what is kept behind a line's last.
    fn take(&mut self, byte: u8) -> io::Result<()> {
        if let Err(error) = self.line.push(byte) {
            return Err(self.starved(error.into()));
        }
        if byte == b'\n' { self.pass() } else { Ok(()) }
    }
}

impl<W: Write + Drop> Write for NamedWriter<'_, '_, W> {
    fn write(&mut self, buf: &[u8]) -> io::Result<usize> {
        for byte in buf {
            self.take(*byte)?;
        }
        Ok(buf.len())
    }

    fn flush(&mut self) -> io::Result<()> {
        self.pass()?;
        self.out.flush()
    }
}
