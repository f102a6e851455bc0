//! Runs over streams: faults where the program reads and where it writes, an input that answers, and one without end.
use super::{End, RUN, Writer, has_ends, status_on};
use crate::passing::passes;
use std::alloc::Global;
use std::cell::Cell;
use std::io::{self, Read, Write};

/// Puts out what comes in, up to 1,000 bytes.
pub(super) const ECHO: [u8; 203] = [
    0x53, 0x42, 0x58, 0x38, 0x00, 0x01, 0x00, 0x07, 0x00, 0x00, 0x00, 0x0C, 0x00, 0x00, 0x00, 0x00,
    0x00, 0x01, 0x00, 0x01, 0x9D, 0xE3, 0xBF, 0xA0, 0xA0, 0x10, 0x23, 0xE8, 0x91, 0xD0, 0x20, 0x01,
    0x80, 0xA2, 0x3F, 0xFF, 0x02, 0x80, 0x00, 0x06, 0x01, 0x00, 0x00, 0x00, 0x91, 0xD0, 0x20, 0x02,
    0xA0, 0xA4, 0x20, 0x01, 0x12, 0xBF, 0xFF, 0xFA, 0x01, 0x00, 0x00, 0x00, 0x90, 0x10, 0x20, 0x00,
    0x91, 0xD0, 0x20, 0x00, 0x01, 0x00, 0x00, 0x00, 0x00, 0x04, 0x00, 0x00, 0x00, 0x00, 0x00, 0x60,
    0x00, 0x00, 0x00, 0x60, 0x00, 0x00, 0x00, 0x00, 0x00, 0x00, 0x3E, 0x9E, 0x00, 0x04, 0x00, 0x04,
    0x00, 0x00, 0x00, 0x00, 0x00, 0x00, 0x00, 0x00, 0x00, 0x00, 0x00, 0x00, 0x3E, 0x9E, 0x00, 0x04,
    0x00, 0x08, 0x00, 0x01, 0x00, 0x01, 0x00, 0x00, 0x00, 0x00, 0x00, 0x00, 0x00, 0x04, 0x00, 0x10,
    0x00, 0x00, 0x00, 0x01, 0x00, 0x00, 0x03, 0xE8, 0x00, 0x00, 0x10, 0x00, 0x00, 0x00, 0x10, 0x00,
    0x04, 0x00, 0x18, 0x00, 0x02, 0x00, 0x01, 0xFF, 0xFF, 0xFF, 0xFF, 0xFF, 0xFF, 0xFF, 0xFC, 0x00,
    0x08, 0x00, 0x00, 0x00, 0x00, 0x00, 0x00, 0x00, 0xFF, 0x00, 0x00, 0x10, 0x00, 0x00, 0x00, 0x01,
    0x00, 0x00, 0x03, 0xE8, 0x00, 0x00, 0x10, 0x00, 0x00, 0x00, 0x10, 0x00, 0x04, 0x00, 0x28, 0x00,
    0x00, 0x00, 0x00, 0x00, 0x00, 0x00, 0x00, 0x00, 0x00, 0x00, 0x04,
];

/// Ends of an echo, whose input are three bytes, one a call. The first fault that a run meets is told, and what it put
/// out until then stays.
const ENDS: [End; 9] = [
    ([0, 0, 0], 0, b"abc", b""),
    ([0, 1, 0], 4, b"", b"input\n"),
    ([0, 3, 0], 4, b"ab", b"input\n"),
    ([0, 4, 0], 4, b"abc", b"input\n"),
    ([0, 5, 0], 0, b"abc", b""),
    ([0, 2, 1], 4, b"", b"output\n"),
    ([0, 2, 2], 4, b"a", b"input\n"),
    ([0, 4, 3], 4, b"ab", b"output\n"),
    ([0, 0, 4], 4, b"abc", b"output\n"),
];

#[test]
fn echoes_up_to_a_fault(rt: HostRuntime) {
    has_ends(&rt, rt.alloc(), &RUN, &ECHO, &ENDS);
}

/// Gives `y` without end, a byte a call, but only where it has heard as many bytes as it gave.
#[derive(Clone, Copy)]
struct Partner<'a> {
    given: usize,
    heard: &'a Cell<usize>,
}

impl Read for Partner<'_> {
    fn read(&mut self, buf: &mut [u8]) -> io::Result<usize> {
        if self.heard.get() != self.given {
            return Err(io::Error::from(io::ErrorKind::WouldBlock));
        }
        if buf.is_empty() {
            return Ok(0);
        }
        buf[0] = b'y';
        self.given = self.given.wrapping_add(1);
        Ok(1)
    }
}

/// Hears what is put out, a call at once.
#[derive(Clone, Copy)]
struct Ear<'a> {
    heard: &'a Cell<usize>,
}

impl Write for Ear<'_> {
    fn write(&mut self, buf: &[u8]) -> io::Result<usize> {
        self.heard.set(self.heard.get().wrapping_add(buf.len()));
        Ok(buf.len())
    }

    fn flush(&mut self) -> io::Result<()> {
        Ok(())
    }
}

/// The status of an echo that talks with a partner, and how many bytes the partner heard.
fn conversed(alloc: Global) -> (u8, usize) {
    let heard = Cell::new(0);
    let mut file: &[u8] = &ECHO;
    let mut input = Partner {
        given: 0,
        heard: &heard,
    };
    let mut out = Ear { heard: &heard };
    let mut err = Writer::new(0);
    let status = status_on(alloc, &RUN, &mut file, &mut input, &mut out, &mut err);
    (status, heard.get())
}

/// The same, once more where a growth was refused, before which nothing is put out.
fn answer(alloc: Global) -> (u8, usize) {
    match conversed(alloc) {
        (5, 0) => conversed(alloc),
        other => other,
    }
}

/// Whether a partner hears as many bytes as the program takes.
fn is_heard(alloc: Global) -> bool {
    let (status, heard) = answer(alloc);
    status == 0 && heard == 1000
}

/// Each byte is put out before the next one is asked for, and no more are asked for than the program takes.
#[test]
fn converses_on_an_input_without_end(rt: HostRuntime) {
    passes(&rt, "the talk", is_heard(rt.alloc()));
}
