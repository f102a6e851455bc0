//! A source that is being written.
use crate::names::commented;
use arrayvec::ArrayString;
use fit_code::{Heap, Instruction, NO_LINE, SourceLine};
use std::fmt::Display;
use v8_formats::Instr;
use v8_forms::print_instr;

/// The most lines of a source that the assembler reads, and its most bytes.
const LINES: usize = 1_000_000;

const BYTES: usize = 16_777_216;

/// A source that is being written, whose lines each begin with the end of the one before.
#[derive(Drop)]
pub struct SourceText {
    pub text: String,
    /// Whether memory was refused, so that something lacks in it.
    pub lacks: bool,
    /// How many of its bytes were counted, and how many lines ended there.
    counted: usize,
    ended: usize,
    /// The line of C that was told last.
    last: SourceLine,
}

impl SourceText {
    /// A source of nothing, for which some memory may have been refused.
    pub fn new(memory: Heap) -> SourceText {
        SourceText {
            text: String::new(memory.alloc),
            lacks: memory.is_refused,
            counted: 0,
            ended: 0,
            last: NO_LINE,
        }
    }

    /// Adds a text.
    pub fn add(&mut self, text: &str) {
        self.lacks |= self.text.push_str(text).is_err();
    }

    /// Adds a text and a value.
    pub fn put<D: Display>(&mut self, before: &str, value: &D) {
        self.lacks |= write!(self.text, "{before}{value}").is_err();
    }

    /// Adds the line of an instruction's text, with the line of C, of one of these files, from the 41st column on,
    /// unless it was the last one told.
    pub fn put_text(&mut self, files: &[String], text: &str, line: SourceLine) {
        let SourceLine { file, number } = line;
        let is_new = (file != self.last.file) | (number != self.last.number);
        if is_new & (number > 0) & (file < files.len()) {
            self.last = line;
            let file = commented(files[file].as_str());
            self.lacks |= write!(self.text, "\n    {text:<36}! {file}:{number}").is_err();
        } else {
            self.put("\n    ", &text);
        }
    }

    /// Adds the line of an instruction.
    pub fn put_instr(&mut self, files: &[String], instr: &Instr, line: SourceLine) {
        let mut text: ArrayString<64> = ArrayString::new();
        print_instr(instr, &mut text);
        self.put_text(files, text.as_str(), line);
    }

    /// Adds the line of what stands in a delay slot; nothing is as NOP.
    pub fn put_slot(&mut self, slot: &Option<Instruction>) {
        match slot {
            Some(held) => self.put_instr(&[], &held.instr(), NO_LINE),
            None => self.add("\n    nop"),
        }
    }

    /// What is told of the source if it has, with the end of its last line, more lines or bytes than the assembler
    /// reads.
    pub fn excess(&mut self) -> Option<&'static str> {
        let text = self.text.as_bytes();
        let mut ended = self.ended;
        for byte in &text[self.counted.min(text.len())..] {
            ended = ended.saturating_add(usize::from(*byte == b'\n'));
        }
        self.ended = ended;
        self.counted = text.len();
        if ended >= LINES {
            Some("more than 1000000 lines in the source that would be made")
        } else if text.len() >= BYTES {
            Some("more than 16777216 bytes in the source that would be made")
        } else {
            None
        }
    }
}
