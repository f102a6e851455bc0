//! Data: labels, values, strings, room.
use crate::source::{Assembly, Datum, Fix, SymbolPlace};
use crate::strings::push_strings;
use crate::text::{expression_of, first_operand, is_name, number_of, word_of};
use fit_code::Naming;
use std::mem;
use v8_syntax::bytes_between;

/// How many bytes of data are read at most: more than an image may have, since what nothing names is left out of it.
const BYTES: usize = 16_777_216;

/// The greatest alignment, that of a page.
const PAGE: u32 = 4_096;

impl Assembly {
    /// A label in the data: an object of no bytes yet begins there, aligned as what comes next is, but where one has
    /// just begun.
    pub(crate) fn label_data(&mut self, name: &[u8], readonly: bool) {
        let symbol = self.symbol(name);
        let start = self.bytes.len();
        let has_begun = matches!(self.start, Some(begun) if begun == start);
        let number = self.objects.len().saturating_sub(usize::from(has_begun));
        self.define(name, symbol, SymbolPlace::Object(number));
        if !has_begun {
            self.start = Some(start);
            let object = Datum {
                symbol,
                readonly,
                align: mem::replace(&mut self.align, 1),
                start,
            };
            self.memory.push(&mut self.objects, object);
        }
    }

    /// Adds bytes, and behind them so many of one more, to the object that is read, which has a label, and aligns them:
    /// as many as all may have.
    pub(crate) fn add(&mut self, bytes: &[u8], (count, fill): (usize, u8)) {
        let mask = (mem::replace(&mut self.align, 1) as usize).saturating_sub(1);
        let start = self.start.unwrap_or(self.bytes.len());
        let length = self.bytes.len().saturating_sub(start);
        let at = start.saturating_add(length.saturating_add(mask) & !mask);
        let end = at.saturating_add(bytes.len()).saturating_add(count);
        if end > BYTES {
            self.refuse("more than 16777216 bytes of data");
        } else if self.start.is_some() {
            self.memory.take(self.bytes.resize(at, self.padding));
            self.memory.take(self.bytes.extend_from_slice(bytes));
            self.memory.take(self.bytes.resize(end, fill));
        } else {
            self.refuse("data without a label");
        }
    }

    /// One value of so many bytes, the most significant byte first.
    pub(crate) fn value(&mut self, size: usize, text: &[u8]) {
        let (name, Some(number)) = expression_of(text) else {
            return self.refuse("a value that is no number, name or name and number");
        };
        if name.is_empty() {
            let bytes = word_of(number).to_be_bytes();
            let start = 4usize.saturating_sub(size);
            return self.add(bytes_between(&bytes, start, 4), (0, 0));
        }
        if size != 4 {
            self.refuse("an address that is no word");
        }
        let symbol = self.symbol(name);
        self.add(&[], (4, 0));
        let length = self.bytes.len().saturating_sub(self.start.unwrap_or(0));
        let fix = Fix {
            object: self.objects.len().saturating_sub(1),
            at: length.saturating_sub(4),
            symbol,
            offset: number,
            line: self.line,
        };
        self.memory.push(&mut self.fixes, fix);
    }

    /// One string, or several one behind the other, with zeros behind them.
    pub(crate) fn string(&mut self, text: &[u8], zeros: usize) {
        let mut bytes = Vec::new(self.memory.alloc);
        if push_strings(&mut self.memory, text, &mut bytes) {
            self.add(bytes.as_slice(), (zeros, 0))
        } else {
            self.refuse("a string that can't be read")
        }
    }

    /// The first operand as a number from 0 up to a bound.
    pub(crate) fn natural(&mut self, text: &[u8], most: u32) -> u32 {
        let (first, _) = first_operand(text);
        match number_of(first) {
            Some(number) if 0 <= number && number <= i64::from(most) => number as u32,
            _ => {
                self.refuse("a number that is none, or too great");
                0
            }
        }
    }

    /// The byte that room is filled with: the low one of a number, 0 where none is told.
    fn filling(&mut self, text: &[u8]) -> u8 {
        match number_of(text) {
            Some(number) => (word_of(number) & 0xff) as u8,
            None => {
                if !text.is_empty() {
                    self.refuse("a byte to fill with that is no number");
                }
                0
            }
        }
    }

    /// `BYTES,FILL`: so many bytes, zeros where nothing else is told.
    pub(crate) fn room(&mut self, text: &[u8]) {
        let (_, fill) = first_operand(text);
        let count = self.natural(text, 0xffff_ffff);
        let fill = self.filling(fill);
        self.add(&[], (count as usize, fill));
    }

    /// `COUNT,BYTES,VALUE`: a value of up to 4 bytes so many times.
    pub(crate) fn repeated(&mut self, text: &[u8]) {
        let (_, rest) = first_operand(text);
        let (size, value) = first_operand(rest);
        let count = self.natural(text, BYTES as u32);
        let size = if size.is_empty() {
            1
        } else {
            self.natural(size, 4)
        };
        let number = if value.is_empty() {
            Some(0)
        } else {
            number_of(value)
        };
        let Some(number) = number else {
            return self.refuse("a value to fill with that is no number");
        };
        let bytes = word_of(number).to_be_bytes();
        let start = 4usize.saturating_sub(size as usize);
        for _ in 0..count {
            if !self.is_refused() {
                self.add(bytes_between(&bytes, start, 4), (0, 0));
            }
        }
    }

    /// What the next data are aligned to, a power of 2, and what fills the room before them. Where other room was to
    /// come before, it is put in at once.
    pub(crate) fn aligned(&mut self, text: &[u8], is_power: bool) {
        let number = self.natural(text, PAGE);
        let align = if is_power {
            1u32.checked_shl(number).unwrap_or(0)
        } else {
            number
        };
        if !align.is_power_of_two() || align > PAGE {
            self.refuse("an alignment that is no power of 2, or above 4096");
        }
        let (_, rest) = first_operand(text);
        let (fill, most) = first_operand(rest);
        let fill = self.filling(fill);
        if self.start.is_some() & (self.align > 1) & (self.padding != fill) {
            self.add(&[], (0, 0));
        }
        self.align = self.align.max(align);
        self.padding = fill;
        if !matches!(number_of(most), Some(most) if most >= i64::from(align) - 1)
            & !most.is_empty()
        {
            self.refuse("an alignment that is left out where it takes too many bytes");
        }
    }

    /// `NAME,BYTES,ALIGN`: an object of zeros.
    pub(crate) fn common(&mut self, text: &[u8]) {
        let (name, rest) = first_operand(text);
        let (bytes, align) = first_operand(rest);
        if !is_name(name) {
            self.named(Naming::Label, name);
        }
        let count = self.natural(bytes, 0xffff_ffff);
        let before = mem::replace(&mut self.align, 8);
        self.start = None;
        if !align.is_empty() {
            self.aligned(align, false);
        }
        self.label_data(name, false);
        self.add(&[], (count as usize, 0));
        self.start = None;
        self.align = before;
    }
}
