//! Texts that tell of an image, with the names and the lines of its source.
ghost use Rattle.std.specs.Prelude.{◌≤◌, length};

use crate::digits::{decimal, hexadecimal};
use crate::names::{Named, Names};
use std::alloc::AllocError;

/// What is told by a source's names and lines: functions, blocks and places by these, or addresses of the code too.
#[derive(Clone, Copy, PartialEq, Eq)]
pub enum SourceTold {
    Places,
    Addresses,
}

/// A word of the code: how far behind the beginning of its function or block it stands, and its line.
#[derive(Clone, Copy)]
struct CodePlace<'a> {
    named: Named<'a>,
    offset: u32,
    line: usize,
}

/// How many bytes of a word stand at the head of some.
fn word_length(bytes: &[u8]) -> usize
    ensures { result ≤ length bytes.now }
{
    bytes
        .iter()
        .take_while(|byte| byte.is_ascii_alphanumeric() || **byte == b'_')
        .count()
        .min(bytes.len())
}

/// Where a word parts at `_b`.
fn parted(word: &[u8]) -> Option<(&[u8], &[u8])> {
    for place in 0..word.len() {
        let (function, behind) = word.split_at(place);
        if let [b'_', b'b', block @ ..] = behind {
            return Some((function, block));
        }
    }
    None
}

/// The numbers of a function and a block, as `f2` and `f2_b3` name them.
fn numbers_of(word: &[u8]) -> Option<(usize, usize)> {
    let (first, digits) = word.split_first()?;
    if *first != b'f' {
        return None;
    }
    match parted(digits) {
        Some((function, block)) => Some((decimal(function)?, decimal(block)?)),
        None => Some((decimal(digits)?, 0)),
    }
}

/// Pushes bytes, each in one column.
fn push_bytes(out: &mut String, bytes: &[u8]) -> Result<(), AllocError> {
    for byte in bytes {
        out.push(match *byte {
            b'\n' | b'\t' | 32..=126 => *byte as char,
            _ => '?',
        })?;
    }
    Ok(())
}

/// The word of an instruction, if one stands right behind its address, as it is; gives what is left.
fn push_instruction<'t>(out: &mut String, rest: &'t [u8]) -> Result<&'t [u8], AllocError> {
    let [b' ', behind @ ..] = rest else {
        return Ok(rest);
    };
    let (word, others) = behind.split_at(word_length(behind));
    if word.len() != 8 || hexadecimal(word).is_none() {
        return Ok(rest);
    }
    out.push(' ')?;
    push_bytes(out, word)?;
    Ok(others)
}

impl Names<'_> {
    /// The line of a word, in brackets, where there is such a line.
    fn push_line_of(&self, out: &mut String, address: u32) -> Result<(), AllocError> {
        match self.line_at(address) {
            Some(line) => write!(out, " ({line})"),
            None => Ok(()),
        }
    }

    /// A function's or a block's name, and the place behind it, if one follows, with its line; gives what is left.
    fn push_place<'t>(
        &self,
        out: &mut String,
        named: Named<'_>,
        rest: &'t [u8],
    ) -> Result<&'t [u8], AllocError> {
        push_bytes(out, named.name)?;
        let [b'+', behind @ ..] = rest else {
            return Ok(rest);
        };
        let (digits, others) = behind.split_at(word_length(behind));
        match hexadecimal(digits) {
            Some(offset) => {
                out.push('+')?;
                push_bytes(out, digits)?;
                self.push_line_of(out, named.address.wrapping_add(offset))?;
                Ok(others)
            }
            None => Ok(rest),
        }
    }

    /// An address of the code as its block's name, how far behind that it lies, and its line.
    fn push_address(&self, out: &mut String, place: CodePlace<'_>) -> Result<(), AllocError> {
        let CodePlace {
            named,
            offset,
            line,
        } = place;
        push_bytes(out, named.name)?;
        if offset > 0 {
            write!(out, "+{offset:X}")?;
        }
        write!(out, " ({line})")
    }

    /// The place in the code whose address a word is, where addresses are told by names.
    fn place_at(&self, word: &[u8], told: SourceTold) -> Option<CodePlace<'_>> {
        if word.len() != 8 || told == SourceTold::Places {
            return None;
        }
        let address = hexadecimal(word)?;
        let line = self.line_at(address)?;
        let named = self.block_before(address)?;
        let offset = address.wrapping_sub(named.address);
        Some(CodePlace {
            named,
            offset,
            line,
        })
    }

    /// The function or block that a word names.
    fn named_by(&self, word: &[u8]) -> Option<Named<'_>> {
        let (function, block) = numbers_of(word)?;
        self.block(function, block)
    }

    /// The function that `function 2` names, of which the number stands behind a blank, and what follows that.
    fn numbered<'t>(&self, word: &[u8], rest: &'t [u8]) -> Option<(Named<'_>, &'t [u8])> {
        let [b' ', behind @ ..] = rest else {
            return None;
        };
        if word != b"function".as_slice() {
            return None;
        }
        let (digits, others) = behind.split_at(word_length(behind));
        let named = self.block(decimal(digits)?, 0)?;
        Some((named, others))
    }

    /// The next word, or a byte between words; gives what is left.
    fn push_next<'t>(
        &self,
        out: &mut String,
        rest: &'t [u8],
        told: SourceTold,
    ) -> Result<&'t [u8], AllocError> {
        let (word, others) = rest.split_at(word_length(rest));
        if word.is_empty() {
            let (between, behind) = rest.split_at(rest.len().min(1));
            push_bytes(out, between)?;
            return Ok(behind);
        }
        if let Some(named) = self.named_by(word) {
            return self.push_place(out, named, others);
        }
        if let Some((named, others)) = self.numbered(word, others) {
            push_bytes(out, named.name)?;
            return Ok(others);
        }
        match self.place_at(word, told) {
            Some(place) => {
                self.push_address(out, place)?;
                push_instruction(out, others)
            }
            None => {
                push_bytes(out, word)?;
                Ok(others)
            }
        }
    }
}

/// Pushes a text that tells of the image of a source by the source's names: in the place of `f2`, `f2_b3`, `f2+1C` and
/// `function 2`, and of addresses of the code, where that is wanted. Places and addresses have their lines behind them
/// in brackets, as `main+1C (12)`.
pub fn push_renamed(
    out: &mut String,
    names: &Names<'_>,
    text: &[u8],
    told: SourceTold,
) -> Result<(), AllocError> {
    let mut rest = text;
    for _ in 0..text.len() {
        rest = names.push_next(out, rest, told)?;
    }
    Ok(())
}
