//! Maps that were written before, read back.
use crate::digits::{decimal, hexadecimal};
use crate::names::Names;
use std::alloc::{AllocError, Global};
use v8_map::CODE_START;

/// What each map begins with, which begins no source that means an image.
const HEAD: &[u8] = b"map of image ";

/// A map of a source: what the image is known by, and the names.
#[derive(Drop)]
pub struct SourceMap<'a> {
    pub digest: &'a [u8],
    pub names: Names<'a>,
}

/// What a text is, where names are wanted.
#[derive(Drop)]
pub enum MapText<'a> {
    /// A map.
    Read(SourceMap<'a>),
    /// It begins as a map does, and the line of that number is none that a map has there.
    Broken(usize),
    /// It begins otherwise: it may be a source.
    Other,
}

/// The bytes before the first one of a kind, and those behind it; all and none where it has none.
fn cut(text: &[u8], at: u8) -> (&[u8], &[u8]) {
    for (place, byte) in text.iter().enumerate() {
        if *byte == at {
            let (before, rest) = text.split_at(place.min(text.len()));
            let (_, behind) = rest.split_at(rest.len().min(1));
            return (before, behind);
        }
    }
    (text, &[])
}

impl<'a> Names<'a> {
    /// What a line of a map says; whether it is one.
    fn push_entry(&mut self, text: &'a [u8]) -> Result<bool, AllocError> {
        let (address, behind) = cut(text, b' ');
        let (line, behind) = cut(behind, b' ');
        let (kind, name) = cut(behind, b' ');
        let (Some(address), Some(line)) = (hexadecimal(address), decimal(line)) else {
            return Ok(false);
        };
        match kind {
            b"function" if !name.is_empty() => self.push_function(name, address)?,
            b"block" if !name.is_empty() => self.push_block(name, address)?,
            b"label" if !name.is_empty() => {}
            b"" if self.is_next(address) => self.push_word(line)?,
            _ => return Ok(false),
        }
        Ok(true)
    }

    /// Whether the word at an address is the next one.
    fn is_next(&self, address: u32) -> bool {
        let offset = address.wrapping_sub(CODE_START) as usize;
        offset % 4 == 0 && offset / 4 == self.word_count()
    }
}

/// The names that the lines of a map behind the first say; or the number of one that says none, from 1.
fn names_from<'a>(alloc: Global, text: &'a [u8]) -> Result<Result<Names<'a>, usize>, AllocError> {
    let mut names = Names::none(alloc);
    let mut rest = text;
    for number in 0..text.len() {
        if rest.is_empty() {
            break;
        }
        let (line, behind) = cut(rest, b'\n');
        if !names.push_entry(line)? {
            return Ok(Err(number.saturating_add(2)));
        }
        rest = behind;
    }
    Ok(Ok(names))
}

/// The text behind the head of a map, if it begins with one.
fn behind_head(text: &[u8]) -> Option<&[u8]> {
    if text.len() < HEAD.len() {
        return None;
    }
    let (head, rest) = text.split_at(HEAD.len());
    if head == HEAD { Some(rest) } else { None }
}

/// What a text is, where names are wanted: a map that was written by `push_map`, or something else.
pub fn read_map<'a>(alloc: Global, text: &'a [u8]) -> Result<MapText<'a>, AllocError> {
    let Some(rest) = behind_head(text) else {
        return Ok(MapText::Other);
    };
    let (digest, entries) = cut(rest, b'\n');
    Ok(match names_from(alloc, entries)? {
        Ok(names) => MapText::Read(SourceMap { digest, names }),
        Err(line) => MapText::Broken(line),
    })
}
