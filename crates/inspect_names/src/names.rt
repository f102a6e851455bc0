//! The names of a source's functions and blocks, and the lines of its words.
use sbx_asm::{Line, LocationCounter, Text};
use sbx_directives::{Directive, Statement, text_of};
use std::alloc::{AllocError, Global};
use v8_map::CODE_START;

/// A function, as its block 0, or another block of it, both counted from 0.
#[derive(Clone, Copy)]
pub struct Named<'a> {
    pub function: usize,
    pub block: usize,
    /// Its name in the source.
    pub name: &'a [u8],
    /// The address of its first word.
    pub address: u32,
}

/// The names of a source's functions and blocks, in their order, and the line of each word of its code, from 1.
#[derive(Drop)]
pub struct Names<'a> {
    blocks: Vec<Named<'a>>,
    lines: Vec<usize>,
}

/// The block behind another one.
fn next_block(last: Option<&Named<'_>>) -> (usize, usize) {
    match last {
        Some(named) => (named.function, named.block.saturating_add(1)),
        None => (0, 0),
    }
}

/// The first block of the function behind a block's.
fn next_function(last: Option<&Named<'_>>) -> (usize, usize) {
    match last {
        Some(named) => (named.function.saturating_add(1), 0),
        None => (0, 0),
    }
}

/// How many words a line has.
pub(crate) fn words_of(line: &Line<'_, '_>) -> u32 {
    (line.code_length() / 4).min(2) as u32
}

impl<'a> Names<'a> {
    /// No names and no words yet.
    pub(crate) fn none(alloc: Global) -> Names<'a> {
        Names {
            blocks: Vec::new(alloc),
            lines: Vec::new(alloc),
        }
    }

    /// The function that begins at an address, as the next one.
    pub(crate) fn push_function(&mut self, name: &'a [u8], address: u32) -> Result<(), AllocError> {
        let number = next_function(self.blocks.as_slice().last());
        self.push_named(number, name, address)
    }

    /// The block that begins at an address, as the next one of the newest function.
    pub(crate) fn push_block(&mut self, name: &'a [u8], address: u32) -> Result<(), AllocError> {
        let number = next_block(self.blocks.as_slice().last());
        self.push_named(number, name, address)
    }

    /// The line of the next word.
    pub(crate) fn push_word(&mut self, line: usize) -> Result<(), AllocError> {
        self.lines.push(line)?;
        Ok(())
    }

    /// How many words have lines.
    pub(crate) fn word_count(&self) -> usize {
        self.lines.len()
    }

    /// One more function or block.
    fn push_named(
        &mut self,
        number: (usize, usize),
        name: &'a [u8],
        address: u32,
    ) -> Result<(), AllocError> {
        let (function, block) = number;
        self.blocks.push(Named {
            function,
            block,
            name,
            address,
        })?;
        Ok(())
    }

    /// What one more line names, and its words.
    fn push_line(&mut self, place: LocationCounter, line: &Line<'a, '_>) -> Result<(), AllocError> {
        match line.said() {
            Ok(Statement::Directive(Directive::Function { name, .. })) => {
                self.push_function(text_of(line.bytes(), name), place.next_word)
            }
            Ok(Statement::Directive(Directive::Block(name))) => {
                self.push_block(text_of(line.bytes(), name), place.next_word)
            }
            _ => self.push_words(line),
        }
    }

    /// The words of a line, of which there are two at most.
    fn push_words(&mut self, line: &Line<'a, '_>) -> Result<(), AllocError> {
        for _ in 0..words_of(line) {
            self.push_word(line.number())?;
        }
        Ok(())
    }

    /// A function, as its block 0, or another block, by their numbers.
    pub fn block(&self, function: usize, block: usize) -> Option<Named<'a>> {
        for named in self.blocks.as_slice() {
            if named.function == function && named.block == block {
                return Some(*named);
            }
        }
        None
    }

    /// The newest function or block that begins at an address or before it.
    pub fn block_before(&self, address: u32) -> Option<Named<'a>> {
        let mut found = None;
        for named in self.blocks.as_slice() {
            if named.address <= address {
                found = Some(*named);
            }
        }
        found
    }

    /// The line of the word at an address of the code.
    pub fn line_at(&self, address: u32) -> Option<usize> {
        let place = address.wrapping_sub(CODE_START) / 4;
        self.lines.as_slice().get(place as usize).copied()
    }
}

/// The names of a source, which means an image, by its lines.
pub(crate) fn names_of<'a>(alloc: Global, lines: &[Line<'a, '_>]) -> Result<Names<'a>, AllocError> {
    let mut names = Names::none(alloc);
    let mut place = LocationCounter::start();
    for line in lines {
        names.push_line(place, line)?;
        place = place.after(line);
    }
    Ok(names)
}

/// The names of a source, which means an image.
pub fn names_in<'a>(alloc: Global, source: &'a [u8]) -> Result<Names<'a>, AllocError> {
    let text = Text::read(alloc, source)?;
    let lines = text.lines(alloc)?;
    names_of(alloc, lines.as_slice())
}
