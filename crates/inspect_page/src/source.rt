//! The lines of a source, and the names of its functions and blocks.
use crate::digits::push_bytes;
use sbx_asm::{Line, LocationCounter, Text};
use sbx_directives::{Directive, Statement, text_of};
use std::alloc::{AllocError, Global};

/// How many words a line has.
fn words_of(line: &Line<'_, '_>) -> u32 {
    (line.code_length() / 4).min(2) as u32
}

/// The name that a line gives to a function or a block.
fn name_in<'a>(line: &Line<'a, '_>) -> Option<&'a [u8]> {
    match line.said() {
        Ok(Statement::Directive(Directive::Function { name, .. } | Directive::Block(name))) => {
            Some(text_of(line.bytes(), name))
        }
        _ => None,
    }
}

/// Pushes a line at its place: the address of its first word, how many it has, and its bytes; and the name that it
/// gives there.
fn push_line(
    out: &mut String,
    place: LocationCounter,
    line: &Line<'_, '_>,
) -> Result<(), AllocError> {
    let (address, words) = (place.next_word, words_of(line));
    write!(out, "s{address:X} {words} ")?;
    push_bytes(out, line.bytes())?;
    out.push('\n')?;
    let Some(name) = name_in(line) else {
        return Ok(());
    };
    write!(out, "i{address:X} ")?;
    push_bytes(out, name)?;
    out.push('\n')
}

/// Pushes the lines of a source, which means an image, and the names that they give.
pub fn push_source(alloc: Global, out: &mut String, source: &[u8]) -> Result<(), AllocError> {
    let text = Text::read(alloc, source)?;
    let lines = text.lines(alloc)?;
    let mut place = LocationCounter::start();
    for line in &lines {
        push_line(out, place, line)?;
        place = place.after(line);
    }
    Ok(())
}
