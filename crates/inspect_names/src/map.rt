//! The map of a source: where its lines and its labels stand.
use crate::names::words_of;
use sbx_asm::{Line, LocationCounter, Text};
use sbx_directives::{Directive, Statement, text_of};
use std::alloc::{AllocError, Global};
use v8_syntax::bytes_between;

/// A name of a source, whose bytes are graphic.
fn push_name(out: &mut String, name: &[u8]) -> Result<(), AllocError> {
    for byte in name {
        out.push(match *byte {
            33..=126 => *byte as char,
            _ => '?',
        })?;
    }
    Ok(())
}

/// A label: its address, its line, what it is the name of, and the name.
fn push_label(
    out: &mut String,
    address: u32,
    line: usize,
    kind: &str,
    name: &[u8],
) -> Result<(), AllocError> {
    write!(out, "{address:08X} {line} {kind} ")?;
    push_name(out, name)?;
    out.push('\n')
}

/// The labels at the head of a line.
fn push_labels(
    out: &mut String,
    place: LocationCounter,
    line: &Line<'_, '_>,
) -> Result<(), AllocError> {
    let (count, tokens) = line.labels();
    for label in 0..count {
        if let Some(token) = tokens.get(label.saturating_mul(2)) {
            let name = bytes_between(line.bytes(), token.start, token.stop);
            push_label(out, place.address(), line.number(), "label", name)?;
        }
    }
    Ok(())
}

/// The words of a line from an address on.
fn push_words(out: &mut String, address: u32, line: &Line<'_, '_>) -> Result<(), AllocError> {
    let number = line.number();
    for word in 0..words_of(line) {
        let address = address.wrapping_add(word.wrapping_mul(4));
        writeln!(out, "{address:08X} {number}")?;
    }
    Ok(())
}

/// What a line has at its place.
fn push_line(
    out: &mut String,
    place: LocationCounter,
    line: &Line<'_, '_>,
) -> Result<(), AllocError> {
    push_labels(out, place, line)?;
    let (address, number) = (place.next_word, line.number());
    match line.said() {
        Ok(Statement::Directive(Directive::Function { name, .. })) => {
            let name = text_of(line.bytes(), name);
            push_label(out, address, number, "function", name)
        }
        Ok(Statement::Directive(Directive::Block(name))) => {
            let name = text_of(line.bytes(), name);
            push_label(out, address, number, "block", name)
        }
        _ => push_words(out, address, line),
    }
}

/// Pushes where the lines of a source stand, which means an image: a line for each label, and one for each word of the
/// code, in the order of the source. `digest` is what the image is known by, in one word.
pub fn push_map(
    alloc: Global,
    out: &mut String,
    source: &[u8],
    digest: &str,
) -> Result<(), AllocError> {
    let text = Text::read(alloc, source)?;
    let lines = text.lines(alloc)?;
    writeln!(out, "map of image {digest}")?;
    let mut place = LocationCounter::start();
    for line in &lines {
        push_line(out, place, line)?;
        place = place.after(line);
    }
    Ok(())
}
