//! What an image declares and holds: its regions of data, its functions with their blocks, and its code.
use crate::digits::{push_bytes, push_word};
use sbx_image::{Block, Function, Image, Kind, Region, Term};
use std::alloc::AllocError;
use v8_map::CODE_START;

/// The bytes up to the last one that isn't 0.
fn without_zeros(bytes: &[u8]) -> &[u8] {
    let mut end = 0;
    for (place, byte) in bytes.iter().enumerate() {
        if *byte != 0 {
            end = place + 1;
        }
    }
    let (front, _zeros) = bytes.split_at(end.min(bytes.len()));
    front
}

/// Pushes the line of a region that begins at an address: its size, whether it may be written, and its bytes.
fn push_region(out: &mut String, start: u32, region: &Region) -> Result<(), AllocError> {
    let bytes = region.bytes.as_slice();
    let (size, writable) = (bytes.len(), u8::from(region.writable));
    write!(out, "d{start:X} {size:X} {writable} ")?;
    push_bytes(out, without_zeros(bytes))?;
    out.push('\n')
}

/// Pushes the regions of an image.
fn push_regions(out: &mut String, image: &Image) -> Result<(), AllocError> {
    for (number, region) in image.regions().iter().enumerate() {
        match image.region_start(number) {
            Some(start) => push_region(out, start, region)?,
            None => {}
        }
    }
    Ok(())
}

/// Pushes the terms of a block's fuel: location and factor.
fn push_terms(out: &mut String, terms: &[Term]) -> Result<(), AllocError> {
    for term in terms {
        let (location, factor) = (term.location, term.coefficient);
        write!(out, " {location}:{factor}")?;
    }
    Ok(())
}

/// Pushes the lines of a function's blocks: its number, and of each block the address and the fuel.
fn push_blocks(out: &mut String, number: usize, blocks: &[Block]) -> Result<(), AllocError> {
    for block in blocks {
        let (address, fuel) = (block.address, block.fuel);
        write!(out, "b{number} {address:X} {fuel}")?;
        push_terms(out, block.terms.as_slice())?;
        out.push('\n')?;
    }
    Ok(())
}

/// Pushes the line of a function: its number and its address, whether it is framed, frame, stack room, budget and
/// depth.
fn push_function(out: &mut String, number: usize, function: &Function) -> Result<(), AllocError> {
    let Function {
        kind,
        entry,
        frame,
        stack_room,
        budget,
        depth,
        ..
    } = function;
    let framed = match kind {
        Kind::Leaf => 0,
        Kind::Framed => 1,
    };
    writeln!(
        out,
        "f{number} {entry:X} {framed} {frame} {stack_room} {budget} {depth}"
    )
}

/// Pushes the functions of an image, each with its blocks behind it.
fn push_functions(out: &mut String, functions: &[Function]) -> Result<(), AllocError> {
    for (number, function) in functions.iter().enumerate() {
        push_function(out, number, function)?;
        push_blocks(out, number, function.blocks.as_slice())?;
    }
    Ok(())
}

/// Pushes the words of an image's code.
fn push_code(out: &mut String, words: &[u32]) -> Result<(), AllocError> {
    let mut address = CODE_START;
    for word in words {
        push_word(out, address, *word)?;
        address = address.wrapping_add(4);
    }
    Ok(())
}

/// Pushes what an image declares and holds.
pub fn push_declared(out: &mut String, image: &Image) -> Result<(), AllocError> {
    push_regions(out, image)?;
    push_functions(out, image.functions())?;
    push_code(out, image.words())
}
