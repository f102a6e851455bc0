//! Sources that tell how deep calls go.
use crate::check::is_same;
use crate::sources::{inside, is_written};
use sbx_asm::assemble;
use sbx_image::{Function, Image, Region};
use std::alloc::{AllocError, Global};
use std::process::Abort;

fn push_depths(text: &mut String, functions: &[Function]) -> Result<(), AllocError> {
    for function in functions {
        write!(text, " {}", function.depth)?;
    }
    Ok(())
}

fn right_name(writable: bool) -> &'static str {
    if writable { "rw" } else { "ro" }
}

fn push_regions(text: &mut String, regions: &[Region]) -> Result<(), AllocError> {
    for region in regions {
        let right = right_name(region.writable);
        write!(text, " {right} {}", region.bytes.len())?;
    }
    Ok(())
}

/// The version of an image, the depth of each function, and what each region may be used for and how long it is.
fn push_image(text: &mut String, image: &Image) -> Result<(), AllocError> {
    write!(text, "version {}, depths", image.version())?;
    push_depths(text, image.functions())?;
    text.push_str(", regions")?;
    push_regions(text, image.regions())
}

fn image_told(alloc: Global, image: &Image) -> Result<String, AllocError> {
    let mut text = String::new(alloc);
    push_image(&mut text, image)?;
    Ok(text)
}

/// Whether this is told of a source's image, or is the source's fault.
fn tells(alloc: Global, source: &str, wanted: &str) -> bool {
    match assemble(alloc, source.as_bytes()) {
        Ok(image) => is_same(image_told(alloc, &image), wanted),
        Err(fault) => is_same(format!(in alloc; "{fault}"), wanted),
    }
}

/// Sources behind the line of a function.
static INSIDE: [(&str, &str); 27] = [
    (" nop", "version 1, depths 0, regions"),
    (".depth 0\n nop", "version 3, depths 0, regions"),
    (".depth 256\n nop", "version 3, depths 256, regions"),
    (".depth 257\n nop", "line 2: A2"),
    (".depth -1\n nop", "line 2: A2"),
    (".depth\n nop", "line 2: A2"),
    (".depth 1,2\n nop", "line 2: A2"),
    (".depth f\n nop", "line 2: A2"),
    (".depth 1\n.depth 1\n nop", "line 3: A2"),
    (".depth 1\n nop\n.depth 1", "line 4: A2"),
    (".depth 1\n nop\n.block b\n.depth 1\n nop", "line 5: A2"),
    (" nop\n.depth 1", "line 3: A4"),
    (" nop\n.block b\n.depth 1\n nop", "line 4: A4"),
    (" nop\n.depth 257", "line 3: A2"),
    (
        ".fuel 1\n.param 0,1,0\n.cell %o0,0,1,0\n.depth 3\n.term %o0,1\n.result 0,1,0\n nop",
        "version 3, depths 3, regions",
    ),
    (
        ".depth 2\n nop\n.function g,leaf,0,0,1\n nop",
        "version 3, depths 2 0, regions",
    ),
    (
        " nop\n.function g,leaf,0,0,1\n.depth 5\n nop",
        "version 3, depths 0 5, regions",
    ),
    (
        ".depth 2\n nop\n.function g,leaf,0,0,1\n.depth 2\n nop",
        "version 3, depths 2 2, regions",
    ),
    (
        ".data\n.depth 1\n.text\n nop",
        "version 3, depths 1, regions",
    ),
    (
        ".depth 1\n nop\n.data\n.byte 1",
        "version 3, depths 1, regions rw 8",
    ),
    (".depth 1\n nop\n.data", "version 3, depths 1, regions"),
    (
        ".depth 1\n nop\n.region ro\n.byte 1\n.region rw\n.skip 9",
        "version 3, depths 1, regions ro 8 rw 16",
    ),
    (
        " nop\n.region ro\n.byte 1",
        "version 2, depths 0, regions ro 8",
    ),
    (" nop\n.data\n.byte 1", "version 1, depths 0, regions rw 8"),
    (".depth 1\n nop\n.region rw\n.byte 1\n.data", "line 6: A2"),
    (".depth 1\n nop\n.data\n.region rw\n.byte 1", "line 5: A2"),
    (".Depth 1\n nop", "line 2: S1"),
];

fn tells_inside(alloc: Global, source: &str, wanted: &str) -> bool {
    match inside(alloc, source) {
        Ok(whole) => tells(alloc, whole.as_str(), wanted),
        Err(AllocError) => false,
    }
}

/// Each row is told.
fn are_told_inside(rt: &impl Abort, alloc: Global, rows: &[(&str, &str)]) {
    for (source, wanted) in rows {
        assert!(rt; tells_inside(alloc, source, wanted), "{source}");
    }
}

#[test]
fn depths(rt: HostRuntime) {
    are_told_inside(&rt, rt.alloc(), &INSIDE);
}

/// Sources behind nothing at all.
static BARE: [(&str, &str); 3] = [
    (".depth 1", "line 1: A4"),
    (".depth 257", "line 1: A2"),
    (".function f,leaf,0,0\n.depth 1\n nop", "line 1: A2"),
];

#[test]
fn bare_depths(rt: HostRuntime) {
    for (source, wanted) in &BARE {
        assert!(rt; tells(rt.alloc(), source, wanted), "{source}");
    }
}

/// The bytes of an image by the format's fields: the header, the word, the function with its depth, and its block.
const WHOLE: &[&str] = &[
    "534258380003000000000001000000010001",
    "01000000",
    "00000000000400000000000000000000000000000000000100050001",
    "00040000000000000000000000000000",
];

#[test]
fn writes_depths(rt: HostRuntime) {
    let source = ".function f,leaf,0,0,1\n.depth 5\n nop";
    assert!(rt; is_written(rt.alloc(), source, WHOLE));
}

/// So many functions in a row: each calls the next one, and the last one none.
const CHAIN: u16 = 40;

/// What their image tells: depths of 40 of the first, and one less of each next one.
const CHAINED: &str =
    "version 3, depths 40 39 38 37 36 35 34 33 32 31 30 29 28 27 26 25 24 23 22 21 20 19 18 17 16 15 14 13 12 11 10 9 8 7 6 5 4 3 2 1, regions";

/// A function of them.
fn push_link(text: &mut String, number: u16) -> Result<(), AllocError> {
    let depth = CHAIN.saturating_sub(number);
    write!(text, ".function f{number},framed,96,96,9\n.depth {depth}\n")?;
    text.push_str(" save %sp,-96,%sp\n")?;
    if depth > 1 {
        write!(text, " call f{}\n nop\n", number.saturating_add(1))?;
    }
    text.push_str(" ret\n restore\n")
}

fn push_chain(text: &mut String) -> Result<(), AllocError> {
    for number in 0..CHAIN {
        push_link(text, number)?;
    }
    Ok(())
}

/// Whether their source tells this.
fn chain_tells(alloc: Global, wanted: &str) -> bool {
    let mut text = String::new(alloc);
    match push_chain(&mut text) {
        Ok(()) => tells(alloc, text.as_str(), wanted),
        Err(AllocError) => false,
    }
}

#[test]
fn chains(rt: HostRuntime) {
    assert!(rt; chain_tells(rt.alloc(), CHAINED));
}
