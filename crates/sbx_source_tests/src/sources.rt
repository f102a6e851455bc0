//! Worked sources, and the order of faults.
use crate::check::is_same;
use sbx_asm::{AsmFault, assemble};
use sbx_image::{Block, Cell, Function, Image, Kind, Range, Term, write};
use std::alloc::{AllocError, Global};
use std::process::Abort;

/// The bytes of the image that writes `Hi`.
const HELLO: &str =
    "53425838000100050000000600000000000100019010204891d020029010206991d020029010200091d02000000000000004000000000000000000000000000000000010000100040000000000000000000000000010";

const HELLO_SOURCE: &str =
    ".services exit,put\n.function main,leaf,0,0,16\n.fuel 16\n mov 72,%o0\n ta 2\n mov 105,%o0\n ta 2\n mov 0,%o0\n ta 0\n";

/// The example echo without its comments.
const ECHO_SOURCE: &str = ".services exit,get,put
.function main,framed,96,96,16030
.fuel 16030
    save %sp,-96,%sp
    mov 1000,%l0
.block loop
.cell %l0,1,1000,0
.fuel 4
.term %l0,16
    ta 1
    cmp %o0,-1
    be done
    nop
.block body
.cell %o0,0,255,0
.cell %l0,1,1000,0
.fuel -4
.term %l0,16
    ta 2
    deccc %l0
    bne loop
    nop
.block done
.fuel 4
    mov 0,%o0
    ta 0
";

/// The bytes of its image by the format's fields: the header, the words, the function, and its four blocks.
const ECHO: &[&str] = &[
    "53425838000100070000000c0000000000010001",
    "9de3bfa0a01023e891d0200180a23fff028000060100000091d02002a0a4200112bffffa010000009010200091d02000",
    "010000000004000000000060000000600000000000003e9e0004",
    "00040000000000000000000000003e9e",
    "00040008000100010000000000000004001000000001000003e800001000000010",
    "0004001800020001fffffffffffffffc000800000000000000ff00001000000001000003e800001000000010",
    "00040028000000000000000000000004",
];

/// Bytes in hexadecimal.
fn push_hex(text: &mut String, bytes: &[u8]) -> Result<(), AllocError> {
    for byte in bytes {
        write!(text, "{byte:02x}")?;
    }
    Ok(())
}

fn is_fault(alloc: Global, fault: &AsmFault, wanted: &str) -> bool {
    is_same(format!(in alloc; "{fault}"), wanted)
}

fn hex_of(alloc: Global, bytes: &[u8]) -> Result<String, AllocError> {
    let mut text = String::new(alloc);
    push_hex(&mut text, bytes)?;
    Ok(text)
}

/// Whether these pieces are a text, one behind the other.
fn are_pieces(text: &str, pieces: &[&str]) -> bool {
    let mut left = text;
    for piece in pieces {
        match left.strip_prefix(*piece) {
            Some(rest) => left = rest,
            None => return false,
        }
    }
    left.is_empty()
}

/// Whether bytes in hexadecimal are these pieces.
fn are_bytes(alloc: Global, bytes: &[u8], pieces: &[&str]) -> bool {
    match hex_of(alloc, bytes) {
        Ok(text) => are_pieces(text.as_str(), pieces),
        Err(AllocError) => false,
    }
}

fn is_image(alloc: Global, image: &Image, pieces: &[&str]) -> bool {
    match write(image, alloc) {
        Ok(bytes) => are_bytes(alloc, bytes.as_slice(), pieces),
        Err(AllocError) => false,
    }
}

/// Whether the bytes of a source's image are these, in hexadecimal.
pub(crate) fn is_written(alloc: Global, source: &str, pieces: &[&str]) -> bool {
    match assemble(alloc, source.as_bytes()) {
        Ok(image) => is_image(alloc, &image, pieces),
        Err(_fault) => false,
    }
}

#[test]
fn writes_hello(rt: HostRuntime) {
    assert!(rt; is_written(rt.alloc(), HELLO_SOURCE, &[HELLO]));
}

#[test]
fn writes_echo(rt: HostRuntime) {
    assert!(rt; is_written(rt.alloc(), ECHO_SOURCE, ECHO));
}

/// Two functions with each annotation, and pages of stack.
const ANNOTATED_SOURCE: &str = ".stack 3
.services put
.function main,framed,104,200,77
.result 0,0,3
.fuel 5
    nop
.function helper,leaf,8,16,1099511627775
.param -5,7,0
.result -16,16,2
.param -2147483648,2147483647,3
.cell %o1,1,2,0
.fuel -1099511627775
    nop
.block again
.cell %g1,-1,1,0
.cell slot 3,0,40,2
.term %g1,2
.term slot 3,-7
.fuel 11
    nop
.block last
.term slot 1007,2147483647
    ta 0
";

/// What its image says: of each function the kind, the entry, the frame, the stack, the budget and the ranges, and of
/// each block the address, the fuel, the cells and the terms.
const ANNOTATED: &str = "services 4, stack 3
framed 00040000 104 200 77 params results (0 0 3)
block 00040000 5 cells terms
leaf 00040004 8 16 1099511627775 params (-5 7 0) (-2147483648 2147483647 3) results (-16 16 2)
block 00040004 -1099511627775 cells 9 (1 2 0) terms
block 00040008 11 cells 1 (-1 1 0) 35 (0 40 2) terms 1 (2) 35 (-7)
block 0004000C 0 cells terms 1039 (2147483647)
";

fn push_range(text: &mut String, range: &Range) -> Result<(), AllocError> {
    write!(text, " ({} {} {})", range.lo, range.hi, range.alignment)
}

fn push_ranges(text: &mut String, ranges: &[Range]) -> Result<(), AllocError> {
    for range in ranges {
        push_range(text, range)?;
    }
    Ok(())
}

fn kind_name(kind: Kind) -> &'static str {
    match kind {
        Kind::Leaf => "leaf",
        Kind::Framed => "framed",
    }
}

fn push_function(text: &mut String, function: &Function) -> Result<(), AllocError> {
    let kind = kind_name(function.kind);
    let (entry, frame) = (function.entry, function.frame);
    let (room, budget) = (function.stack_room, function.budget);
    write!(text, "{kind} {entry:08X} {frame} {room} {budget} params")?;
    push_ranges(text, function.params.as_slice())?;
    text.push_str(" results")?;
    push_ranges(text, function.results.as_slice())?;
    text.push_str("\n")
}

fn push_cells(text: &mut String, cells: &[Cell]) -> Result<(), AllocError> {
    for cell in cells {
        write!(text, " {}", cell.location)?;
        push_range(text, &cell.range)?;
    }
    Ok(())
}

fn push_terms(text: &mut String, terms: &[Term]) -> Result<(), AllocError> {
    for term in terms {
        write!(text, " {} ({})", term.location, term.coefficient)?;
    }
    Ok(())
}

fn push_block(text: &mut String, block: &Block) -> Result<(), AllocError> {
    write!(text, "block {:08X} {} cells", block.address, block.fuel)?;
    push_cells(text, block.cells.as_slice())?;
    text.push_str(" terms")?;
    push_terms(text, block.terms.as_slice())?;
    text.push_str("\n")
}

fn push_functions(text: &mut String, functions: &[Function]) -> Result<(), AllocError> {
    for function in functions {
        push_function(text, function)?;
        for block in function.blocks.as_slice() {
            push_block(text, block)?;
        }
    }
    Ok(())
}

fn push_image(text: &mut String, image: &Image) -> Result<(), AllocError> {
    let (services, pages) = (image.services().0, image.stack_pages());
    write!(text, "services {services}, stack {pages}\n")?;
    push_functions(text, image.functions())
}

/// What an image says beside its words and its data.
fn image_told(alloc: Global, image: &Image) -> Result<String, AllocError> {
    let mut text = String::new(alloc);
    push_image(&mut text, image)?;
    Ok(text)
}

/// Whether a source's image says this beside its words and its data.
fn tells(alloc: Global, source: &str, wanted: &str) -> bool {
    match assemble(alloc, source.as_bytes()) {
        Ok(image) => is_same(image_told(alloc, &image), wanted),
        Err(_fault) => false,
    }
}

#[test]
fn keeps_annotations(rt: HostRuntime) {
    assert!(rt; tells(rt.alloc(), ANNOTATED_SOURCE, ANNOTATED));
}

fn push_words(text: &mut String, words: &[u32]) -> Result<(), AllocError> {
    for word in words {
        write!(text, "{word:08X} ")?;
    }
    Ok(())
}

fn push_bytes(text: &mut String, bytes: &[u8]) -> Result<(), AllocError> {
    for byte in bytes {
        write!(text, "{byte:02X}")?;
    }
    Ok(())
}

fn push_parts(text: &mut String, image: &Image) -> Result<(), AllocError> {
    push_words(text, image.words())?;
    for region in image.regions() {
        push_bytes(text, region.bytes.as_slice())?;
    }
    Ok(())
}

/// The words and the data of an image.
fn parts_text(alloc: Global, image: &Image) -> Result<String, AllocError> {
    let mut text = String::new(alloc);
    push_parts(&mut text, image)?;
    Ok(text)
}

/// Whether a source gives these words and data, or this fault.
pub(crate) fn gives(alloc: Global, source: &[u8], wanted: &str) -> bool {
    match assemble(alloc, source) {
        Ok(image) => is_same(parts_text(alloc, &image), wanted),
        Err(fault) => is_fault(alloc, &fault, wanted),
    }
}

/// Sources behind nothing at all.
static BARE: [(&str, &str); 15] = [
    ("", "line 1: A2"),
    ("\n", "line 2: A2"),
    ("x", "line 1: S1"),
    ("!\n\n frob %o0", "line 3: S1"),
    ("\u{e9}", "line 1: X1"),
    ("1099511627776", "line 1: X3"),
    (" nop\n", "line 1: A2"),
    (" nop\n frob", "line 1: A2"),
    (".cell %o0,0,0,0", "line 1: A4"),
    (".block b", "line 1: A4"),
    (".fuel 1", "line 1: A4"),
    (".param 0,1,0", "line 1: A4"),
    (".services exit\n.services put", "line 2: A2"),
    (".stack 1\n.stack 1", "line 2: A2"),
    (".stack 17", "line 1: A2"),
];

/// Each source gives what it says.
fn are_given(rt: &impl Abort, alloc: Global, rows: &[(&str, &str)]) {
    for (source, wanted) in rows {
        assert!(rt; gives(alloc, source.as_bytes(), wanted), "{source}");
    }
}

#[test]
fn bare_sources(rt: HostRuntime) {
    are_given(&rt, rt.alloc(), &BARE);
}

/// Sources behind the line of a function.
static INSIDE: [(&str, &str); 57] = [
    (" save %sp,-4096,%sp", "9DE3B000 "),
    (" save %sp,-4104,%sp", "line 2: S3"),
    (" unimp 4194303", "003FFFFF "),
    (" unimp 4194304", "line 2: S3"),
    ("", "line 1: A2"),
    (".fuel 1099511627775\n nop", "01000000 "),
    (".fuel 1099511627776\n nop", "line 2: X3"),
    (".fuel -1099511627776\n nop", "line 2: X3"),
    (".fuel 1\n.fuel 2\n", "line 1: A2"),
    (".fuel 1\n.fuel 2\n nop", "line 3: A2"),
    (" nop\n.fuel 1", "line 3: A4"),
    (" frob\n $", "line 2: S1"),
    (" $\n frob", "line 2: X2"),
    (" frob\n.block b\n", "line 2: S1"),
    (" nop\n.block b\n.block c\n frob", "line 3: A2"),
    (" nop\n.block b\n $\n.block c\n", "line 4: X2"),
    (" nop\n.block b,c\n.block d\n nop", "line 3: A2"),
    (" ba b\n nop\n.block b,c\n nop", "line 4: A2"),
    (" ba b\n nop\n.block b c\n nop", "line 4: A2"),
    (" call g\n nop\n.function g leaf,0,0,2\n nop", "line 4: A2"),
    (" ba b\n nop\n.block 5\n nop", "line 2: S4"),
    (" ba g\n nop\n.function g,leaf,0,0\n nop", "line 4: A2"),
    (" nop\n.block f,c\n nop", "line 3: A1"),
    ("a: nop\na: nop", "line 3: A1"),
    ("a: nop\n frob\na: nop", "line 3: S1"),
    ("a: nop\na: frob", "line 3: S1"),
    ("f: nop", "line 2: A1"),
    ("f: .byte 256\n nop", "line 2: A1"),
    (" ba b\nb: frob", "line 3: S1"),
    (" ba b\nb: nop $", "line 2: S4"),
    (" ba b\n frob\nb: nop", "line 3: S1"),
    (" ba b\n $\nb: nop", "line 3: X2"),
    (" ba b\n nop\nb: nop", "10800002 01000000 01000000 "),
    (" set b,%o0\nb: nop", "11000100 90122008 01000000 "),
    ("a: b: call a\n call b\nc:", "40000000 7FFFFFFF "),
    (" call f\r\n nop\r\n", "40000000 01000000 "),
    (" nop\r", "line 2: X2"),
    (" nop\n.param 0,1,0", "line 3: A4"),
    (
        ".fuel 1\n.param 0,1,0\n.cell %o0,0,1,0\n.result 0,1,0\n nop",
        "01000000 ",
    ),
    (".cell %o1,0,1,0\n.cell %o0,0,1,0\n nop", "line 3: A2"),
    (".cell %o1,0,1,0\n.cell %o1,0,1,0\n nop", "line 3: A2"),
    (".term %o0,1\n.term slot 0,1\n nop", "01000000 "),
    (".term slot 0,1\n.term %o0,1\n nop", "line 3: A2"),
    (" nop\n.byte 1", "line 3: A2"),
    (" nop\n.data\n nop", "line 4: A2"),
    (" nop\n.data\n.byte 256", "line 4: A2"),
    (" nop\n.data\n.byte 256,x", "line 4: S4"),
    (".data\n.byte x", "line 3: S4"),
    (".data\n.byte 256", "line 1: A2"),
    (" nop\n.block b\n.data\n.byte x\n.block c", "line 5: S4"),
    (" nop\n.data\n.skip 262145", "line 4: A3"),
    (" nop\n.data\n.skip 262144\n.align 8\n.byte 1", "line 6: A3"),
    (" nop\n.data\n.skip 262144\n.byte 1,x", "line 5: S4"),
    (
        " nop\n.data\nd: .byte 1,255,-128\n.half -2\ne: .align 4\n.word d,e,f",
        "01000000 01FF80FFFE00000000080000000800050004000000000000",
    ),
    (
        " nop\n.data\n.byte 1\n.text\n nop\n.data\n.half 258",
        "01000000 01000000 0101020000000000",
    ),
    (" nop\n.data\n.block b\n.text\n ta 0", "01000000 91D02000 "),
    (
        " nop\n.data\n.byte 1\n.align 2\n.byte 2\n.align 8\n.byte 3\n.skip 2",
        "01000000 01000200000000000300000000000000",
    ),
];

/// The source behind the line of a function.
pub(crate) fn inside(alloc: Global, source: &str) -> Result<String, AllocError> {
    format!(in alloc; ".function f,leaf,0,0,1\n{source}")
}

/// Whether a source gives this behind the line of a function.
fn gives_inside(alloc: Global, source: &str, wanted: &str) -> bool {
    match inside(alloc, source) {
        Ok(whole) => gives(alloc, whole.as_bytes(), wanted),
        Err(AllocError) => false,
    }
}

/// Each source does.
pub(crate) fn are_given_inside(rt: &impl Abort, alloc: Global, rows: &[(&str, &str)]) {
    for (source, wanted) in rows {
        assert!(rt; gives_inside(alloc, source, wanted), "{source}");
    }
}

#[test]
fn sources(rt: HostRuntime) {
    are_given_inside(&rt, rt.alloc(), &INSIDE);
}
