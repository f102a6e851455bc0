//! Each limit of a source, at it and past it.
use crate::sources::gives;
use sbx_asm::assemble;
use std::alloc::{AllocError, Global};
use std::process::Abort;

/// The line of a function.
const HEAD: &str = ".function f,leaf,0,0,1\n";

/// The line of a function, and a word of it.
const ONE_WORD: &str = ".function f,leaf,0,0,1\n nop\n";

/// The first line and the rest of a source, how often it stands, and the fault: once less it has none. The first
/// source has some 2.8 MB.
type Row = (
    &'static str,
    &'static str,
    &'static str,
    usize,
    &'static str,
);

/// A line of some forty bytes but for its number.
const WORD: &str = " nop ! one of many words, all alike: ";

static LIMITS: [Row; 9] = [
    (HEAD, WORD, "", 65536, "line 65538: A3"),
    ("", ".function f", ",leaf,0,0,1\n nop", 257, "line 513: A3"),
    (ONE_WORD, ".block b", "\n nop", 4096, "line 8193: A3"),
    (HEAD, ".cell slot ", ",0,0,0", 65, "line 66: A3"),
    (HEAD, ".term slot ", ",1", 9, "line 10: A3"),
    (HEAD, ".param 0,", ",0", 7, "line 8: A3"),
    (HEAD, ".result 0,", ",0", 7, "line 8: A3"),
    (
        ONE_WORD,
        ".region ro\n.skip 32768 ! ",
        "\n.text",
        9,
        "line 27: A3",
    ),
    (
        ONE_WORD,
        ".region rw\n.skip 40960 ! ",
        "\n.text",
        7,
        "line 25: A3",
    ),
];

/// A source of a first line, some lines that end by their number, and an instruction.
fn source_of(alloc: Global, row: &Row, count: usize) -> Result<String, AllocError> {
    let (first, head, tail, _, _) = *row;
    let mut text = String::from_str(alloc, first)?;
    for number in 0..count {
        write!(text, "{head}{number}{tail}\n")?;
    }
    text.push_str(" nop\n")?;
    Ok(text)
}

/// Whether a source with one too many gives the fault.
fn is_refused(alloc: Global, row: &Row) -> bool {
    match source_of(alloc, row, row.3) {
        Ok(source) => gives(alloc, source.as_bytes(), row.4),
        Err(AllocError) => false,
    }
}

fn has_image(alloc: Global, source: &[u8]) -> bool {
    match assemble(alloc, source) {
        Ok(_image) => true,
        Err(_fault) => false,
    }
}

/// Whether it gives none with one less.
fn is_accepted(alloc: Global, row: &Row) -> bool {
    match source_of(alloc, row, row.3.saturating_sub(1)) {
        Ok(source) => has_image(alloc, source.as_bytes()),
        Err(AllocError) => false,
    }
}

/// Each limit is so.
fn are_limits(rt: &impl Abort, alloc: Global, rows: &[Row]) {
    for row in rows {
        assert!(rt; is_refused(alloc, row), "{} past it", row.1);
        assert!(rt; is_accepted(alloc, row), "{} at it", row.1);
    }
}

#[test]
fn limits(rt: HostRuntime) {
    are_limits(&rt, rt.alloc(), &LIMITS);
}

/// So many line ends.
fn empty_lines(alloc: Global, count: usize) -> Result<Vec<u8>, AllocError> {
    vec![in alloc; b'\n'; count]
}

/// Whether a source of lines without a byte gives this.
fn are_empty_lines(alloc: Global, count: usize, wanted: &str) -> bool {
    match empty_lines(alloc, count) {
        Ok(source) => gives(alloc, source.as_slice(), wanted),
        Err(AllocError) => false,
    }
}

/// Whether a source of 1,024 blanks and another byte gives this.
fn is_long_line(alloc: Global, last: u8, wanted: &str) -> bool {
    let mut line = [b' '; 1025];
    line[1024] = last;
    gives(alloc, &line, wanted)
}

#[test]
fn lines(rt: HostRuntime) {
    let alloc = rt.alloc();
    assert!(rt;
        are_empty_lines(alloc, 1_000_000, "line 1000001: A2"),
        "most"
    );
    assert!(rt;
        are_empty_lines(alloc, 1_000_001, "line 1000001: A3"),
        "more"
    );
    assert!(rt; is_long_line(alloc, b' ', "line 1: X4"), "longer");
    assert!(rt; is_long_line(alloc, b'\n', "line 2: A2"), "longest");
}
