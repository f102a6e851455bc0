//! Sources whose data are regions.
use crate::sources::{are_given_inside, gives, is_written};
use sbx_asm::assemble;
use std::alloc::{AllocError, Global};
use std::process::Abort;

/// Writes the letter H from a region that is read alone, and stores it in one that is written.
const LETTER_SOURCE: &str = ".services exit,put
.region ro
.byte 72,105
.region rw
.skip 8
.text
.function main,leaf,0,0,13
.fuel 13
    sethi 512,%g1
    ldub [%g1],%o0
    ta 2
    sethi 516,%g2
    stb %o0,[%g2+7]
    mov 0,%o0
    ta 0
";

/// The bytes of its image by the format's fields: the header, the two regions' lengths and kinds, the words, the
/// regions, the function and its block.
const LETTER: &[&str] = &[
    "534258380002000500000007000200010001",
    "000000080000000000080001",
    "03000200d008400091d0200205000204d028a0079010200091d02000",
    "48690000000000000000000000000000",
    "00000000000400000000000000000000000000000000000d0001",
    "0004000000000000000000000000000d",
];

#[test]
fn writes_regions(rt: HostRuntime) {
    assert!(rt; is_written(rt.alloc(), LETTER_SOURCE, LETTER));
}

/// Sources behind the line of a function.
static INSIDE: [(&str, &str); 22] = [
    (" nop\n.region ro\n.byte 1\n.data", "line 5: A2"),
    (" nop\n.data\n.region rw\n.byte 1", "line 4: A2"),
    (
        " nop\n.data\n.byte 1\n.text\n.region rw\n.byte 1",
        "line 6: A2",
    ),
    (" nop\n.region ro\n.region rw\n.byte 1", "line 3: A2"),
    (" nop\n.region ro\n.byte 1\n.region rw", "line 5: A2"),
    (" nop\n.region ro\n.skip 0\n.align 8", "line 3: A2"),
    (" nop\n.region ro\n.text\n.byte 1", "line 3: A2"),
    (" nop\n.region ro\n.byte 1\n.text\n.byte 2", "line 6: A2"),
    (" nop\n.region ro\n nop", "line 3: A2"),
    (" nop\n.region ro\n.byte 1\n nop", "line 5: A2"),
    (" nop\n.region ro\n.byte x", "line 4: S4"),
    (" nop\n.region ro\n.byte 256", "line 4: A2"),
    (" nop\n.region ro\n.skip 262145", "line 4: A3"),
    (" nop\n.region ro\n.skip 262144\n.byte 1,x", "line 5: S4"),
    (
        " nop\n.region ro\n.skip 262144\n.region rw\n.byte 1",
        "line 7: A3",
    ),
    (
        " nop\n.region ro\n.byte 1\na: .region rw\nb: .word a,b,c\nc:",
        "01000000 010000000000000000080001000810000008100C00000000",
    ),
    (
        " nop\n.region ro\n.byte 1\n.region rw\n.byte 2\n.align 4\n.byte 3",
        "01000000 01000000000000000200000003000000",
    ),
    (
        " nop\n.region ro\n.byte 1\n.text\n nop\n.region rw\n.byte 2",
        "01000000 01000000 01000000000000000200000000000000",
    ),
    (
        " nop\n.region ro\n.byte 1\n.block b\n.text\n ta 0",
        "01000000 91D02000 0100000000000000",
    ),
    (".region ro\n.byte 1", "line 1: A2"),
    (
        " ld [%g1+x-0x80000],%g2\n.data\n.byte 1\n.region rw\nx: .byte 1",
        "line 5: A2",
    ),
    (
        " ld [%g1+x-0x80000],%g2\n.byte 1\n.region rw\nx: .byte 1",
        "line 3: A2",
    ),
];

/// Regions of which no function stands before.
const FULL: &[u8] = b".region ro\n.skip 262144\n.region rw\n.byte 1";

#[test]
fn regions(rt: HostRuntime) {
    are_given_inside(&rt, rt.alloc(), &INSIDE);
    assert!(rt; gives(rt.alloc(), FULL, "line 5: A2"), "full");
}

/// How long the first region is, and the words of `set` of the second one's start.
static STARTS: [(u32, [u32; 2]); 4] = [
    (1, [0x1100_0204, 0x9012_2000]),
    (4096, [0x1100_0204, 0x9012_2000]),
    (4097, [0x1100_0208, 0x9012_2000]),
    (258_048, [0x1100_02fc, 0x9012_2000]),
];

/// A source that has the start of its second region in its code.
fn source_of(alloc: Global, bytes: u32) -> Result<String, AllocError> {
    format!(in alloc;
        ".function f,leaf,0,0,1\n set b,%o0\n.region ro\n.skip {bytes}\n.region rw\nb: .byte 1"
    )
}

/// Whether a source's words are these.
fn has_words(alloc: Global, source: &[u8], words: &[u32]) -> bool {
    match assemble(alloc, source) {
        Ok(image) => image.words() == words,
        Err(_fault) => false,
    }
}

fn starts_at(alloc: Global, row: &(u32, [u32; 2])) -> bool {
    match source_of(alloc, row.0) {
        Ok(source) => has_words(alloc, source.as_bytes(), &row.1),
        Err(AllocError) => false,
    }
}

/// The last one's page is the last of 64.
#[test]
fn starts(rt: HostRuntime) {
    for row in &STARTS {
        assert!(rt; starts_at(rt.alloc(), row), "{}", row.0);
    }
}
