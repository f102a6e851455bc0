//! What `verify` refuses, and how it is told.
use crate::calls::{judged, read};
use crate::sources::{
    BARE, BETWEEN_REGIONS, BYTES, CALLER, CALLER_OF_39, CHAIN_REST, COUNTDOWN, COUNTDOWN_REST,
    EXITS, FRAMED, HELLO, INCREMENT, LINKS, Links, Source, TWO_REGIONS,
};
use sbx_image::Image;
use sbx_run::Refusal;
use std::alloc::{AllocError, Global};
use std::process::Abort;

/// How a source of these pieces and links is refused.
type Row = (
    &'static str,
    &'static [&'static str],
    Option<&'static Links>,
);

/// Faults of regions, of what a function and a block declare, and of the first words.
static DECLARATIONS: [Row; 12] = [
    // one byte behind the last of the second region, and a store into the first, which may be read alone
    (
        "refused V9 in function 0 at 00040010",
        &[TWO_REGIONS, BETWEEN_REGIONS, " stb %o0,[%g2+8]\n", EXITS],
        None,
    ),
    (
        "refused V9 in function 0 at 00040010",
        &[TWO_REGIONS, BETWEEN_REGIONS, " stb %o0,[%g1]\n", EXITS],
        None,
    ),
    (
        "refused V14 in function 0 at 00040014",
        &[
            ".services exit,put\n.function main,leaf,0,0,15\n.fuel 15\n",
            HELLO,
        ],
        None,
    ),
    (
        "refused V14 in function 0 at 00040000",
        &[
            ".services exit,put\n.function main,leaf,0,0,15\n.fuel 16\n",
            HELLO,
        ],
        None,
    ),
    (
        "refused V3 in function 0 at 00040000",
        &[BARE, " save %sp,-96,%sp\n"],
        None,
    ),
    (
        "refused V3 in function 0 at 00040000",
        &[
            ".services exit,put\n.function main,framed,0,0,100\n.fuel 100\n",
            HELLO,
        ],
        None,
    ),
    (
        "refused V18 in function 0 at 00040000",
        &[BARE, ".param 0,0,0\n", HELLO],
        None,
    ),
    (
        "refused V16 in function 0 at 00040000",
        &[
            BARE,
            " mov 72,%o0\n.function next,leaf,0,0,100\n.fuel 100\n",
            HELLO,
        ],
        None,
    ),
    (
        "refused V14 in function 0 at 00040000",
        &[BARE, " mov 72,%o0\n.block next\n.fuel 100\n", HELLO],
        None,
    ),
    (
        "refused V13 in function 0 at 00040000",
        &[BARE, ".cell %g1,0,0,0\n", HELLO],
        None,
    ),
    (
        "refused V14 in function 0 at 00040000",
        &[BARE, ".term %g1,1\n", HELLO],
        None,
    ),
    (
        "refused V3 in function 0 at 00040000",
        &[
            ".services exit,put\n.function main,leaf,8,0,100\n.fuel 100\n",
            HELLO,
        ],
        None,
    ),
];

/// Faults of single words, and of the frame.
static SINGLE_WORDS: [Row; 10] = [
    (
        "refused V3 in function 0 at 00040004",
        &[BARE, " mov 0,%o0\n ta 0\n ta 0\n"],
        None,
    ),
    (
        "refused V6 in function 0 at 00040000",
        &[BARE, " ta 0\n"],
        None,
    ),
    (
        "refused V6 in function 0 at 00040004",
        &[BARE, " mov 0,%o0\n add %o1,%o0,%o1\n restore\n"],
        None,
    ),
    (
        "refused V7 in function 0 at 00040000",
        &[BARE, " mov 72,%sp\n"],
        None,
    ),
    // endless SAVEs with the stack pointer at the device
    (
        "refused V7 in function 0 at 00040000",
        &[".function main,leaf,0,0,0\n sethi 0x3C0040,%sp\n ba .+0\n save %sp,0,%sp\n"],
        None,
    ),
    (
        "refused V7 in function 0 at 00040000",
        &[BARE, " mov 72,%l0\n"],
        None,
    ),
    (
        "refused V12 in function 0 at 00040000",
        &[BARE, " ta 3\n"],
        None,
    ),
    (
        "refused V12 in function 0 at 00040000",
        &[".services exit,put\n.function main,leaf,0,0,100\n.fuel 100\n ta 1\n"],
        None,
    ),
    (
        "refused V15 in function 0 at 00040000",
        &[
            ".services exit,put\n.function main,leaf,0,4033,100\n.fuel 100\n",
            HELLO,
        ],
        None,
    ),
    (
        "refused V16 in function 0 at 00040000",
        &[BARE, " mov 72,%o0\n"],
        None,
    ),
];

/// Faults of loops, calls, returns and chains.
static CALLS: [Row; 9] = [
    (
        "refused V14 in function 0 at 00040014",
        &[COUNTDOWN, ".term %l0,3\n", COUNTDOWN_REST],
        None,
    ),
    (
        "refused V6 in function 0 at 00040004",
        &[FRAMED, " ld [%sp+64],%o0\n ta 0\n"],
        None,
    ),
    (
        "refused V14 in function 0 at 00040018",
        &[
            ".services exit,get,put\n.function main,framed,96,96,38\n.fuel 38\n",
            CALLER,
            BYTES,
            INCREMENT,
        ],
        None,
    ),
    (
        "refused V13 in function 0 at 0004000C",
        &[
            CALLER_OF_39,
            CALLER,
            ".param 0,31,0\n.result 1,255,0\n",
            INCREMENT,
        ],
        None,
    ),
    (
        "refused V17 in function 1 at 00040020",
        &[
            CALLER_OF_39,
            CALLER,
            ".param 0,254,0\n.result 1,254,0\n",
            INCREMENT,
        ],
        None,
    ),
    // a call to an earlier function
    (
        "refused V5 in function 1 at 00040018",
        &[
            ".services exit,get,put\n.function main,framed,96,192,131\n.fuel 131\n",
            " save %sp,-96,%sp\n call again\n nop\n mov 0,%o0\n ta 0\n",
            ".function again,framed,96,96,100\n.fuel 100\n",
            " save %sp,-96,%sp\n call main\n nop\n ret\n restore\n",
        ],
        None,
    ),
    // the first function returns
    (
        "refused V18 in function 0 at 00040004",
        &[FRAMED, " ret\n restore\n"],
        None,
    ),
    // a chain whose first function has a word of stack too few
    (
        "refused V15 in function 0 at 00040004",
        &[
            ".services exit,get,put\n.function f0,framed,96,3836,2102\n",
            CHAIN_REST,
        ],
        Some(&LINKS),
    ),
    // ... and one with a turn too few: its way on is told before the calls of the others
    (
        "refused V14 in function 0 at 00040010",
        &[
            ".services exit,get,put\n.function f0,framed,96,3840,2101\n.fuel 2101\n",
            " save %sp,-96,%sp\n call f1\n nop\n mov 0,%o0\n ta 0\n",
        ],
        Some(&LINKS),
    ),
];

/// Whether the refusal is shown as this line.
pub(crate) fn is_shown(alloc: Global, refusal: &Refusal, told: &str) -> bool {
    match format!(in alloc; "{refusal}") {
        Ok(text) => text.as_str() == told,
        Err(AllocError) => false,
    }
}

/// Whether an image that came back is the other, and the refusal is shown as this line.
fn is_back(alloc: Global, back: &Image, refusal: &Refusal, other: &Image, told: &str) -> bool {
    back.words() == other.words() && is_shown(alloc, refusal, told)
}

/// Whether the image is refused with this line, and comes back, as the other.
fn is_refused(alloc: Global, image: Image, other: &Image, told: &str) -> bool {
    match judged(alloc, image) {
        Ok(_accepted) => false,
        Err(refused) => is_back(alloc, &refused.0, &refused.1, other, told),
    }
}

/// Whether the source's image is refused so, and comes back as the other.
fn is_told_of(alloc: Global, source: &Source, other: &Image, told: &str) -> bool {
    match source.image(alloc) {
        Some(image) => is_refused(alloc, image, other, told),
        None => false,
    }
}

/// Whether the row's image is refused so.
fn is_told(alloc: Global, row: &Row) -> bool {
    let (told, pieces, links) = *row;
    let source = Source { pieces, links };
    match source.image(alloc) {
        Some(other) => is_told_of(alloc, &source, &other, told),
        None => false,
    }
}

/// Each row is told.
fn are_told(rt: &impl Abort, alloc: Global, rows: &[Row]) {
    for row in rows {
        assert!(rt; is_told(alloc, row), "{}", row.0);
    }
}

// A function that names a table costs the prover by all that stands in it, and more than in proportion: each of these
// names one.

fn declarations_are_told(rt: &impl Abort, alloc: Global) {
    are_told(rt, alloc, &DECLARATIONS);
}

fn single_words_are_told(rt: &impl Abort, alloc: Global) {
    are_told(rt, alloc, &SINGLE_WORDS);
}

fn calls_are_told(rt: &impl Abort, alloc: Global) {
    are_told(rt, alloc, &CALLS);
}

#[test]
fn tells_the_first_fault(rt: HostRuntime) {
    declarations_are_told(&rt, rt.alloc());
    single_words_are_told(&rt, rt.alloc());
    calls_are_told(&rt, rt.alloc());
}

/// Images of one word each, of no instruction, or of one with a bit that it doesn't use.
static WORDS: [[u8; 4]; 2] = [[0xFF; 4], [0x81, 0xE8, 0, 0x20]];

/// The header of an image of one word, and what stands behind the word: one leaf function of one block, of 100 turns.
const BEFORE: &[u8] = b"SBX8\x00\x01\x00\x07\x00\x00\x00\x01\x00\x00\x00\x00\x00\x01\x00\x01";

const BEHIND: [u8; 42] = [
    0, 0, 0, 0, 0, 4, 0, 0, 0, 0, 0, 0, 0, 0, 0, 0, 0, 0, 0, 0, 0, 0, 0, 100, 0, 1, 0, 4, 0, 0, 0,
    0, 0, 0, 0, 0, 0, 0, 0, 0, 0, 100,
];

/// Adds the bytes of an image of this word alone, which no source means.
fn push_image(bytes: &mut Vec<u8>, word: &[u8]) -> Result<(), AllocError> {
    bytes.extend_from_slice(BEFORE)?;
    bytes.extend_from_slice(word)?;
    bytes.extend_from_slice(&BEHIND)
}

/// This image.
fn image_of(alloc: Global, word: &[u8]) -> Option<Image> {
    let mut bytes = Vec::new(alloc);
    match push_image(&mut bytes, word) {
        Ok(()) => read(alloc, bytes.as_slice()).ok(),
        Err(AllocError) => None,
    }
}

/// Whether the image of the word is told as one with no instruction, and comes back as the other.
fn is_none_as(alloc: Global, word: &[u8], other: &Image) -> bool {
    match image_of(alloc, word) {
        Some(image) => is_refused(alloc, image, other, "refused V1 in function 0 at 00040000"),
        None => false,
    }
}

/// Whether the word is told as no instruction.
fn is_none(alloc: Global, word: &[u8]) -> bool {
    match image_of(alloc, word) {
        Some(other) => is_none_as(alloc, word, &other),
        None => false,
    }
}

#[test]
fn tells_words_that_are_none(rt: HostRuntime) {
    for word in &WORDS {
        assert!(rt; is_none(rt.alloc(), word), "{word:?}");
    }
}
