//! Texts of instructions read again, and lengths counted.
use crate::instructions::{NAMELESS, gives, is_text, is_word};
use crate::names::Fixed;
use sbx_text::{Token, tokens};
use std::alloc::Global;
use std::process::Abort;
use v8_syntax::{length_of, parse_instr};

/// Every name is worth the greatest word, at a place that is no multiple of 4.
const ELSEWHERE: Fixed = Fixed {
    word: Some(0xFFFF_FFFF),
    here: 0x4_0003,
};

/// Words, their texts, and the words that these texts are: the first five from worked examples, the others as GNU as
/// gives them.
static WORDS: [(u32, &str, u32); 23] = [
    (0xD008_4000, "ldub [%g1+%g0],%o0", 0xD008_4000),
    (0x12BF_FFFD, "bne .-12", 0x12BF_FFFD),
    (0x81C7_E008, "jmpl %i7+8,%g0", 0x81C7_E008),
    (0x81E8_0000, "restore %g0,%g0,%g0", 0x81E8_0000),
    (0x81E8_0020, "restore %g0,%g0,%g0", 0x81E8_0000),
    (0x9C03_C01F, "add %o7,%i7,%sp", 0x9C03_C01F),
    (0x9DE3_BFA0, "save %sp,-96,%sp", 0x9DE3_BFA0),
    (0xBF2B_E01F, "sll %o7,31,%i7", 0xBF2B_E01F),
    (0xC20A_3801, "ldub [%o0-2047],%g1", 0xC20A_3801),
    (0xFC2E_2001, "stb %fp,[%i0+1]", 0xFC2E_2001),
    (0xDAFF_816D, "swapa [%fp+%o5] 11,%o5", 0xDAFF_816D),
    (0xC0BF_C16E, "stda %g0,[%i7+%sp] 11", 0xC0BF_C16E),
    (0xA148_0000, "rd %psr,%l0", 0xA148_0000),
    (0x819D_E000, "wr %l7,0,%tbr", 0x819D_E000),
    (0x81CC_A004, "rett %l2+4", 0x81CC_A004),
    (0x81DA_0009, "flush %o0+%o1", 0x81DA_0009),
    (0x93D0_6005, "tne %g1+5", 0x93D0_6005),
    (0x91D0_207F, "ta 127", 0x91D0_207F),
    (0x6000_0000, "call .-2147483648", 0x6000_0000),
    (0x2CBF_FFF9, "bneg,a .-28", 0x2CBF_FFF9),
    (0x2F3F_FFFF, "sethi 4194303,%l7", 0x2F3F_FFFF),
    (0x0000_0000, "unimp 0", 0x0000_0000),
    (0x8143_C000, "stbar", 0x8143_C000),
];

/// Whether a word has its text, and the text is read as its word, whatever the names are worth.
fn goes_round(alloc: Global, row: &(u32, &str, u32)) -> bool {
    let (word, text, again) = *row;
    is_text(word, text)
        && is_word(alloc, text, &NAMELESS, again)
        && is_word(alloc, text, &ELSEWHERE, again)
}

/// Each row goes round.
fn go_round(rt: &impl Abort, alloc: Global, rows: &[(u32, &str, u32)]) {
    for row in rows {
        assert!(rt; goes_round(alloc, row), "{}", row.1);
    }
}

#[test]
fn texts(rt: HostRuntime) {
    go_round(&rt, rt.alloc(), &WORDS);
}

/// Statements, how many instructions are counted, and how many they are: `set` of a symbol always takes two, and what
/// is no statement counts as one.
static LENGTHS: [(&str, usize, usize); 12] = [
    ("set 5,%o0", 1, 1),
    ("set 4096,%o0", 1, 1),
    ("set 4097,%o0", 2, 2),
    ("set sym,%o0", 2, 2),
    ("set sym+4,%o0", 2, 2),
    ("ba sym", 1, 1),
    ("add %o0,sym,%o1", 1, 1),
    ("", 1, 0),
    ("frob %o0", 1, 0),
    ("set sym", 1, 0),
    ("set,a 5,%o0", 1, 0),
    ("set sym,%y", 1, 0),
];

/// How many instructions a statement is.
fn made(line: &[u8], found: &[Token], symbols: &Fixed) -> usize {
    match parse_instr(line, found, symbols) {
        Ok(list) => list.len(),
        Err(_fault) => 0,
    }
}

/// Whether so many instructions are counted, and so many there are where the symbol is worth this word.
fn is_counted_at(line: &[u8], found: &[Token], counts: (usize, usize), word: u32) -> bool {
    let symbols = Fixed {
        word: Some(word),
        here: 0,
    };
    (length_of(line, found), made(line, found, &symbols)) == counts
}

fn is_counted(alloc: Global, row: &(&str, usize, usize)) -> bool {
    let (line, counts) = (row.0.as_bytes(), (row.1, row.2));
    match tokens(alloc, line) {
        Ok(found) => {
            is_counted_at(line, &found, counts, 0) && is_counted_at(line, &found, counts, 4092)
        }
        Err(_fault) => false,
    }
}

/// Each row is counted so.
fn are_counted(rt: &impl Abort, alloc: Global, rows: &[(&str, usize, usize)]) {
    for row in rows {
        assert!(rt; is_counted(alloc, row), "{}", row.0);
    }
}

#[test]
fn lengths(rt: HostRuntime) {
    are_counted(&rt, rt.alloc(), &LENGTHS);
}

/// Words without a syntax: `fadds %f0,%f0,%f0`, a word of a reserved opcode, and `lda [%g1+4],%o0`, which no identifier
/// fits.
static BARE: [(u32, &str); 3] = [
    (0x81A0_0820, ".word 0x81A00820"),
    (0x0040_0000, ".word 0x00400000"),
    (0xD080_6004, ".word 0xD0806004"),
];

fn is_two_tokens(alloc: Global, text: &str) -> bool {
    match tokens(alloc, text.as_bytes()) {
        Ok(found) => found.len() == 2,
        Err(_fault) => false,
    }
}

/// Whether a word has this text, of two tokens, of which the first is no mnemonic.
fn is_bare(alloc: Global, word: u32, text: &str) -> bool {
    is_text(word, text) && gives(alloc, text, &NAMELESS, "S1") && is_two_tokens(alloc, text)
}

/// Each row is bare.
fn are_bare(rt: &impl Abort, alloc: Global, rows: &[(u32, &str)]) {
    for (word, text) in rows {
        assert!(rt; is_bare(alloc, *word, text), "{text}");
    }
}

#[test]
fn bare_words(rt: HostRuntime) {
    are_bare(&rt, rt.alloc(), &BARE);
}
