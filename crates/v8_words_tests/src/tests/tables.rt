// Words of the page tables, by number, from the format of a page table's entry in appendix H and from the address map.
use std::process::Abort;
use v8_layout::laws::{
    marks_keep_what_is_loaded, rights_are_those_of_the_pages, tables_map_addresses, tables_stay,
};
use v8_layout::{Pages, page_tables};

/// Numbers of words, with the words.
type Numbered = (usize, u32);

/// Asserts that these words have these numbers.
fn have(rt: &impl Abort, words: &[u32], rows: &[Numbered]) {
    for &(number, word) in rows {
        assert!(rt; is_at(words, number, word), "word {number}");
    }
}

/// Whether the word of a number is this.
fn is_at(words: &[u32], number: usize, word: u32) -> bool {
    match words.get(number) {
        Some(found) => *found == word,
        None => false,
    }
}

/// Of one page of code, four of data, of which the middle ones may be written, and two of stack.
const FEW: [Numbered; 18] = [
    (0, 0x241),
    (256, 0x281),
    (496, 0x291),
    (513, 0x2A1),
    (514, 0x2B1),
    (515, 0x2C1),
    (640, 0x1012),
    (641, 0),
    (704, 0x5002),
    (705, 0x5106),
    (706, 0x5206),
    (707, 0x5302),
    (708, 0),
    (829, 0),
    (830, 0x9E06),
    (831, 0x9F06),
    (832, 0x1A),
    (848, 0x1000_001E),
];

#[test]
fn pages_of_data_have_their_rights(rt: HostRuntime) {
    let writable = [false, true, true, false];
    let words = page_tables(&Pages {
        code: 1,
        writable: &writable,
        stack: 2,
    });
    have(&rt, &words, &FEW);
}

/// Of 64 pages of code, 64 of data, of which the last may be read alone, and sixteen of stack.
const MANY: [Numbered; 7] = [
    (703, 0x4F12),
    (704, 0x5006),
    (766, 0x8E06),
    (767, 0x8F02),
    (815, 0),
    (816, 0x9006),
    (831, 0x9F06),
];

#[test]
fn as_many_pages_as_there_can_be(rt: HostRuntime) {
    let mut writable = [true; 64];
    writable[63] = false;
    let words = page_tables(&Pages {
        code: 64,
        writable: &writable,
        stack: 16,
    });
    have(&rt, &words, &MANY);
}

#[test]
fn laws_return(_rt: HostRuntime) {
    tables_map_addresses();
    tables_stay();
    rights_are_those_of_the_pages();
    marks_keep_what_is_loaded();
}
