//! Rows of words, formats, results, windows, translation, handlers and page tables.
mod formats;
mod handlers;
mod results;
mod tables;
mod translation;
mod windows;
mod words;

use v8_word::Icc;

/// The condition codes of one digit: N 8, Z 4, V 2, C 1.
fn icc_of(digit: u8) -> Icc {
    Icc {
        n: digit & 8 != 0,
        z: digit & 4 != 0,
        v: digit & 2 != 0,
        c: digit & 1 != 0,
    }
}
