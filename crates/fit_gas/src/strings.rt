//! The bytes that a string of the assembler stands for.
use fit_code::Heap;
use v8_syntax::{beside, bytes_between};

/// The letters that stand for other bytes behind a backslash.
static LETTERS: [(&str, u8); 5] = [
    ("n", b'\n'),
    ("t", b'\t'),
    ("r", b'\r'),
    ("b", 8),
    ("f", 12),
];

/// The byte that stands behind a backslash, and how many bytes of the text it takes: octal digits, three at most, or a
/// letter; none where nothing stands there, and of `x`.
fn escaped(text: &[u8]) -> (u8, usize) {
    let mut value: u8 = 0;
    let mut length: usize = 0;
    for byte in bytes_between(text, 0, text.len().min(3)) {
        let digit = byte.wrapping_sub(b'0');
        if digit > 7 {
            break;
        }
        value = value.wrapping_mul(8).wrapping_add(digit);
        length = length.saturating_add(1);
    }
    match text.first() {
        Some(letter) if (length == 0) & (*letter != b'x') => {
            let found = beside(bytes_between(text, 0, 1), &LETTERS);
            (found.unwrap_or(*letter), 1)
        }
        _ => (value, length),
    }
}

/// Appends the bytes of strings that stand one behind the other, each in its quotes. False where one has none, and
/// where `\x` is in it, which isn't read, or a backslash that ends it.
pub fn push_strings(memory: &mut Heap, text: &[u8], out: &mut Vec<u8>) -> bool {
    let mut rest = text;
    let mut is_open = false;
    for _ in 0..text.len() {
        let Some((first, others)) = rest.split_first() else {
            break;
        };
        rest = others;
        if *first == b'"' {
            is_open = !is_open;
            rest = if is_open { others } else { others.trim_ascii() };
        } else if is_open {
            let mut byte = *first;
            let mut length = 0;
            if byte == b'\\' {
                (byte, length) = escaped(others);
                if length == 0 {
                    return false;
                }
            }
            memory.push(out, byte);
            rest = bytes_between(others, length, others.len());
        } else {
            return false;
        }
    }
    !is_open & !text.is_empty()
}
