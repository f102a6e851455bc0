//! The parts of a line.
use memchr::memchr3;
use v8_syntax::bytes_between;

/// Numbers lie below this.
const LIMIT: u64 = 0x100_0000_0000;

/// How many bytes of a text, from its beginning on, may stand in a name.
fn name_length(text: &[u8]) -> usize {
    for (place, byte) in text.iter().enumerate() {
        let is_mark = (*byte == b'_') | (*byte == b'.') | (*byte == b'$');
        if !(is_mark | byte.is_ascii_alphanumeric()) {
            return place;
        }
    }
    text.len()
}

/// Whether some bytes are a name: letters, digits, `_`, `.` and `$`, no digit first.
pub fn is_name(bytes: &[u8]) -> bool {
    match bytes.first() {
        Some(first) => !first.is_ascii_digit() && name_length(bytes) == bytes.len(),
        None => false,
    }
}

/// The text of a name, which is ASCII; of other bytes a question mark.
pub fn shown(bytes: &[u8]) -> &str {
    match std::str::from_utf8(bytes) {
        Ok(text) => text,
        Err(_) => "?",
    }
}

/// Where a byte stands first outside of quotes and parentheses; the length where it doesn't.
pub fn place_of(wanted: u8, text: &[u8]) -> usize {
    let mut quoted = false;
    let mut escaped = false;
    let mut depth: u32 = 0;
    for (place, byte) in text.iter().enumerate() {
        if quoted {
            quoted = escaped | (*byte != b'"');
            escaped = !escaped & (*byte == b'\\');
        } else if (*byte == wanted) & (depth == 0) {
            return place;
        } else {
            quoted = *byte == b'"';
            depth = match *byte {
                b'(' => depth.saturating_add(1),
                b')' => depth.saturating_sub(1),
                _ => depth,
            };
        }
    }
    text.len()
}

/// What stands before the first blank, and what stands behind it.
pub fn first_word(text: &[u8]) -> (&[u8], &[u8]) {
    let end = memchr3(b' ', b'\t', b'\r', text).unwrap_or(text.len());
    let rest = bytes_between(text, end, text.len()).trim_ascii();
    (bytes_between(text, 0, end), rest)
}

/// The first of some operands with commas between them, and the others.
pub fn first_operand(text: &[u8]) -> (&[u8], &[u8]) {
    let end = place_of(b',', text);
    let rest = bytes_between(text, end.saturating_add(1), text.len());
    (bytes_between(text, 0, end).trim_ascii(), rest.trim_ascii())
}

/// The name of the label that a line begins with, and what stands behind it.
pub fn first_label(text: &[u8]) -> Option<(&[u8], &[u8])> {
    let end = name_length(text);
    match text.get(end) {
        Some(b':') => {
            let rest = bytes_between(text, end.saturating_add(1), text.len());
            Some((bytes_between(text, 0, end), rest.trim_ascii()))
        }
        _ => None,
    }
}

/// A number as the assembler reads it, perhaps behind a sign: hexadecimal behind `0x`, octal behind `0`, else decimal.
/// It lies below 2^40.
pub fn number_of(text: &[u8]) -> Option<i64> {
    let (natural, sign) = match text {
        [b'-', rest @ ..] => (rest, -1),
        _ => (text, 1),
    };
    let (digits, radix) = match natural {
        [b'0', b'x', digits @ ..] => (digits, 16),
        [b'0', _, ..] => (natural, 8),
        _ => (natural, 10),
    };
    // `+` isn't for the assembler what it is for `from_str_radix`
    match u64::from_str_radix(shown(digits), radix) {
        Ok(value) if value < LIMIT && !digits.starts_with(b"+") => Some(sign * value as i64),
        _ => None,
    }
}

/// A number as a word, without the bits that don't fit.
pub fn word_of(number: i64) -> u32 {
    (number as i128).rem_euclid(0x1_0000_0000) as u32
}

/// A name, and the number behind it, perhaps 0; or a number, with no name.
pub fn expression_of(text: &[u8]) -> (&[u8], Option<i64>) {
    let end = name_length(text);
    let name = bytes_between(text, 0, end);
    if !is_name(name) {
        return (&[], number_of(text));
    }
    let (sign, rest) = match bytes_between(text, end, text.len()).trim_ascii() {
        [] => return (name, Some(0)),
        [b'+', rest @ ..] => (1, rest),
        [b'-', rest @ ..] => (-1, rest),
        _ => return (name, None),
    };
    match number_of(rest.trim_ascii()) {
        Some(number) => (name, Some(number.saturating_mul(sign))),
        None => (name, None),
    }
}

/// What stands between two quotes.
pub fn unquoted(text: &[u8]) -> Option<&[u8]> {
    match text {
        [b'"', inner @ .., b'"'] => Some(inner),
        _ => None,
    }
}
