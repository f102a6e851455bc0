//! Numbers, as lines spell them.

/// The word that a text spells by hexadecimal digits alone.
pub fn hexadecimal(text: &str) -> Option<u32> {
    if text.as_bytes().first() == Some(&b'+') {
        return None;
    }
    u32::from_str_radix(text, 16).ok()
}

/// The same of a number of 64 bits.
pub fn long_hexadecimal(text: &str) -> Option<u64> {
    if text.as_bytes().first() == Some(&b'+') {
        return None;
    }
    u64::from_str_radix(text, 16).ok()
}

/// The number that a text spells by decimal digits alone.
pub fn number(text: &str) -> Option<u32> {
    if text.as_bytes().first() == Some(&b'+') {
        return None;
    }
    u32::from_str_radix(text, 10).ok()
}
