//! Numbers as they stand in texts of this program.

/// The number that some decimal digits are, of which there are some and not many.
pub(crate) fn decimal(digits: &[u8]) -> Option<usize> {
    if digits.is_empty() || digits.len() > 9 {
        return None;
    }
    let mut number: usize = 0;
    for digit in digits {
        if !digit.is_ascii_digit() {
            return None;
        }
        number = number
            .saturating_mul(10)
            .saturating_add(usize::from(digit.saturating_sub(b'0')));
    }
    Some(number)
}

/// The value of a hexadecimal digit, upper case.
fn digit_value(digit: u8) -> Option<u32> {
    match digit {
        b'0'..=b'9' => Some(u32::from(digit - b'0')),
        b'A'..=b'F' => Some(u32::from(digit - b'A' + 10)),
        _ => None,
    }
}

/// The number that some hexadecimal digits are, upper case, up to eight of them.
pub(crate) fn hexadecimal(digits: &[u8]) -> Option<u32> {
    if digits.is_empty() || digits.len() > 8 {
        return None;
    }
    let mut number: u32 = 0;
    for digit in digits {
        number = number.wrapping_mul(16).wrapping_add(digit_value(*digit)?);
    }
    Some(number)
}
