//! Numbers, as the words of a start's lines spell them.
ghost use Rattle.std.specs.Prelude.{◌≡◌, ◌≤◌, ◌-◌, ◌^◌, ◌<◌, IfSome};
ghost use Rattle.std.specs.Option.{SomeIff};
ghost use Rattle.std.specs.Str.Parse.{IsNumeral, digits_value};
ghost use Rattle.inspect_start.specs.Lines.{number_of, numeral_of};

use cmd_jobs::decimal;
use std::str;

/// The greatest physical address, of 36 bits (appendix H).
pub const MOST_ADDRESS: u64 = 0xF_FFFF_FFFF;

/// The greatest word.
pub const MOST_WORD: u64 = 0xFFFF_FFFF;

/// The number that a text spells by hexadecimal digits alone, if it is at most `most`.
fn hexadecimal(text: &str, most: u64) -> Option<u64>
    ensures { SomeIff result (IsNumeral 16 text.now × (digits_value 16 text.now ≤ most))
        (digits_value 16 text.now) }
{
    if text.as_bytes().first() == Some(&b'+') {
        return None;
    }
    match u64::from_str_radix(text, 16) {
        Ok(number) if number <= most => Some(number),
        _ => None,
    }
}

/// The number of hexadecimal digits.
fn hexadecimal_of(digits: &[u8], most: u64) -> Option<u64>
    ensures { result ≡ numeral_of 16 most digits.now }
{
    match str::from_utf8(digits) {
        Ok(text) => hexadecimal(text, most),
        Err(_) => None,
    }
}

/// The number of decimal digits.
fn decimal_of(digits: &[u8], most: u64) -> Option<u64>
    ensures { result ≡ numeral_of 10 most digits.now }
{
    match str::from_utf8(digits) {
        Ok(text) => decimal(text, most),
        Err(_) => None,
    }
}

/// The number that a word spells, 0x and hexadecimal digits, or decimal digits alone, if it is at most `most`.
pub fn number(word: &[u8], most: u64) -> Option<u64>
    ensures value { result ≡ number_of most word.now }
    ensures most { IfSome result (λ number. number ≤ most) }
{
    match word.strip_prefix(b"0x") {
        Some(digits) => hexadecimal_of(digits, most),
        None => decimal_of(word, most),
    }
}

/// The physical address that a text spells, of 36 bits at most.
pub fn address(text: &str) -> Option<u64>
    ensures value { result ≡ number_of (2 ^ 36 - 1) text.now }
    ensures reach { IfSome result (λ number. number < 2 ^ 36) }
{
    number(text.as_bytes(), MOST_ADDRESS)
}
