// What stands at the head of the rest of a line.
ghost use Rattle.std.specs.Prelude.{◌≡◌, ℕ, ◌+◌, ◌*◌, ◌-◌, ◌^◌, ◌<◌, ◌≤◌, length, MatchOption};
ghost use Rattle.std.specs.List.{prefix_len};
ghost use Rattle.std.specs.Char.{is_digit, digit_value};
ghost use Rattle.std.specs.Str.Parse.{digits_value};
ghost use Rattle.sbx_text.specs.Tokens.{is_blank, is_letter, starts_name, continues_name, is_sign, starts_hexadecimal};
ghost use Rattle.sbx_text.specs.Tokens.{number_at, number, percent, other, front, IsWithin};

use crate::Kind;
use crate::fault::TextFault;

/// The end of the tokens, a blank, a token with its length in bytes, or a fault.
#[derive(Clone, Copy)]
pub enum Step {
    Stop,
    Skip,
    Emit(Kind, usize),
    Refuse(TextFault),
}

fn is_blank(byte: u8) -> bool
    ensures { result ≡ is_blank byte }
{
    byte == b' ' || byte == b'\t'
}

fn starts_name(byte: u8) -> bool
    ensures { result ≡ starts_name byte }
{
    (byte >= b'A' && byte <= b'Z') || (byte >= b'a' && byte <= b'z') || byte == b'_' || byte == b'.'
}

fn continues_name(byte: u8) -> bool
    ensures { result ≡ continues_name byte }
{
    starts_name(byte) || (byte >= b'0' && byte <= b'9')
}

fn is_sign(byte: u8) -> bool
    ensures { result ≡ is_sign byte }
{
    byte == b',' || byte == b':' || byte == b'[' || byte == b']' || byte == b'+' || byte == b'-'
}

/// The value of a digit or a letter, 36 for another byte.
fn digit_value(byte: u8) -> u8
    ensures value { result ≡ digit_value byte }
    ensures bound { result ≤ 36 }
{
    match byte {
        b'0'..=b'9' => byte - b'0',
        b'A'..=b'Z' => byte - b'A' + 10,
        b'a'..=b'z' => byte - b'a' + 10,
        _ => 36,
    }
}

fn is_digit(byte: u8, radix: u8) -> bool
    ensures { result ≡ is_digit byte radix }
{
    digit_value(byte) < radix
}

/// How many bytes of a name stand in a row.
fn name_len(bytes: &[u8]) -> usize
    ensures value { result ≡ prefix_len continues_name bytes.now }
    ensures bound { result ≤ length bytes.now }
{
    bytes
        .iter()
        .take_while(|byte| continues_name(**byte))
        .count()
}

/// How many digits stand in a row.
fn digits_len(bytes: &[u8], radix: u8) -> usize
    ensures value { result ≡ prefix_len (λ b. is_digit b radix) bytes.now }
    ensures bound { result ≤ length bytes.now }
{
    bytes
        .iter()
        .take_while(|byte| is_digit(**byte, radix))
        .count()
}

/// The value of some digits, if it is below 2^40.
fn value_of(digits: &[u8], radix: u8) -> Option<u64>
    requires least { 1 ≤ radix }
    ensures { MatchOption result (2 ^ 40 ≤ digits_value radix digits.now) (λ n. (n < 2 ^ 40)
        × (n ≡ digits_value radix digits.now)) }
{
    let mut value: u64 = 0;
    for byte in digits {
        value = value * u64::from(radix) + u64::from(digit_value(*byte));
        if value >= 0x100_0000_0000 {
            return None;
        }
    }
    Some(value)
}

/// The number at the head of `digits`, which `before` bytes of a prefix precede.
fn number_at(radix: u8, before: usize, digits: &[u8]) -> Step
    requires least { 1 ≤ radix }
    requires small { before ≤ 2 }
    ensures value { result ≡ number_at radix before digits.now }
    ensures within { IsWithin (before + length digits.now) result }
{
    let len = digits_len(digits, radix);
    match value_of(digits.split_at(len).0, radix) {
        Some(value) => Step::Emit(Kind::Number(value), before + len),
        None => Step::Refuse(TextFault::NumberTooLarge),
    }
}

fn starts_hexadecimal(bytes: &[u8]) -> bool
    ensures { result ≡ starts_hexadecimal bytes.now }
{
    bytes.len() > 2 && bytes[0] == b'0' && bytes[1] == b'x' && is_digit(bytes[2], 16)
}

fn number(bytes: &[u8]) -> Step
    ensures value { result ≡ number bytes.now }
    ensures within { IsWithin (length bytes.now) result }
{
    if starts_hexadecimal(bytes) {
        number_at(16, 2, bytes.split_at(2).1)
    } else {
        number_at(10, 0, bytes)
    }
}

fn percent(name: &[u8]) -> Step
    ensures value { result ≡ percent name.now }
    ensures within { IsWithin (1 + length name.now) result }
{
    match name.first() {
        Some(first) if starts_name(*first) => Step::Emit(Kind::Percent, 1 + name_len(name)),
        _ => Step::Refuse(TextFault::BadCharacter),
    }
}

fn other(byte: u8) -> Step
    ensures value { result ≡ other byte }
    ensures within { IsWithin 1 result }
{
    if is_sign(byte) {
        Step::Emit(Kind::Sign, 1)
    } else if byte < 128 {
        Step::Refuse(TextFault::BadCharacter)
    } else {
        Step::Refuse(TextFault::NotAscii)
    }
}

/// What stands at the head of the rest of a line. A token has at least one byte and lies within the rest.
pub fn front(rest: &[u8]) -> Step
    ensures value { result ≡ front rest.now }
    ensures within { IsWithin (length rest.now) result }
{
    let Some((first, after)) = rest.split_first() else {
        return Step::Stop;
    };
    let byte = *first;
    if byte == b'!' {
        Step::Stop
    } else if is_blank(byte) {
        Step::Skip
    } else if starts_name(byte) {
        Step::Emit(Kind::Name, 1 + name_len(after))
    } else if byte == b'%' {
        percent(after)
    } else if is_digit(byte, 10) {
        number(rest)
    } else {
        other(byte)
    }
}
