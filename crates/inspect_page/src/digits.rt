//! Bytes as digits, and words of code with their texts.
use arrayvec::ArrayString;
use std::alloc::AllocError;
use v8_formats::decode;
use v8_forms::print_instr;

/// Pushes bytes by two hexadecimal digits each.
pub fn push_bytes(out: &mut String, bytes: &[u8]) -> Result<(), AllocError> {
    for byte in bytes {
        write!(out, "{byte:02X}")?;
    }
    Ok(())
}

/// Pushes the line of a word of code: its address, the word, and the text of the instruction that it means.
pub fn push_word(out: &mut String, address: u32, word: u32) -> Result<(), AllocError> {
    let mut text = ArrayString::<64>::new();
    print_instr(&decode(word), &mut text);
    let text = text.as_str();
    writeln!(out, "w{address:X} {word:X} {text}")
}
