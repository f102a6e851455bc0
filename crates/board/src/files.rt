//! The files that a monitor or an emulator loads: ELF, and S-records.
ghost use Rattle.std.specs.Prelude.{◌≡◌, ◌≤◌, length};

use std::alloc::{AllocError, Global};

/// Where the segment lies in the file, a page as most loaders have it.
const SEGMENT: u32 = 0x1000;

/// The bytes of an ELF file's header, and of a program header.
const HEADER: usize = 52;

const PROGRAM_HEADER: u32 = 32;

/// Bytes of RAM in a record.
const RECORD: usize = 32;

/// RAM that is written: its bytes up to the last one that isn't 0, where it begins, and where execution begins.
#[derive(Clone, Copy)]
pub struct Loaded<'a> {
    pub bytes: &'a [u8],
    pub base: u32,
    pub entry: u32,
}

/// Puts words behind bytes, most significant byte first.
fn push_words(bytes: &mut Vec<u8>, words: &[u32]) -> Result<(), AllocError> {
    for word in words {
        bytes.extend_from_slice(&word.to_be_bytes())?;
    }
    Ok(())
}

/// The headers of an ELF file of one segment, up to where it begins: 32 bits, most significant byte first, for SPARC,
/// executable. `size` is the segment's size in memory.
fn push_headers(file: &mut Vec<u8>, loaded: &Loaded<'_>, size: u32) -> Result<(), AllocError> {
    file.extend_from_slice(b"\x7fELF\x01\x02\x01\0\0\0\0\0\0\0\0\0")?;
    let kinds = [0x0002_0002, 1];
    let places = [loaded.entry, HEADER as u32, 0, 0];
    let sizes = [(HEADER as u32) << 16 | PROGRAM_HEADER, 1 << 16, 0];
    push_words(file, &kinds)?;
    push_words(file, &places)?;
    push_words(file, &sizes)?;
    let stored = loaded.bytes.len().min(size as usize) as u32;
    push_words(
        file,
        &[
            1,
            SEGMENT,
            loaded.base,
            loaded.base,
            stored,
            size,
            7,
            SEGMENT,
        ],
    )
}

/// RAM as an ELF file; `size` is how many bytes it has in memory, of which those behind the stored ones are 0.
pub fn elf_file(alloc: Global, loaded: &Loaded<'_>, size: u32) -> Result<Vec<u8>, AllocError> {
    let mut file = Vec::new(alloc);
    push_headers(&mut file, loaded, size)?;
    file.resize(SEGMENT as usize, 0)?;
    file.extend_from_slice(loaded.bytes)?;
    Ok(file)
}

/// A digit of a number in hexadecimal.
fn digit(number: u32) -> u8 {
    let number = (number % 16) as u8;
    if number < 10 {
        b'0' + number
    } else {
        b'A' + (number - 10)
    }
}

/// Puts a byte, in hexadecimal, behind a text.
fn push_byte(text: &mut Vec<u8>, byte: u8) -> Result<(), AllocError> {
    text.push(digit(u32::from(byte) / 16))?;
    text.push(digit(u32::from(byte)))?;
    Ok(())
}

/// Puts a record behind a text: its kind, an address, bytes, and the sum that shows whether they came through.
fn push_record(text: &mut Vec<u8>, kind: u8, address: u32, bytes: &[u8]) -> Result<(), AllocError> {
    text.push(b'S')?;
    text.push(kind)?;
    let count = (bytes.len() % 256) as u8;
    let count = count.wrapping_add(5);
    let mut sum = count;
    push_byte(text, count)?;
    for byte in address.to_be_bytes() {
        sum = sum.wrapping_add(byte);
        push_byte(text, byte)?;
    }
    for byte in bytes {
        sum = sum.wrapping_add(*byte);
        push_byte(text, *byte)?;
    }
    push_byte(text, !sum)?;
    text.push(b'\n')?;
    Ok(())
}

/// RAM as S-records with addresses of 32 bits; what is 0 behind the stored bytes isn't among them.
pub fn records(alloc: Global, loaded: &Loaded<'_>) -> Result<Vec<u8>, AllocError> {
    let mut text = Vec::new(alloc);
    let mut address = loaded.base;
    for bytes in loaded.bytes.chunks(RECORD) {
        push_record(&mut text, b'3', address, bytes)?;
        address = address.wrapping_add(RECORD as u32);
    }
    push_record(&mut text, b'7', loaded.entry, &[])?;
    Ok(text)
}
