//! Images of raw words.
use sbx_image::{Image, parse};
use std::alloc::{AllocError, Global};
use std::test::Fail;
use v8_board::Ending;
use v8_word::TrapType;

/// What follows the words of code: one leaf function of one block.
const AFTER_CODE: [u8; 42] = [
    0, 0, 0, 0, 0, 4, 0, 0, 0, 0, 0, 0, 0, 0, 0, 0, 0, 0, 0, 0, 0, 0, 0, 0, 0, 1, 0, 4, 0, 0, 0, 0,
    0, 0, 0, 0, 0, 0, 0, 0, 0, 0,
];

/// How many words or bytes there are, as an image has it.
fn count_of(length: usize) -> [u8; 4] {
    ((length % 0x1_0000) as u32).to_be_bytes()
}

/// Puts the bytes of words.
fn put_code(bytes: &mut Vec<u8>, words: &[u32]) -> Result<(), AllocError> {
    for word in words {
        bytes.extend_from_slice(&word.to_be_bytes())?;
    }
    Ok(())
}

/// Puts the bytes of an image of version 1.
fn put_image(bytes: &mut Vec<u8>, words: &[u32], data: &[u8]) -> Result<(), AllocError> {
    // all services and one page of stack
    bytes.extend_from_slice(b"SBX8\x00\x01\x00\x07")?;
    bytes.extend_from_slice(&count_of(words.len()))?;
    bytes.extend_from_slice(&count_of(data.len()))?;
    bytes.extend_from_slice(&[0, 1, 0, 1])?;
    put_code(bytes, words)?;
    bytes.extend_from_slice(data)?;
    bytes.extend_from_slice(&AFTER_CODE)
}

/// The image of these bytes.
pub(crate) fn image_of(alloc: Global, bytes: &[u8]) -> Result<Image, Fail> {
    Ok(parse(alloc, bytes)?)
}

/// An image of raw words and data: one leaf function of one block, all services, and one page of stack.
pub(crate) fn image(alloc: Global, words: &[u32], data: &[u8]) -> Result<Image, Fail> {
    let mut bytes = Vec::new(alloc);
    put_image(&mut bytes, words, data)?;
    image_of(alloc, &bytes)
}

/// Puts the bytes of an image of version 2.
fn put_regions_image(bytes: &mut Vec<u8>, words: &[u32]) -> Result<(), AllocError> {
    bytes.extend_from_slice(b"SBX8\x00\x02\x00\x07")?;
    bytes.extend_from_slice(&count_of(words.len()))?;
    // two regions, one page of stack, one function; then the length and the kind of each region
    bytes.extend_from_slice(&[0, 2, 0, 1, 0, 1, 0, 0, 0, 8, 0, 0, 0, 0, 0, 8, 0, 1])?;
    put_code(bytes, words)?;
    bytes.extend_from_slice(b"readonlywritable")?;
    bytes.extend_from_slice(&AFTER_CODE)
}

/// The same in version 2, with eight bytes of data that may be read alone, and on the next page eight that may be
/// written.
pub(crate) fn regions_image(alloc: Global, words: &[u32]) -> Result<Image, Fail> {
    let mut bytes = Vec::new(alloc);
    put_regions_image(&mut bytes, words)?;
    image_of(alloc, &bytes)
}

pub(crate) const SAVE: u32 = 0x9DE3_BFA0; // save %sp,-96,%sp

pub(crate) const NOP: u32 = 0x0100_0000;

pub(crate) const RET: u32 = 0x81C7_E008;

pub(crate) const RESTORE: u32 = 0x81E8_0000;

pub(crate) const GET: u32 = 0x91D0_2001; // ta 1

pub(crate) const PUT: u32 = 0x91D0_2002; // ta 2

pub(crate) const EXIT: u32 = 0x91D0_2000; // ta 0

/// `mov 72,%o0; ta 2; mov 105,%o0; ta 2; mov 0,%o0; ta 0`
pub(crate) const GREETING: [u32; 6] = [0x9010_2048, PUT, 0x9010_2069, PUT, 0x9010_2000, EXIT];

/// `sethi 512,%g1; ld [%g1],%g2; st %g0,[%g1]; mov 0,%o0; ta 0`
pub(crate) const STORES_AFTER_A_LOAD: [u32; 5] = [
    0x0300_0200,
    0xC400_4000,
    0xC020_4000,
    0x9010_2000,
    EXIT,
];

/// The same without the store.
pub(crate) const LOADS: [u32; 4] = [0x0300_0200, 0xC400_4000, 0x9010_2000, EXIT];

/// An ending, with the number of its trap.
#[derive(Clone, Copy)]
pub(crate) enum End {
    Exit(u32),
    Trapped(u8),
    ErrorMode(u8),
    Limit,
}

impl End {
    pub(crate) fn ending(self) -> Ending {
        match self {
            End::Exit(status) => Ending::Exit(status),
            End::Trapped(number) => Ending::Trapped(TrapType::new(number)),
            End::ErrorMode(number) => Ending::ErrorMode(TrapType::new(number)),
            End::Limit => Ending::Limit,
        }
    }
}
