//! Loads and stores, the words behind stores, and the bytes that were put out.
use std::alloc::AllocError;
use v8_core::{DataAccess, Turn};
use v8_mmu::Bus;
use v8_word::{Size, bytes_in};

/// Pushes a word of RAM by its virtual address, where there is one at the place. The device has none.
fn push_word<B: Bus>(
    out: &mut String,
    bus: &B,
    address: u32,
    place: u64,
) -> Result<(), AllocError> {
    match bus.entry(place) {
        Some(word) => write!(out, "m{address:08X}{word:X}"),
        None => Ok(()),
    }
}

/// Pushes the words that a store wrote to.
fn push_stored<B: Bus>(out: &mut String, bus: &B, access: &DataAccess) -> Result<(), AllocError> {
    if !access.store {
        return Ok(());
    }
    let (address, place) = (access.va & !3, access.pa & !3);
    push_word(out, bus, address, place)?;
    match access.size {
        Size::Double => push_word(out, bus, address.wrapping_add(4), place.saturating_add(4)),
        _ => Ok(()),
    }
}

/// Pushes a load or a store that completed, with its bytes and its address, and the words that it wrote to; or the
/// address that was refused.
pub fn push_access<B: Bus>(
    out: &mut String,
    bus: &B,
    turn: &Turn,
    refused: Option<u32>,
) -> Result<(), AllocError> {
    if let Some(address) = refused {
        return write!(out, "j{address:08X}");
    }
    let Some(access) = &turn.access else {
        return Ok(());
    };
    let letter = if access.store { 's' } else { 'l' };
    let (size, address) = (bytes_in(access.size), access.va);
    write!(out, "{letter}{size}{address:08X}")?;
    push_stored(out, bus, access)
}

/// Pushes the bytes that were put out.
pub fn push_output(out: &mut String, bytes: &[u8]) -> Result<(), AllocError> {
    for byte in bytes {
        write!(out, "o{byte:02X}")?;
    }
    Ok(())
}
