//! Data accesses, and where the page entries and the words lie that a turn may have changed.
ghost use Rattle.std.specs.Prelude.{◌≡◌, ◌++◌, OnOk, string_bytes};
ghost use Rattle.v8_mmu.specs.Walked.{root_of};
ghost use Rattle.inspect_states.specs.Accesses.{EntryIs, EntryOfIs, access_text, kind_text, second_place, stored_place};
ghost use Rattle.v8_mmu.specs.Meaning.{bytes_in};

use std::alloc::AllocError;
use v8_core::DataAccess;
use v8_mmu::{Bus, MmuRegs, Size, follow};

/// How many bytes an access of a size moves.
fn bytes_in(size: Size) -> u8
    ensures { result ≡ bytes_in size }
{
    match size {
        Size::Byte => 1,
        Size::Half => 2,
        Size::Word => 4,
        Size::Double => 8,
    }
}

/// What an access is told as.
fn kind_text(store: bool) -> &'static str
    ensures { result.now ≡ kind_text store }
{
    if store { " store=" } else { " load=" }
}

/// Pushes the data access that completed: its virtual and its physical address, and its size in bytes.
pub fn push_access(line: &mut String, access: &Option<DataAccess>) -> Result<(), AllocError>
    ensures { OnOk result (string_bytes line.new ≡ string_bytes line.old ++ access_text access.now) }
{
    let Some(access) = access else {
        return Ok(());
    };
    let (kind, va, pa, size) = (
        kind_text(access.store),
        access.va,
        access.pa,
        bytes_in(access.size),
    );
    write!(line, "{kind}{va:08X}:{pa:09X}:{size}")
}

/// Where the page entry lies that ends the walk of an address, where it leads to a page.
pub fn entry_place<B: Bus>(bus: &B, mmu: &MmuRegs, va: u32) -> Option<u64>
    ensures { EntryIs (B.state bus.now).held.ram (root_of mmu.now) va result }
{
    match follow(bus, mmu, va) {
        Ok(path) => Some(path.place),
        Err(_) => None,
    }
}

/// Where the page entry of a data access lies.
pub fn access_place<B: Bus>(bus: &B, mmu: &MmuRegs, access: &Option<DataAccess>) -> Option<u64>
    ensures { EntryOfIs (B.state bus.now).held.ram (root_of mmu.now) access.now result }
{
    match access {
        Some(access) => entry_place(bus, mmu, access.va),
        None => None,
    }
}

/// Where the word lies that a store wrote to, the first of a double.
pub fn stored_place(access: &Option<DataAccess>) -> Option<u64>
    ensures { result ≡ stored_place access.now }
{
    match access {
        Some(access) if access.store => Some(access.pa / 4 * 4),
        _ => None,
    }
}

/// Where the second word of a double lies that a store wrote to.
pub fn second_place(access: &Option<DataAccess>) -> Option<u64>
    ensures { result ≡ second_place access.now }
{
    match access {
        Some(access) if access.store && bytes_in(access.size) == 8 => Some(access.pa / 8 * 8 + 4),
        _ => None,
    }
}
