//! The first bytes of the data's block: those of the regions, each at its place, with zeros between them.
ghost use Rattle.std.specs.Prelude.{◌≡◌, ℕ, ◌-◌, ◌≤◌, ◌++◌, IfOk, OnOk, Some, length, replicate, slice_index};
ghost use Rattle.sbx_image.specs.Regions.{AreBytes, data_at, laid, on_pages};
ghost use Rattle.sbx_image.specs.Region.{Region};

use sbx_image::{Image, Region};
use std::alloc::{AllocError, Global};
use v8_map::PAGE;

/// Tells that the elements are bytes, which is known of each one that is read.
fn tells_bytes(bytes: &[u8])
    ensures { AreBytes bytes.now }
{
    let _ = bytes;
}

/// Adds so many zeros.
fn push_zeros(bytes: &mut Vec<u8>, count: usize) -> Result<(), AllocError>
    ensures { OnOk result (bytes.new.items ≡ bytes.old.items ++ replicate count 0) }
{
    for _ in 0..count {
        bytes.push(0)?;
    }
    Ok(())
}

/// Adds a region's bytes behind the zeros that are owed. It gives how many are owed behind it, up to the end of its last
/// page.
fn push_region(bytes: &mut Vec<u8>, owed: usize, region: &Region) -> Result<usize, AllocError>
    ensures { IfOk result (λ left.
        bytes.new.items ++ replicate left 0 ≡ (bytes.old.items ++ replicate owed 0) ++ on_pages region.now.bytes) }
{
    push_zeros(bytes, owed)?;
    let own = region.bytes.as_slice();
    bytes.extend_from_slice(own)?;
    let page = PAGE as usize;
    Ok((page - own.len() % page) % page)
}

/// The bytes of the regions' pages, but for the zeros behind the last one.
fn bytes_of(alloc: Global, regions: &[Region]) -> Result<Vec<u8>, AllocError>
    ensures { IfOk result (λ bytes. (owed : ℕ) × (bytes.items ++ replicate owed 0 ≡ laid regions.now)) }
{
    let mut bytes = Vec::new(alloc);
    let mut owed = 0;
    for region in regions {
        owed = push_region(&mut bytes, owed, region)?;
    }
    Ok(bytes)
}

/// The first bytes of the data's block.
pub(crate) fn data_of(alloc: Global, image: &Image) -> Result<Vec<u8>, AllocError>
    ensures few { IfOk result (λ bytes. length bytes.items ≤ 524288) }
    ensures bytes { IfOk result (λ bytes. AreBytes bytes.items) }
    ensures data_are { IfOk result (λ bytes. (a byte : ℕ) → data_at image.now.regions a ≡ Some byte →
        slice_index bytes.items (a - 0x80000) ≡ byte) }
{
    image.keeps_its_format();
    let bytes = bytes_of(alloc, image.regions())?;
    tells_bytes(bytes.as_slice());
    Ok(bytes)
}
