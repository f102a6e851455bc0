//! The bytes of the data, from 00080000 on. Numbers stand big-endian.
ghost use Rattle.std.specs.Prelude.{◌≡◌, ℕ, ◌+◌, ◌*◌, ◌^◌, ◌<◌, ◌≤◌, ◌++◌, ◌==◌, map, replicate, None, Some, IsSome};
ghost use Rattle.std.specs.Prelude.{IfSome, IfOk, OnOk, if◌then◌else◌};
ghost use Rattle.std.specs.List.{flat_map};
ghost use Rattle.sbx_image.specs.Regions.{data_at};
ghost use Rattle.sbx_flat.specs.Memory.{number_at, with_number};
ghost use Rattle.flat_plain.specs.Shows.{cell_at, if_some, region_cells};

use sbx_image::Region;
use std::alloc::{AllocError, Global};

/// Where the data begin.
const START: u64 = 0x0008_0000;

/// The bytes of a page.
const PAGE: usize = 4096;

/// A cell for each byte of the data's pages; between the last byte of a region and the next page they are empty.
#[derive(Drop)]
pub struct Data {
    pub(crate) cells: Vec<Option<u8>>,
}

/// Adds a cell for each byte.
fn push_bytes(cells: &mut Vec<Option<u8>>, bytes: &[u8]) -> Result<(), AllocError>
    ensures { OnOk result (cells.new.items ≡ cells.old.items ++ map Some bytes.now) }
{
    for byte in bytes {
        cells.push(Some(*byte))?;
    }
    Ok(())
}

/// Adds so many empty cells.
fn push_empty(cells: &mut Vec<Option<u8>>, count: usize) -> Result<(), AllocError>
    ensures { OnOk result (cells.new.items ≡ cells.old.items ++ replicate count None) }
{
    for _ in 0..count {
        cells.push(None)?;
    }
    Ok(())
}

/// Adds the cells of a region's pages.
fn push_region(cells: &mut Vec<Option<u8>>, region: &Region) -> Result<(), AllocError>
    ensures { OnOk result (cells.new.items ≡ cells.old.items ++ region_cells region.now) }
{
    let bytes = region.bytes.as_slice();
    push_bytes(cells, bytes)?;
    push_empty(cells, (PAGE - bytes.len() % PAGE) % PAGE)
}

/// The cells of the regions' pages, one region after another.
fn cells_of(alloc: Global, regions: &[Region]) -> Result<Vec<Option<u8>>, AllocError>
    ensures { IfOk result (λ cells. cells.items ≡ flat_map region_cells regions.now) }
{
    let mut cells = Vec::new(alloc);
    for region in regions {
        push_region(&mut cells, region)?;
    }
    Ok(cells)
}

impl Data {
    /// The data of an image: its regions one after another, each on pages of its own.
    pub(crate) fn of(alloc: Global, regions: &[Region]) -> Result<Data, AllocError>
        ensures { IfOk result (λ memory. (a : ℕ) → cell_at memory.cells.items a ≡ data_at regions.now a) }
    {
        Ok(Data {
            cells: cells_of(alloc, regions)?,
        })
    }

    /// The byte at an address, if it is one of the data.
    fn byte(&self, address: u64) -> Option<u8>
        ensures { result ≡ cell_at self.now.cells.items address }
    {
        if address < START {
            return None;
        }
        let cell = self.cells.get((address - START) as usize)?;
        *cell
    }

    /// Writes the byte at an address, where it is one of the data.
    fn set_byte(&mut self, address: u64, byte: u8)
        ensures { (a : ℕ) →
            cell_at self.new.cells.items a ≡
            (if a == address then if_some (cell_at self.old.cells.items a) byte else cell_at self.old.cells.items a) }
    {
        if address < START {
            return;
        }
        let k = (address - START) as usize;
        if k < self.cells.len() && self.cells[k].is_some() {
            self.cells[k] = Some(byte);
        }
    }

    /// The number of so many bytes from an address on, 0 to 8, where they all are data.
    pub(crate) fn number(&self, address: u32, count: u32) -> Option<u64>
        requires { count ≤ 8 }
        ensures value { result ≡ number_at (cell_at self.now.cells.items) address count }
        ensures bound { IfSome result (λ number. number < 2 ^ (8 * count)) }
    {
        if count == 0 {
            return Some(0);
        }
        let front = self.number(address, count - 1)?;
        let byte = self.byte(u64::from(address) + u64::from(count) - 1)?;
        Some(front * 0x100 + u64::from(byte))
    }

    /// Writes a number to so many bytes from an address on, which all are data.
    pub(crate) fn store(&mut self, address: u32, count: u32, number: u64)
        requires { IsSome (number_at (cell_at self.old.cells.items) address count) }
        ensures { (a : ℕ) →
            cell_at self.new.cells.items a ≡ with_number (cell_at self.old.cells.items) address count number a }
    {
        if count == 0 {
            return;
        }
        self.store(address, count - 1, number / 0x100);
        self.set_byte(
            u64::from(address) + u64::from(count) - 1,
            (number % 0x100) as u8,
        );
    }
}
