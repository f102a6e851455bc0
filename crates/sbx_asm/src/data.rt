//! The data of lines without faults.
ghost use Rattle.std.specs.Prelude.{◌≡◌, ◌++◌, [], ◌∷◌, List, IfOk, replicate};
ghost use Rattle.sbx_asm.specs.Kept.{worth, place_at, regions_with};
ghost use Rattle.sbx_asm.specs.Items.{Item};
ghost use Rattle.sbx_asm.specs.Images.{filled, region_with, regions_of};

use crate::operands::push_line_values;
use crate::place::{LocationCounter, padding};
use crate::reading::Line;
use crate::table::Table;
use sbx_directives::{Directive, Statement};
use sbx_image::{Items, Region};
use std::alloc::{AllocError, Global};
use std::mem;

/// The regions that some lines complete, and the newest one so far.
#[derive(Drop)]
pub struct Data {
    regions: Vec<Region>,
    writable: bool,
    bytes: Vec<u8>,
}

/// Adds so many zeros.
fn push_zeros(bytes: &mut Vec<u8>, count: u64) -> Result<(), AllocError>
    ensures { IfOk result (λ _. bytes.new.items ≡ bytes.old.items ++ replicate count 0) }
{
    for _ in 0..count {
        bytes.push(0)?;
    }
    Ok(())
}

impl Data {
    /// Completes the newest region, unless it has no bytes: zeros fill it up to a multiple of 8.
    fn end_region(&mut self, alloc: Global) -> Result<(), AllocError>
        ensures regions { IfOk result
            (λ _. self.new.regions.items ≡
            self.old.regions.items ++ region_with self.old.writable (filled self.old.bytes.items)) }
        ensures bytes { IfOk result (λ _. self.new.bytes.items ≡ []) }
    {
        let mut bytes = mem::replace(&mut self.bytes, Vec::new(alloc));
        let count = (8 - bytes.len() % 8) % 8;
        push_zeros(&mut bytes, count as u64)?;
        if bytes.len() > 0 {
            self.regions.push(Region {
                bytes: Items::new(bytes),
                writable: self.writable,
            })?;
        }
        Ok(())
    }

    /// Adds the bytes of a line at a place, none where its values have a fault; a `.region` completes the one before
    /// it.
    fn add_line(
        &mut self,
        alloc: Global,
        table: &Table<'_>,
        place: LocationCounter,
        line: &Line<'_, '_>,
    ) -> Result<(), AllocError>
        ensures { IfOk result (λ _. (before after : List Item) → place ≡ place_at before →
            regions_with (worth table.now) self.new (line.now ∷ before) after ≡
            regions_with (worth table.now) self.old before (line.now ∷ after)) }
    {
        match line.said() {
            Ok(Statement::Directive(Directive::Values(width, _))) => {
                push_line_values(&mut self.bytes, table, width, line)
            }
            Ok(Statement::Directive(Directive::Skip(count))) => push_zeros(&mut self.bytes, count),
            Ok(Statement::Directive(Directive::Align(unit))) => {
                let count = padding(unit, place.region_bytes);
                push_zeros(&mut self.bytes, u64::from(count))
            }
            Ok(Statement::Directive(Directive::Region { writable })) => {
                self.end_region(alloc)?;
                self.writable = writable;
                Ok(())
            }
            _ => Ok(()),
        }
    }
}

/// The regions of all lines; the data before any `.region` may be written.
pub fn regions_of(
    alloc: Global,
    table: &Table<'_>,
    lines: &[Line<'_, '_>],
) -> Result<Items<Region>, AllocError>
    ensures { IfOk result (λ regions. regions ≡ regions_of (worth table.now) lines.now) }
{
    let mut data = Data {
        regions: Vec::new(alloc),
        writable: true,
        bytes: Vec::new(alloc),
    };
    let mut place = LocationCounter::start();
    for line in lines {
        data.add_line(alloc, table, place, line)?;
        place = place.after(line);
    }
    data.end_region(alloc)?;
    Ok(Items::new(data.regions))
}
