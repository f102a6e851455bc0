//! The parts of an image, which lines without faults make.
ghost use Rattle.std.specs.Prelude.{◌≡◌, [], IfOk};
ghost use Rattle.sbx_asm.specs.Kept.{worth};
ghost use Rattle.sbx_asm.specs.Items.{each};
ghost use Rattle.sbx_asm.specs.Addresses.{values_of};
ghost use Rattle.sbx_asm.specs.Images.{words_at, image_of};

use crate::annotations::heading_of;
use crate::data::regions_of;
use crate::functions::functions_of;
use crate::reading::Line;
use crate::table::Table;
use sbx_image::{Items, Parts};
use std::alloc::{AllocError, Global};

/// The parts that lines make, where the table has their labels and the words are theirs.
#[tactic(auto, unfolding(crate::specs::Images::image_of))]
pub fn parts_of(
    alloc: Global,
    table: &Table<'_>,
    words: Vec<u32>,
    lines: &[Line<'_, '_>],
) -> Result<Parts, AllocError>
    ensures { IfOk result (λ parts. worth table.now ≡ values_of lines.now →
        words.items ≡ each (words_at (worth table.now)) [] lines.now → parts ≡ image_of lines.now) }
{
    let heading = heading_of(lines);
    Ok(Parts {
        version: heading.version,
        services: heading.services,
        words: Items::new(words),
        regions: regions_of(alloc, table, lines)?,
        stack_pages: heading.stack_pages,
        functions: functions_of(alloc, lines)?,
    })
}
