//! Cells that a block lists and may not.
ghost use Rattle.sbx_known.specs.Spots.{IsSpot};

use inspect_image::Location;
use sbx_image::{Function, Image, Kind};
use sbx_known::{Spot, block_at, function_at};
use std::alloc::AllocError;

/// Pushes why a location is no cell of a function's blocks, if it is none.
fn push_unwritable(out: &mut String, function: &Function, location: u16) -> Result<(), AllocError> {
    let name = Location(location);
    match (function.kind, location) {
        (_, 14 | 15 | 30 | 31) => writeln!(
            out,
            "{name} is no cell: it holds a frame or the way back"
        ),
        (Kind::Leaf, 16..) => writeln!(out, "{name} is no cell of a leaf, which can't write it"),
        (Kind::Framed, 32..) if 4 * (u32::from(location) - 32) + 68 > function.frame => {
            let frame = function.frame;
            writeln!(
                out,
                "{name} lies outside of the frame of {frame} bytes, whose first 64 are no slots"
            )
        }
        _ => Ok(()),
    }
}

/// Pushes the cells that a block lists and may not, at its first word.
pub(crate) fn push_strange_cells(
    out: &mut String,
    image: &Image,
    spot: &Spot,
) -> Result<(), AllocError>
    requires { IsSpot image.now spot.now }
{
    let block = block_at(image, spot.function, spot.block);
    if spot.number != 0 || block.cells.as_slice().is_empty() {
        return Ok(());
    }
    if spot.block == 0 {
        return out.push_str(
            "a function's first block lists no cells: it begins with the parameters\n",
        );
    }
    let function = function_at(image, spot.function);
    for cell in block.cells.as_slice() {
        push_unwritable(out, function, cell.location)?;
    }
    Ok(())
}
