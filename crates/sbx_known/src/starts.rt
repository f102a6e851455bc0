//! What is known where a block begins.
ghost use Rattle.std.specs.Prelude.{◌≡◌, ◌≤◌, ◌+◌, ◌<◌, Ok, length, slice_index_or, take};
ghost use Rattle.sbx_rules.specs.Known.{known};
ghost use Rattle.sbx_image.specs.Rules.{parts_keep};
ghost use Rattle.sbx_rules.specs.Ways.{out_cells, state_at};
ghost use Rattle.sbx_known.specs.Spots.{IsBlock};

use crate::places::{block_at, function_at};
use sbx_image::{Cell, Image, Range};
use sbx_rules::State;

/// What stands in the place of a param that isn't there.
const NONE: Range = Range {
    lo: 0,
    hi: 0,
    alignment: 0,
};

/// The cell of a param, by its place: %o0 and on.
fn param_cell(params: &[Range], place: usize) -> Cell
    requires { place < 6 }
    ensures { result ≡ record { location = 8 + place; range = slice_index_or params.now place NONE } }
{
    Cell {
        location: 8 + place as u16,
        range: params.get(place).copied().unwrap_or(NONE),
    }
}

/// The cells that a function's first block begins with, and past its params others.
fn param_cells(params: &[Range]) -> [Cell; 6]
    requires { length params.now ≤ 6 }
    ensures cells { take (length params.now) result ≡ out_cells 8 params.now }
    ensures size { length result ≡ 6 }
{
    [
        param_cell(params, 0),
        param_cell(params, 1),
        param_cell(params, 2),
        param_cell(params, 3),
        param_cell(params, 4),
        param_cell(params, 5),
    ]
}

/// What is known where a block begins.
#[tactic(auto, unfolding(sbx_rules::specs::Ways::state_at))]
pub fn start(image: &Image, function: usize, block: usize, state: &mut State)
    requires keeps { parts_keep image.now ≡ Ok tt }
    requires block { IsBlock image.now function block }
    ensures { known state.new ≡ state_at image.now function block 0 }
{
    if block == 0 {
        let params = function_at(image, function).params.as_slice();
        let cells = param_cells(params);
        state.start(&cells[..params.len()]);
    } else {
        state.start(block_at(image, function, block).cells.as_slice());
    }
}
