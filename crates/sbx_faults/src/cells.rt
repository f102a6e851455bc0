//! What an edge, a call or a return asks of what is known, and what a block may list.
ghost use Rattle.std.specs.Prelude.{◌≡◌, ◌+◌, ◌≤◌, length, not};
ghost use Rattle.std.specs.List.{list_all, list_any};
ghost use Rattle.sbx_rules.specs.Known.{known, range_at};
ghost use Rattle.sbx_rules.specs.Rules.{has_cells, has_outs, has_range, is_writable, lists_badly};

use crate::kinds::is_framed;
use sbx_image::{Block, Cell, Function, Range};
use sbx_range::is_within;
use sbx_rules::State;

fn has_range(found: Option<Range>, wanted: Range) -> bool
    ensures { result ≡ has_range found wanted }
{
    match found {
        Some(found) => is_within(found, wanted),
        None => false,
    }
}

fn all_have_ranges(state: &State, cells: &[Cell]) -> bool
    ensures { result ≡ list_all (λ c. has_range (range_at (known state.now) c.location) c.range) cells.now }
{
    cells
        .iter()
        .all(|cell| has_range(state.range(cell.location), cell.range))
}

/// Whether each cell's location is defined and within its range.
#[tactic(auto, using(crate::proofs::Lists::all_cells))]
pub fn has_cells(state: &State, cells: &[Cell]) -> bool
    ensures { result ≡ has_cells (known state.now) cells.now }
{
    all_have_ranges(state, cells)
}

/// Whether the locations from this one on are defined and within these ranges.
pub fn has_outs(location: u16, ranges: &[Range], state: &State) -> bool
    requires { location + length ranges.now ≤ 1040 }
    ensures { result ≡ has_outs location ranges.now (known state.now) }
{
    match ranges.split_first() {
        Some((range, rest)) => {
            has_range(state.range(location), *range) && has_outs(location + 1, rest, state)
        }
        None => true,
    }
}

/// Whether a function can write a location.
fn is_writable(function: &Function, location: u16) -> bool
    ensures { result ≡ is_writable function.now location }
{
    if matches!(location, 14 | 15 | 30 | 31) {
        return false;
    }
    location < 16
        || (is_framed(function.kind)
            && (location < 32 || 4 * (u32::from(location) - 32) + 68 <= function.frame))
}

fn lists_unwritable(function: &Function, cells: &[Cell]) -> bool
    ensures { result ≡ list_any (λ c. not (is_writable function.now c.location)) cells.now }
{
    cells
        .iter()
        .any(|cell| !is_writable(function, cell.location))
}

/// Whether a first block lists cells, or another block one that its function can't write.
#[tactic(auto, using(crate::proofs::Lists::lists_other))]
pub fn lists_badly(function: &Function, number: u16, block: &Block) -> bool
    ensures { result ≡ lists_badly function.now number block.now }
{
    if number == 0 {
        block.cells.len() != 0
    } else {
        lists_unwritable(function, block.cells.as_slice())
    }
}
