//! Blocks in the verifier's domain, `sbx_domain`: how their steps run, what several ways that lead to one have in
//! common, and how far a range that grows may grow at once.
mod compared;
mod run;
mod thresholds;

use fit_code::{Heap, hull};
use fit_live::LocationSet;
pub use run::{enter, go_along, return_from, run_step, run_to_call, start};
use sbx_domain::State;
use sbx_range::{Cell, Range};
pub use thresholds::{Growth, Thresholds, common_thresholds, thresholds_of};

/// The range of a location among cells that stand by location.
pub fn range_in(cells: &[Cell], location: u16) -> Option<Range> {
    for cell in cells {
        if cell.location == location {
            return Some(cell.range);
        }
    }
    None
}

/// So many cells are looked at one after the other, before those behind them are halved.
const NEAR: usize = 4;

/// The place of the first of cells that stand by location, from a place on, whose location isn't below one.
fn place_from(cells: &[Cell], first: usize, location: u16) -> usize {
    let near = first.saturating_add(NEAR).min(cells.len());
    for at in first..near {
        if cells[at].location >= location {
            return at;
        }
    }
    if near == cells.len() {
        return first.max(near);
    }
    let behind = cells[near..].partition_point(|cell| cell.location < location);
    near.saturating_add(behind)
}

/// The place of a location among cells that stand by location; none where it isn't there.
pub fn place_of(cells: &[Cell], location: u16) -> Option<usize> {
    let place = cells.partition_point(|cell| cell.location < location);
    if place < cells.len() && cells[place].location == location {
        Some(place)
    } else {
        None
    }
}

/// The range of a location among cells that stand by location, looked for from a place on, which goes on with it: for
/// who asks for one location after the other.
pub fn range_from(cells: &[Cell], place: &mut usize, location: u16) -> Option<Range> {
    let at = place_from(cells, *place, location);
    *place = at;
    if at < cells.len() && cells[at].location == location {
        return Some(cells[at].range);
    }
    None
}

/// A list of cells has room for so many at once, at the most.
const MOST: usize = 64;

/// What a state knows of locations of a function with a frame of so many bytes, by location.
pub fn cells_of(memory: &mut Heap, frame: u32, asked: &LocationSet, state: &State) -> Vec<Cell> {
    let mut cells = match Vec::with_capacity(memory.alloc, asked.count().min(MOST)) {
        Ok(cells) => cells,
        Err(_) => {
            memory.is_refused = true;
            return Vec::new(memory.alloc);
        }
    };
    // word k of the frame, at 64 + 4 k bytes of it, is location 32 + k
    let end = (32 + frame.min(4_096) / 4) as u16;
    let mut next: u16 = 1;
    for _ in 1..end {
        let location = match asked.first_from(next) {
            Some(location) if location < end => location,
            _ => break,
        };
        if let Some(range) = state.range(location) {
            memory.push(&mut cells, Cell { location, range });
        }
        next = location.saturating_add(1);
    }
    cells
}

/// Leaves of cells what they have in common with others, where the ranges of the first ones grow so. Both stand by
/// location.
pub fn join(growth: Growth, cells: &mut Vec<Cell>, others: &[Cell]) {
    let slots = cells.as_mut_slice();
    let mut count: usize = 0;
    let mut among: usize = 0;
    for place in 0..slots.len() {
        let Cell { location, range } = slots[place];
        if let Some(other) = range_from(others, &mut among, location)
            && count < slots.len()
        {
            let mut both = hull(range, other);
            if both.lo < range.lo {
                both.lo = growth.end(location, both.lo, true);
            }
            if both.hi > range.hi {
                both.hi = growth.end(location, both.hi, false);
            }
            slots[count] = Cell {
                location,
                range: both,
            };
            count = count.saturating_add(1);
        }
    }
    cells.truncate(count);
}
