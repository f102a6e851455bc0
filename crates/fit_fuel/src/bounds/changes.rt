//! By how much locations change along the ways of a loop.
use crate::task::FuelTask;
use crate::ways::{LinearSum, WayOut};
use fit_cells::range_in;
use fit_code::Heap;
use fit_graph::{Loop, successors_in};
use sbx_domain::State;
use sbx_parts::{Cell, Term};

/// A location that the head of a loop knows, and how it changes on the ways that stay in the loop.
#[derive(Clone, Copy)]
pub struct Counter {
    pub cell: Cell,
    /// Whether it rises on none of them.
    pub falls: bool,
    /// Whether it falls on none of them.
    pub rises: bool,
    /// Whether it changes by one number on each of them, and not by another location's.
    pub is_steady: bool,
}

impl Counter {
    /// Takes in a way of a block that begins with these cells, behind which the state is this: the counter changes by
    /// how much its form is more than the number that it began with or, where that isn't known, by any number. Gives
    /// what the way costs: as much less as the counter changes there at least.
    fn pass(&mut self, cells: &[Cell], state: &State, memory: &mut Heap) -> i64 {
        let own = [Term {
            location: self.cell.location,
            coefficient: 1,
        }];
        let mut change = LinearSum::without(memory.alloc, 0, &own);
        change.add_terms(state, &own);
        memory.is_refused |= change.is_refused;
        let (least, most) = if change.is_cancelled() {
            change.ends(cells)
        } else {
            (i64::MIN, i64::MAX)
        };
        self.falls &= most <= 0;
        self.rises &= least >= 0;
        self.is_steady &= least == most;
        least
            .saturating_abs()
            .min(most.saturating_abs())
            .saturating_neg()
    }
}

/// Adds the ways that stay in a loop of a function, for each of its counters. These have to be known throughout the
/// loop, also where a way can't be gone.
pub fn add_ways(
    setting: &FuelTask<'_>,
    within: &Loop,
    counters: &mut [Counter],
    ways: &mut Vec<WayOut>,
    state: &mut State,
    memory: &mut Heap,
) {
    let (ranges, number) = (setting.task.ranges, setting.task.number);
    // a block has two ways at most
    for place in 0..within.holds.len().saturating_mul(2) {
        let (from, way) = (place / 2, place % 2);
        let to = successors_in(setting.function, from)[way];
        if within.has(from)
            && matches!(to, Some(to) if within.has(to))
            && let Some(cells) = ranges.cells(number, from)
        {
            let is_open = ranges.run_block(setting.program, number, from, way, state);
            let at = (from, to, is_open);
            pass_counters(counters, at, cells, ways, state, memory);
        }
    }
}

/// Adds a way from a block to another one for each counter; of a way that can't be gone for those alone of which
/// nothing is known where it begins.
fn pass_counters(
    counters: &mut [Counter],
    (from, to, is_open): (usize, Option<usize>, bool),
    cells: &[Cell],
    ways: &mut Vec<WayOut>,
    state: &mut State,
    memory: &mut Heap,
) {
    for counter in counters.iter_mut() {
        let location = counter.cell.location;
        if is_open | range_in(cells, location).is_none() {
            let cost = counter.pass(cells, state, memory);
            let way = WayOut {
                from,
                to,
                location,
                cost,
            };
            memory.push(ways, way);
        }
    }
}
