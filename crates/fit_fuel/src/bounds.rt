//! Loops whose rounds are bounded by a counter of the program: a location that changes one way in each round, and lies
//! in a range.
mod changes;

use crate::bounds::changes::{Counter, add_ways};
use crate::task::{FuelTask, Task};
use crate::ways::{WayOut, constant_at, settle};
use fit_code::{Heap, Program};
use fit_graph::{Graph, Loop};
use fit_ranges::Ranges;
use sbx_domain::State;
use sbx_parts::Cell;
use std::alloc::{AllocError, Global};

/// A counter of a loop.
#[derive(Clone, Copy)]
pub struct Bound {
    pub location: u16,
    /// By how much it changes in each round at least, which is above 0, and whether it falls.
    pub change: u64,
    pub falls: bool,
    /// The most rounds; of a counter that isn't steady so many and `UNSTEADY`.
    pub rounds: u64,
}

/// More than the rounds of any counter that changes by one number on each way of its loop: one that doesn't is worse.
const UNSTEADY: u64 = 1 << 40;

/// The loops of a function, an outer one before an inner one, and of each, by its place, the bound that was found.
#[derive(Drop)]
pub struct LoopBounds {
    pub loops: Vec<Loop>,
    pub bounds: Vec<Option<Bound>>,
}

impl LoopBounds {
    /// The bound of the loop at a place; none where none was found.
    pub fn at(&self, place: usize) -> Option<Bound> {
        if place < self.bounds.len() {
            self.bounds[place]
        } else {
            None
        }
    }

    /// Leaves the bounds of those loops alone that have a steady one of at most so many rounds, fewer than `UNSTEADY`,
    /// and only such loops in them.
    pub fn limit(&mut self, most: u64) {
        let bounds = self.bounds.as_mut_slice();
        let loops = self.loops.as_slice();
        // an inner loop stands behind those around it, which are as unbounded as it is
        for place in (0..loops.len()).rev() {
            if place < bounds.len() {
                let is_kept = matches!(bounds[place], Some(it) if it.rounds <= most);
                if !is_kept {
                    bounds[place] = None;
                    if let Some(parent) = loops[place].parent
                        && parent < bounds.len()
                    {
                        bounds[parent] = None;
                    }
                }
            }
        }
    }
}

/// The bound that a location of a loop's head gives, of which these are the ways; none where it doesn't change one way,
/// and where it may not change in a round.
fn bound_by(memory: &mut Heap, within: &Loop, counter: &Counter, ways: &[WayOut]) -> Option<Bound> {
    let Cell { location, range } = counter.cell;
    let mut change = 0;
    if counter.falls | counter.rises {
        // the dearest round changes the counter least
        let mut constants = memory.repeat(None, within.holds.len());
        settle(constants.as_mut_slice(), ways, within.head, location);
        let constant = constant_at(constants.as_slice(), within.head);
        change = constant.unwrap_or(0).unsigned_abs();
    }
    if change == 0 {
        return None;
    }
    let width = i64::from(range.hi).saturating_sub(i64::from(range.lo));
    let more = if counter.is_steady { 1 } else { 1 + UNSTEADY };
    let rounds = (width.unsigned_abs() / change).saturating_add(more);
    Some(Bound {
        location,
        change,
        falls: counter.falls,
        rounds,
    })
}

/// The locations that may count a loop: all of which something is known where its head begins.
fn counters_of(memory: &mut Heap, task: &Task<'_>, within: &Loop) -> Vec<Counter> {
    let mut counters = Vec::new(memory.alloc);
    let cells = task.ranges.cells(task.number, within.head);
    for cell in cells.unwrap_or(&[]) {
        let counter = Counter {
            cell: *cell,
            falls: true,
            rises: true,
            is_steady: true,
        };
        memory.push(&mut counters, counter);
    }
    counters
}

/// The bound of a loop by the counter that changes by one number and gives the fewest rounds, else by another; none
/// where no location counts.
fn bound_of(
    setting: &FuelTask<'_>,
    within: &Loop,
    state: &mut State,
    memory: &mut Heap,
) -> Option<Bound> {
    let mut counters = counters_of(memory, setting.task, within);
    let mut ways = Vec::new(memory.alloc);
    let counters = counters.as_mut_slice();
    add_ways(setting, within, counters, &mut ways, state, memory);
    let (mut found, mut fewest) = (None, u64::MAX);
    for counter in counters {
        if let Some(bound) = bound_by(memory, within, counter, ways.as_slice())
            && bound.rounds < fewest
        {
            fewest = bound.rounds;
            found = Some(bound);
        }
    }
    found
}

/// The loops of a function with their bounds. Of a function with a loop that is entered beside its head no bounds are
/// looked for.
pub fn bounds_of(
    alloc: Global,
    program: &Program,
    ranges: &Ranges,
    number: usize,
    state: &mut State,
) -> Result<LoopBounds, AllocError> {
    if number >= program.functions.len() {
        return Ok(LoopBounds {
            loops: Vec::new(alloc),
            bounds: Vec::new(alloc),
        });
    }
    let mut memory = Heap::new(alloc);
    let task = Task {
        alloc,
        ranges,
        number,
        meter: None,
        known: &[],
        spared: &[],
    };
    let setting = FuelTask {
        program,
        function: &program.functions[number],
        task: &task,
    };
    let graph = Graph::of(&mut memory, setting.function);
    let beside = graph.entered_beside(&mut memory, setting.function);
    let loops = graph.loops(&mut memory);
    let mut bounds = Vec::new(alloc);
    for within in loops.as_slice() {
        let bound = match beside {
            Some(_) => None,
            None => bound_of(&setting, within, state, &mut memory),
        };
        memory.push(&mut bounds, bound);
    }
    memory.told(LoopBounds { loops, bounds })
}
