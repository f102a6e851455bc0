//! The terms of blocks: what is left in the meter, and so many turns for each round that is left to a counter.
use crate::bounds::{Bound, LoopBounds};
use crate::task::FuelTask;
use crate::ways::{FunctionFuel, constant_at};
use fit_code::Heap;
use fit_graph::Loop;
use sbx_domain::State;
use sbx_parts::Term;

/// Adds a term to those of a block, which stand by location.
fn add_term(terms: &mut Vec<Term>, term: Term, memory: &mut Heap) {
    let mut place: usize = 0;
    let mut is_found = false;
    for other in terms.as_mut_slice() {
        if other.location == term.location {
            other.coefficient = other.coefficient.saturating_add(term.coefficient);
            is_found = true;
        }
        place = place.saturating_add(usize::from(other.location < term.location));
    }
    if !is_found & (place <= terms.len()) {
        memory.is_refused |= terms.insert(place, term).is_err();
    }
}

/// Whether a place of the meter stands in a loop.
pub(crate) fn has_place(within: &Loop, places: &[u32]) -> bool {
    let mut is_found = false;
    for block in 0..places.len() {
        is_found |= (places[block] > 0) & within.has(block);
    }
    is_found
}

/// Adds the terms that pay for a loop's rounds; says whether there are some: none where it has no bound, where no way
/// leads round, or where an inner loop gains.
fn add_rounds(
    setting: &FuelTask<'_>,
    fuel: &mut FunctionFuel,
    within: &Loop,
    bound: Option<Bound>,
    state: &mut State,
) -> bool {
    let mut are_found = false;
    if let Some(bound) = bound
        && fuel.pay(setting, within, state)
        && let Some(weight) = constant_at(fuel.constants.as_slice(), within.head)
    {
        // so many turns for each number that the counter changes by pay for a round, above 0 where it falls
        let more = weight.max(1).unsigned_abs().saturating_sub(1) / bound.change.max(1);
        if let Ok(each) = i32::try_from(more.saturating_add(1)) {
            are_found = true;
            let term = Term {
                location: bound.location,
                coefficient: if bound.falls {
                    each
                } else {
                    each.saturating_neg()
                },
            };
            let blocks = fuel.blocks.as_mut_slice();
            for block in 0..blocks.len() {
                if within.has(block) {
                    add_term(&mut blocks[block].terms, term, &mut fuel.memory);
                }
            }
        }
    }
    are_found
}

/// Finds the terms of each block of a function with these loops and bounds, and then the constants; says whether there
/// are some: none where a loop has neither a place of the meter nor a bound, or where a round of ways gains.
pub fn find_fuel(
    setting: &FuelTask<'_>,
    bounds: &LoopBounds,
    fuel: &mut FunctionFuel,
    state: &mut State,
) -> bool {
    let count = setting.function.blocks.len();
    fuel.begin(setting.task, count);
    // an inner loop stands behind those around it
    for place in (0..bounds.loops.len()).rev() {
        let within = &bounds.loops[place];
        if !has_place(within, fuel.places.as_slice())
            && !add_rounds(setting, fuel, within, bounds.at(place), state)
        {
            return false;
        }
    }
    // no round of all blocks ends at one of them
    let all = Loop {
        head: usize::MAX,
        latches: Vec::new(setting.task.alloc),
        holds: fuel.memory.repeat(true, count),
        parent: None,
    };
    fuel.pay(setting, &all, state)
}
