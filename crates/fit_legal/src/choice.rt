//! The choice of the functions that become parts of the first one.
use fit_blocks::{Part, WayBack};
use fit_code::{Block, Function, Heap, Program};
use fit_fuel::bounds_of;
use fit_graph::{Graph, successors_in};
use fit_ranges::Ranges;
use sbx_domain::State;
use std::mem;

/// A loop of so many rounds at most may stay in a function that is called: each call pays for all of them.
const FEW: u64 = 300;

/// Whether control goes back in a function.
fn has_loops(memory: &mut Heap, function: &Function) -> bool {
    let order = Graph::of(memory, function).order;
    let blocks = order.blocks.as_slice();
    // a block has two ways at most
    for way in 0..blocks.len().saturating_mul(2) {
        let place = way / 2;
        if place < blocks.len()
            && let Some(to) = successors_in(function, blocks[place])[way % 2]
            && order.place(to) <= Some(place)
        {
            return true;
        }
    }
    false
}

/// Whether a function has a loop that no counter bounds by few rounds, and that holds no other loop.
fn takes_turns(
    memory: &mut Heap,
    program: &Program,
    ranges: &Ranges,
    number: usize,
    state: &mut State,
) -> bool {
    let Ok(mut bounds) = bounds_of(memory.alloc, program, ranges, number, state) else {
        memory.is_refused = true;
        return false;
    };
    bounds.limit(FEW);
    let mut takes = bounds.loops.is_empty();
    for place in 0..bounds.loops.len() {
        takes |= bounds.at(place).is_none() | bounds.loops[place].parent.is_some();
    }
    takes
}

/// Joins the functions whose loops would take from a meter of their own: all that have loops, where none goes without.
fn join_metered(
    memory: &mut Heap,
    program: &Program,
    parts: &mut [Part],
    (loops, has_bounds): (&[bool], bool),
    state: &mut State,
) {
    // without ranges no loop has a bound
    let found = Ranges::of(memory.alloc, program);
    for number in 1..parts.len() {
        if number < loops.len() && loops[number] {
            parts[number].is_joined |= match &found {
                Ok(ranges) if has_bounds => takes_turns(memory, program, ranges, number, state),
                _ => true,
            };
        }
    }
}

/// Takes the blocks of the functions that are joined already, or gives them back: what these give others isn't known.
fn exchange(functions: &mut [Function], parts: &[Part], blocks: &mut [Vec<Block>]) {
    for number in 0..functions.len() {
        if number < parts.len() && number < blocks.len() && parts[number].is_joined {
            mem::swap(&mut functions[number].blocks, &mut blocks[number]);
        }
    }
}

/// Joins those that call a function that is joined, each of which stands behind its callers, but in rounds.
fn join_callers(parts: &mut [Part], callees: &[Vec<usize>]) {
    for number in (0..parts.len()).rev() {
        if number < callees.len() && has_joined(&*parts, callees[number].as_slice()) {
            parts[number].is_joined = true;
        }
    }
}

/// Whether one of some functions is joined.
fn has_joined(parts: &[Part], functions: &[usize]) -> bool {
    let mut is_joined = false;
    for number in functions {
        is_joined |= *number < parts.len() && parts[*number].is_joined;
    }
    is_joined
}

/// Joins the functions whose frames lie on the soft stack, and those that keep a way back or go by one.
fn join_first(parts: &mut [Part]) {
    for part in parts {
        part.is_joined = part.is_soft || !matches!(part.way_back, WayBack::Own);
    }
}

/// For each function whether it has loops and isn't joined yet; not the first one.
fn open_loops(memory: &mut Heap, functions: &[Function], parts: &[Part]) -> Vec<bool> {
    let mut loops = Vec::new(memory.alloc);
    for (number, function) in functions.iter().enumerate() {
        let is_open = number > 0 && number < parts.len() && !parts[number].is_joined;
        let is_asked = is_open && has_loops(memory, function);
        memory.push(&mut loops, is_asked);
    }
    loops
}

/// Joins those of the other functions whose loops would take from a meter of their own.
fn join_looped(
    memory: &mut Heap,
    program: &mut Program,
    parts: &mut [Part],
    has_bounds: bool,
    state: &mut State,
) {
    let loops = open_loops(memory, program.functions.as_slice(), parts);
    if !loops.as_slice().contains(&true) {
        return;
    }
    let mut others = Vec::new(memory.alloc);
    for _ in 0..parts.len() {
        let none = Vec::new(memory.alloc);
        memory.push(&mut others, none);
    }
    let before = memory.copy(parts);
    let known = before.as_slice();
    exchange(
        program.functions.as_mut_slice(),
        known,
        others.as_mut_slice(),
    );
    join_metered(
        memory,
        program,
        parts,
        (loops.as_slice(), has_bounds),
        state,
    );
    exchange(
        program.functions.as_mut_slice(),
        known,
        others.as_mut_slice(),
    );
}

/// How many functions are joined.
fn count_joined(parts: &[Part]) -> usize {
    let mut count: usize = 0;
    for part in parts {
        count = count.saturating_add(usize::from(part.is_joined));
    }
    count
}

/// Chooses which functions of a program are to be parts of the first one: those whose frames lie on the soft stack,
/// those that keep a way back or go by one, those with loops that a counter doesn't bound, or with any loops where none
/// is to go without the meter, and all that call one of these. `callees` has for each function those that it calls,
/// each of which stands behind it but in a round.
pub fn choose(
    memory: &mut Heap,
    program: &mut Program,
    parts: &mut [Part],
    (callees, has_bounds): (&[Vec<usize>], bool),
    state: &mut State,
) {
    join_first(parts);
    join_callers(parts, callees);
    // what a function that is joined gives the others isn't known, so that one may lose its bounds then
    for _ in 0..parts.len() {
        let count = count_joined(parts);
        join_looped(memory, program, parts, has_bounds, state);
        join_callers(parts, callees);
        if count_joined(parts) == count {
            break;
        }
    }
}
