//! Callees of functions, and the functions that may be called again before they return.
use fit_code::{Block, Function, Heap};
use fit_graph::reached_from;

/// For each function those that it calls, by their places among them; `places` has these for the numbers by which the
/// functions' calls name them.
pub fn callees_of(memory: &mut Heap, functions: &[Function], places: &[usize]) -> Vec<Vec<usize>> {
    let mut lists = Vec::new(memory.alloc);
    for function in functions {
        let callees = called_in(memory, function, places);
        memory.push(&mut lists, callees);
    }
    lists
}

/// The functions that one calls, each as often as it does.
fn called_in(memory: &mut Heap, function: &Function, places: &[usize]) -> Vec<usize> {
    let mut callees = Vec::new(memory.alloc);
    for block in function.blocks.as_slice() {
        push_called(memory, block, places, &mut callees);
    }
    callees
}

/// Puts the functions that a block calls behind those of a list.
fn push_called(memory: &mut Heap, block: &Block, places: &[usize], callees: &mut Vec<usize>) {
    for step in block.steps.as_slice() {
        if let Some(callee) = step.callee
            && callee < places.len()
        {
            memory.push(callees, places[callee]);
        }
    }
}

/// For each function whether it may be called again before it returns: whether one comes back to it along its calls.
pub fn in_rounds(memory: &mut Heap, callees: &[Vec<usize>]) -> Vec<bool> {
    let all = memory.repeat(true, callees.len());
    let mut are_in = memory.repeat(false, callees.len());
    let flags = are_in.as_mut_slice();
    for number in 0..callees.len() {
        let first = callees[number].as_slice();
        match reached_from(memory.alloc, callees, first, all.as_slice()) {
            Ok(reached) if number < reached.len() && number < flags.len() => {
                flags[number] = reached[number];
            }
            Ok(_) => {}
            Err(_) => memory.is_refused = true,
        }
    }
    are_in
}
