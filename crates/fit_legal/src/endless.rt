//! Calls that don't come back: of functions each way of which ends the run, or goes on for ever. Nothing stands behind
//! them.
use fit_blocks::{Stops, no_result};
use fit_code::{Block, End, Function, Heap};

/// Whether a callee comes back; one that isn't known does.
fn comes_back(returning: &[bool], callee: usize) -> bool {
    callee >= returning.len() || returning[callee]
}

/// The place of the first call of a block that doesn't come back.
fn last_call(block: &Block, returning: &[bool]) -> Option<usize> {
    for (place, step) in block.steps.as_slice().iter().enumerate() {
        if let Some(callee) = step.callee
            && !comes_back(returning, callee)
        {
            return Some(place);
        }
    }
    None
}

/// Whether a block of a function that control may come to returns, where these callees come back.
fn returns(memory: &mut Heap, function: &Function, returning: &[bool]) -> bool {
    let blocks = function.blocks.as_slice();
    let mut passed = memory.repeat(false, blocks.len());
    let seen = passed.as_mut_slice();
    let mut open = memory.copy(&[0]);
    // each block is looked at once, and has two ways to others
    for _ in 0..blocks.len().saturating_mul(2).saturating_add(1) {
        let Some(place) = open.pop() else {
            break;
        };
        if (place < blocks.len()) & (place < seen.len()) && !seen[place] {
            seen[place] = true;
            if last_call(&blocks[place], returning).is_none() {
                if matches!(blocks[place].end, End::Return(_)) {
                    return true;
                }
                memory.push_ways(&mut open, blocks[place].end);
            }
        }
    }
    false
}

/// Whether the functions of a program come back: some are found to by the others that do, until no more are.
fn returning_of(memory: &mut Heap, functions: &[Function]) -> Vec<bool> {
    let mut returning = memory.repeat(false, functions.len());
    for _ in 0..functions.len() {
        if !find_returning(memory, functions, returning.as_mut_slice()) {
            break;
        }
    }
    returning
}

/// Looks once for functions that come back, where these are known to; says whether there is one more.
fn find_returning(memory: &mut Heap, functions: &[Function], known: &mut [bool]) -> bool {
    let mut is_new = false;
    // callees mostly stand behind their callers
    for number in (0..functions.len()).rev() {
        if number < known.len() && !known[number] && returns(memory, &functions[number], &*known) {
            known[number] = true;
            is_new = true;
        }
    }
    is_new
}

/// Ends the blocks of functions behind calls that don't come back.
pub fn end_behind_calls(stops: &mut Stops, functions: &mut [Function]) {
    let memory = &mut stops.memory;
    let returning = returning_of(memory, &*functions);
    for function in functions {
        end_in(memory, function, returning.as_slice());
    }
}

/// The same of a function, where these callees come back.
fn end_in(memory: &mut Heap, function: &mut Function, returning: &[bool]) {
    for block in function.blocks.iter_mut() {
        if let Some(place) = last_call(block, returning) {
            block.steps.truncate(place.saturating_add(1));
            memory.push(&mut block.steps, no_result(block.line));
            block.end = End::Exit;
        }
    }
}
