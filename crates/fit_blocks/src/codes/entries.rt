//! A loop that control enters at several places, as a `goto` may, gets one entry: who comes by another one goes through
//! copies of the loop's blocks, as far as that one entry.
use crate::codes::pruning::moved;
use crate::stops::Stops;
use fit_code::{Block, Function, Heap};
use fit_graph::{Tangle, reached_from, successors_of, tangle_of};

/// So many steps may be copied of a function that has fewer itself.
const FEW: usize = 256;

/// With its copies a function has at most so many steps.
const STEPS: usize = 16_384;

/// So many loops get one entry at most.
const LOOPS: u32 = 64;

/// So many blocks are tried as a loop's one entry.
const ENTRIES: usize = 8;

/// Blocks are copied in functions of so many at most, a quarter of those that an image's may have.
const BLOCKS: usize = 1024;

/// What is copied of a loop, which holds blocks that ways from elsewhere enter at several, where one of these entries
/// stays: what comes behind the others, as far as that one. Says for each block which number its copy has, if it is
/// copied, behind those of all blocks; and how many steps are, where each block's end counts as one.
fn copies_beside(
    stops: &mut Stops,
    blocks: &[Block],
    successors: &[Vec<usize>],
    holds: &mut [bool],
    entries: &[usize],
    entry: usize,
) -> (Vec<Option<usize>>, usize) {
    let alloc = stops.memory.alloc;
    if entry < holds.len() {
        holds[entry] = false;
    }
    let copied = stops.made(reached_from(alloc, successors, entries, holds));
    if entry < holds.len() {
        holds[entry] = true;
    }
    let mut numbers = Vec::new(alloc);
    let mut steps: usize = 0;
    let mut next = blocks.len();
    for (block, is_copied) in blocks.iter().zip(copied.as_slice().iter()) {
        let mut copy = None;
        if *is_copied {
            steps = steps.saturating_add(block.steps.len()).saturating_add(1);
            copy = Some(next);
            next = next.saturating_add(1);
        }
        stops.memory.push(&mut numbers, copy);
    }
    (numbers, steps)
}

/// Copies blocks of a loop that have other numbers, to which ways from elsewhere and those of the copies lead from then
/// on.
fn copy_blocks(
    memory: &mut Heap,
    function: &mut Function,
    holds: &[bool],
    numbers: &[Option<usize>],
) {
    let mut copies = Vec::new(memory.alloc);
    for (number, block) in function.blocks.iter_mut().enumerate() {
        let end = moved(block.end, numbers);
        if (number < numbers.len()) & (number < holds.len()) {
            if numbers[number].is_some() {
                let copy = Block {
                    steps: memory.copy(block.steps.as_slice()),
                    end,
                    slot: None,
                    line: block.line,
                };
                memory.push(&mut copies, copy);
            } else if !holds[number] {
                block.end = end;
            }
        }
    }
    memory.take(function.blocks.append(&mut copies));
}

/// How many steps of a function may be copied: as many as it has, if they aren't too many.
fn room_of(function: &Function) -> usize {
    let mut steps: usize = 0;
    for block in function.blocks.as_slice() {
        steps = steps.saturating_add(block.steps.len()).saturating_add(1);
    }
    steps.max(FEW).min(STEPS.saturating_sub(steps))
}

/// Gives a loop of a function one entry by copies of so many steps at most, the fewest that there may be of its first
/// entries; says how many more may be copied. None where there is no such loop, and where it has more steps: nothing is
/// copied then.
fn split(stops: &mut Stops, function: &mut Function, room: usize) -> Option<usize> {
    let alloc = stops.memory.alloc;
    let Ok(found) = tangle_of(alloc, function) else {
        stops.memory.is_refused = true;
        return None;
    };
    let Tangle { mut holds, entries } = found?;
    let holds = holds.as_mut_slice();
    let entries = entries.as_slice();
    let successors = stops.made(successors_of(alloc, function));
    let successors = successors.as_slice();
    let blocks = function.blocks.as_slice();
    let mut least = Vec::new(alloc);
    let mut bound = room.saturating_add(1);
    for entry in entries.iter().take(ENTRIES) {
        let (numbers, steps) = copies_beside(stops, blocks, successors, holds, entries, *entry);
        if steps < bound {
            bound = steps;
            least = numbers;
        }
    }
    copy_blocks(&mut stops.memory, function, holds, least.as_slice());
    room.checked_sub(bound)
}

/// Gives each loop of a function one entry, a head that is on each way to its blocks, as far as the copies have no more
/// steps than the function has: the other loops stay as they are.
pub fn give_one_entry(stops: &mut Stops, function: &mut Function) {
    let mut room = room_of(function);
    for _ in 0..LOOPS {
        if function.blocks.len() > BLOCKS {
            break;
        }
        match split(stops, function, room) {
            Some(left) => room = left,
            None => break,
        }
    }
}
