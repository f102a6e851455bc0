//! Places of a meter on ways out of loops. The place of a loop pays for the dearest way to the next place, and that may
//! lead out of the loop, through a call or a loop that a counter bounds: each round would pay for those, unless a place
//! stands before them.
use fit_code::{Block, End, Heap};
use fit_fuel::Meter;
use fit_graph::Loop;

/// A way that leaves a loop.
#[derive(Clone, Copy, PartialEq, Eq)]
pub struct LoopExit {
    pub from: usize,
    pub to: usize,
}

/// The ways out of a loop to blocks without a place, added to others, each once.
fn add_exits(
    memory: &mut Heap,
    blocks: &[Block],
    within: &Loop,
    heads: &[bool],
    exits: &mut Vec<LoopExit>,
) {
    for from in 0..heads.len().min(blocks.len()) {
        if within.has(from) {
            add_exits_of(memory, (from, blocks[from].end), within, heads, exits);
        }
    }
}

/// The same of one block, by its number and its end.
fn add_exits_of(
    memory: &mut Heap,
    (from, end): (usize, End),
    within: &Loop,
    heads: &[bool],
    exits: &mut Vec<LoopExit>,
) {
    for way in end.ways() {
        if let Some(to) = way
            && (to < heads.len()) & !within.has(to)
            && !heads[to]
        {
            let exit = LoopExit { from, to };
            if !exits.contains(&exit) {
                memory.push(exits, exit);
            }
        }
    }
}

/// Whether a block calls a function, or begins a loop.
fn is_dear(blocks: &[Block], loops: &[Loop], block: usize) -> bool {
    let mut is_dear = block < blocks.len() && blocks[block].calls();
    for within in loops {
        is_dear |= within.head == block;
    }
    is_dear
}

/// Whether a call, or a loop without a place, may come from a block on before the next place of the meter.
fn comes_to_dear(
    memory: &mut Heap,
    blocks: &[Block],
    loops: &[Loop],
    heads: &[bool],
    first: usize,
) -> bool {
    let mut passed = memory.repeat(false, heads.len());
    let seen = passed.as_mut_slice();
    let mut open = memory.copy(&[first]);
    // each block is looked at once, and has two ways to others
    for _ in 0..heads.len().saturating_mul(2).saturating_add(1) {
        let Some(block) = open.pop() else {
            break;
        };
        if (block < seen.len()) & (block < heads.len()) && !seen[block] & !heads[block] {
            seen[block] = true;
            if is_dear(blocks, loops, block) {
                return true;
            }
            if block < blocks.len() {
                memory.push_ways(&mut open, blocks[block].end);
            }
        }
    }
    false
}

/// The ways out of loops that have a place of the meter, each once.
fn exits_of(memory: &mut Heap, blocks: &[Block], loops: &[Loop], heads: &[bool]) -> Vec<LoopExit> {
    let mut exits = Vec::new(memory.alloc);
    for within in loops {
        if within.head < heads.len() && heads[within.head] {
            add_exits(memory, blocks, within, heads, &mut exits);
        }
    }
    exits
}

/// The ways out of loops that have a place of the meter, behind which a call may come, or a loop without a place.
pub fn dear_exits(
    memory: &mut Heap,
    blocks: &[Block],
    loops: &[Loop],
    heads: &[bool],
) -> Vec<LoopExit> {
    let exits = exits_of(memory, blocks, loops, heads);
    let mut dear = Vec::new(memory.alloc);
    for exit in exits.as_slice() {
        if comes_to_dear(memory, blocks, loops, heads, exit.to) {
            memory.push(&mut dear, *exit);
        }
    }
    dear
}
