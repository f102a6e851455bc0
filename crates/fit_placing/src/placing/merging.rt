//! Blocks that control comes to from one other block alone become a part of that one.
use crate::placing::counts_down;
use fit_code::{Block, End, Heap};
use std::mem::replace;

/// How many ways lead to each of some blocks from those that control comes to.
fn count_ways(memory: &mut Heap, blocks: &[Block], order: &[usize]) -> Vec<usize> {
    let mut counts = memory.repeat(0usize, blocks.len());
    let found = counts.as_mut_slice();
    for block in order {
        if *block < blocks.len() {
            count_end(found, blocks[*block].end);
        }
    }
    counts
}

/// Counts the ways of an end.
fn count_end(counts: &mut [usize], end: End) {
    for way in end.ways() {
        if let Some(to) = way
            && to < counts.len()
        {
            counts[to] = counts[to].saturating_add(1);
        }
    }
}

/// The block that a block jumps to and that nothing else leads to, if it may become a part of it. Not of a function's
/// first block, of which no cells are said, so that fuel that rests on a counter would be that of any word; and no
/// place of the meter, which is known by its steps.
fn next_part(blocks: &[Block], block: usize, counts: &[usize]) -> Option<usize> {
    if block < blocks.len()
        && let End::Jump(to) = blocks[block].end
        && blocks[block].slot.is_none()
        && (block != 0) & (to != 0) & (to != block)
        && to < blocks.len()
        && to < counts.len()
        && counts[to] == 1
        && !counts_down(blocks, to)
    {
        return Some(to);
    }
    None
}

/// Puts the steps and the end of a block behind the steps of another one; nothing is left of it.
fn append(memory: &mut Heap, blocks: &mut [Block], block: usize, part: usize) {
    if block < blocks.len() && part < blocks.len() {
        let (end, slot, line) = (blocks[part].end, blocks[part].slot, blocks[part].line);
        let steps = replace(&mut blocks[part].steps, Vec::new(memory.alloc));
        blocks[part].end = End::Exit;
        blocks[part].slot = None;
        let whole = &mut blocks[block];
        memory.is_refused |= whole.steps.extend_from_slice(steps.as_slice()).is_err();
        whole.end = end;
        whole.slot = slot;
        whole.line = line;
    }
}

/// Lets each block of an order take in what it jumps to and nothing else leads to.
pub fn merge(memory: &mut Heap, blocks: &mut [Block], order: &[usize]) {
    let counts = count_ways(memory, blocks, order);
    for block in order {
        take_in(memory, blocks, *block, counts.as_slice());
    }
}

/// Lets a block take in what it jumps to and nothing else leads to, one block after the other.
fn take_in(memory: &mut Heap, blocks: &mut [Block], block: usize, counts: &[usize]) {
    for _ in 0..blocks.len() {
        let Some(part) = next_part(blocks, block, counts) else {
            break;
        };
        append(memory, blocks, block, part);
    }
}
