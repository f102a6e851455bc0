//! Places of blocks in a function, and the contents of delay slots.
mod filling;
mod merging;

use crate::placing::merging::merge;
pub use filling::{end_unreached, fill};
use fit_code::{Block, End, Function, Heap, opposite};
use fit_cuts::{insert_instr, push_block};
use fit_fuel::counting_step;
use fit_graph::Graph;
use std::mem;
use v8_formats::{Instr, Reg, Upper};

/// Where control comes to from a block's beginning, past blocks that do nothing.
fn through(blocks: &[Block], block: usize) -> usize {
    let mut at = block;
    for _ in 0..blocks.len() {
        if at < blocks.len()
            && let End::Jump(to) = blocks[at].end
            && blocks[at].slot.is_none()
            && blocks[at].steps.is_empty()
        {
            at = to;
        } else {
            return at;
        }
    }
    // blocks that go round and do nothing
    block
}

/// Lets each end go past blocks that do nothing. A branch whose ways come to one block is a jump.
fn straighten(blocks: &mut [Block]) {
    for place in 0..blocks.len() {
        let end = match blocks[place].end {
            End::Jump(to) => End::Jump(through(blocks, to)),
            End::Branch { cond, taken, next } => {
                let (taken, next) = (through(blocks, taken), through(blocks, next));
                if taken == next {
                    End::Jump(next)
                } else {
                    End::Branch { cond, taken, next }
                }
            }
            end => end,
        };
        blocks[place].end = end;
    }
}

/// The new number of a block; none of one that isn't placed.
fn number_of(numbers: &[Option<usize>], block: usize) -> Option<usize> {
    if block < numbers.len() {
        numbers[block]
    } else {
        None
    }
}

/// Whether a block counts a meter down, and ends the run where it is empty: what it goes on to is its next block then,
/// by which it is known.
pub(crate) fn counts_down(blocks: &[Block], at: usize) -> bool {
    if at < blocks.len()
        && let Some((_place, fields)) = counting_step(&blocks[at])
        && let End::Branch { taken, .. } = blocks[at].end
        && taken < blocks.len()
        && let End::Exit = blocks[taken].end
    {
        return fields.rd != Reg::G0;
    }
    false
}

/// A block with another end, to which its steps go.
fn moved_block(memory: &Heap, block: &mut Block, end: End) -> Block {
    Block {
        steps: mem::replace(&mut block.steps, Vec::new(memory.alloc)),
        end,
        slot: block.slot,
        line: block.line,
    }
}

/// Puts a block behind those that are placed, if it isn't one of them, and behind it what follows: the block that it
/// goes on to, if that isn't placed. A branch whose next block stands elsewhere is turned, if it isn't a meter's;
/// behind one both of whose blocks stand elsewhere comes a block that jumps to the next one.
fn follow(
    memory: &mut Heap,
    blocks: &mut [Block],
    mut at: usize,
    numbers: &mut [Option<usize>],
    placed: &mut Vec<Block>,
) {
    // each turn places a block
    for _ in 0..blocks.len() {
        if at >= blocks.len() || at >= numbers.len() || numbers[at].is_some() {
            return;
        }
        numbers[at] = Some(placed.len());
        let is_meter = counts_down(blocks, at);
        let block = &mut blocks[at];
        let (mut end, line, mut jump) = (block.end, block.line, None);
        if let End::Jump(to) = end {
            at = to;
        } else if let End::Branch { cond, taken, next } = end {
            if number_of(numbers, next).is_none() {
                at = next;
            } else if !is_meter && number_of(numbers, taken).is_none() {
                let (cond, taken, next) = (opposite(cond), next, taken);
                end = End::Branch { cond, taken, next };
                at = next;
            } else {
                jump = Some(next);
            }
        }
        let moved = moved_block(memory, block, end);
        memory.push(placed, moved);
        if let Some(next) = jump {
            push_block(memory, placed, &[], (End::Jump(next), None), line);
        }
    }
}

/// Gives the ends of blocks the new numbers. The next block of a branch stands behind it.
fn renumber(placed: &mut [Block], numbers: &[Option<usize>]) {
    for place in 0..placed.len() {
        match &mut placed[place].end {
            End::Jump(to) => *to = number_of(numbers, *to).unwrap_or(0),
            End::Branch { taken, next, .. } => {
                *taken = number_of(numbers, *taken).unwrap_or(0);
                *next = place.saturating_add(1);
            }
            End::Return(_) | End::Exit => {}
        }
    }
}

/// Puts the blocks of a function in an order in which control mostly goes on to the next one, without those that
/// nothing goes to and those that do nothing. The next block of a branch stands behind it; a jump to the block behind
/// it is no instruction. A leaf's first block has an instruction, also where it only goes on to the next block.
pub fn place(memory: &mut Heap, function: &mut Function) {
    straighten(function.blocks.as_mut_slice());
    let order = Graph::of(memory, function).order;
    merge(
        memory,
        function.blocks.as_mut_slice(),
        order.blocks.as_slice(),
    );
    let order = Graph::of(memory, function).order;
    let blocks = function.blocks.as_mut_slice();
    let mut numbers = memory.repeat(None, blocks.len());
    let numbers = numbers.as_mut_slice();
    let mut placed = Vec::new(memory.alloc);
    for block in order.blocks.as_slice() {
        follow(memory, blocks, *block, numbers, &mut placed);
    }
    renumber(placed.as_mut_slice(), numbers);
    function.blocks = placed;
    let line = function.line;
    let blocks = &mut function.blocks;
    if !function.framed && !blocks.is_empty() && blocks[0].steps.is_empty() {
        let nothing = Instr::Sethi(Upper {
            rd: Reg::G0,
            imm22: 0,
        });
        insert_instr(memory, blocks, (0, 0), nothing, line);
    }
}
