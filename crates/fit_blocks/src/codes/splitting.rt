//! Blocks that ask for codes which several places set are copied for each way to them, so that each copy may repeat the
//! compare of its own way.
use fit_code::{Block, End, Heap};

/// A block of more steps isn't copied, nor one to which more ways lead.
const STEPS: usize = 32;

const WAYS: usize = 64;

/// Puts a copy of a block behind the others; gives its number.
fn copied(memory: &mut Heap, blocks: &mut Vec<Block>, number: usize) -> usize {
    let copy = blocks.len();
    if number < copy {
        let block = &blocks[number];
        let block = Block {
            steps: memory.copy(block.steps.as_slice()),
            end: block.end,
            slot: block.slot,
            line: block.line,
        };
        memory.push(blocks, block);
    }
    copy
}

/// The end that goes to another block on one of its ways.
fn led(end: End, way: usize, to: usize) -> End {
    match end {
        End::Jump(_) => End::Jump(to),
        End::Branch { cond, next, .. } if way == 0 => {
            let taken = to;
            End::Branch { cond, taken, next }
        }
        End::Branch { cond, taken, .. } => {
            let next = to;
            End::Branch { cond, taken, next }
        }
        other => other,
    }
}

/// Gives each way to a block but the first one a copy of it to go to. Says whether it is copied.
pub fn copy_for_ways(
    memory: &mut Heap,
    blocks: &mut Vec<Block>,
    number: usize,
    ways: usize,
) -> bool {
    if number >= blocks.len() || blocks[number].steps.len() > STEPS || ways > WAYS {
        return false;
    }
    let mut is_first = true;
    let count = blocks.len();
    for place in 0..count.saturating_mul(2) {
        let (from, way) = (place / 2, place % 2);
        if from < blocks.len() && blocks[from].end.ways()[way] == Some(number) {
            if !is_first {
                let copy = copied(memory, blocks, number);
                if from < blocks.len() {
                    blocks[from].end = led(blocks[from].end, way, copy);
                }
            }
            is_first = false;
        }
    }
    !is_first
}
