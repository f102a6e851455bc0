//! Blocks in two.
use fit_code::{Block, End, Heap, Instruction, SourceLine, Step};
use v8_formats::{Cond, Instr};

/// Puts instructions that call nobody behind steps, those of them that are there.
pub fn push_instrs(
    memory: &mut Heap,
    steps: &mut Vec<Step>,
    instrs: &[Option<Instr>],
    line: SourceLine,
) {
    for instr in instrs {
        if let Some(instr) = *instr {
            let step = Step {
                instruction: Instruction::of(instr),
                line,
                callee: None,
                object: None,
                slot: None,
            };
            memory.push(steps, step);
        }
    }
}

/// Puts an instruction that calls nobody before the step at a place of a block with a number, if there is such a place.
pub fn insert_instr(
    memory: &mut Heap,
    blocks: &mut Vec<Block>,
    (number, place): (usize, usize),
    instr: Instr,
    line: SourceLine,
) {
    let step = Step {
        instruction: Instruction::of(instr),
        line,
        callee: None,
        object: None,
        slot: None,
    };
    if number < blocks.len() {
        let steps = &mut blocks[number].steps;
        if place <= steps.len() {
            memory.is_refused |= steps.insert(place, step).is_err();
        }
    }
}

/// A new block of instructions that call nobody, behind the others; its end has one of them in its slot, or nothing.
pub fn push_block(
    memory: &mut Heap,
    blocks: &mut Vec<Block>,
    instrs: &[Option<Instr>],
    (end, slot): (End, Option<Instr>),
    line: SourceLine,
) {
    let mut steps = Vec::new(memory.alloc);
    push_instrs(memory, &mut steps, instrs, line);
    let block = Block {
        steps,
        end,
        slot: Instruction::held(slot),
        line,
    };
    memory.push(blocks, block);
}

/// The same with an end that goes to a block where a condition holds, and else on to the block that is made then.
pub fn push_branch(
    memory: &mut Heap,
    blocks: &mut Vec<Block>,
    instrs: &[Option<Instr>],
    (cond, taken, slot): (Cond, usize, Option<Instr>),
    line: SourceLine,
) {
    let next = blocks.len().saturating_add(1);
    let end = End::Branch { cond, taken, next };
    push_block(memory, blocks, instrs, (end, slot), line);
}

/// Puts a copy of a block's steps from a place on, and of its end, behind the other blocks; gives its number. With
/// `cuts` the block itself ends before that place then, and goes on to the copy.
pub fn copy_block(
    memory: &mut Heap,
    blocks: &mut Vec<Block>,
    (number, place): (usize, usize),
    cuts: bool,
) -> usize {
    let rest = blocks.len();
    if number < rest {
        let block = &mut blocks[number];
        let steps = block.steps.as_slice();
        let copied = Block {
            steps: memory.copy(&steps[place.min(steps.len())..]),
            end: block.end,
            slot: block.slot,
            line: block.line,
        };
        if cuts {
            block.steps.truncate(place);
            block.end = End::Jump(rest);
            block.slot = None;
        }
        memory.push(blocks, copied);
    }
    rest
}
