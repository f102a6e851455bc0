//! Ranges of the operands of a block's steps.
use fit_code::{Heap, Step};
use sbx_domain::{State, frame_word_of};
use sbx_range::{Range, known};
use std::alloc::Global;
use v8_formats::{Instr, Operand, Reg};
use v8_meaning::{Operation, operation_of};

/// The ranges of a step's first operand and of its second one, before the step; nothing where one is undefined, or
/// the step has none.
pub type OperandRanges = [Option<Range>; 2];

/// The operands of the steps of a block, up to one of them.
#[derive(Drop)]
pub struct Trace {
    pub operands: Vec<OperandRanges>,
}

/// The operands of an instruction that has two. Of a load or a store they are the parts of its address, and one of a
/// frame word has none.
pub fn operands_of(frame: u32, instr: &Instr) -> Option<(Reg, Operand)> {
    match operation_of(instr) {
        Operation::Compute(_, fields) | Operation::Divide(_, fields) => {
            Some((fields.rs1, fields.operand2))
        }
        Operation::Transfer(_, operand) => match frame_word_of(frame, &operand) {
            Some(_) => None,
            None => Some((operand.rs1, operand.operand2)),
        },
        Operation::WriteY(fields) => Some((fields.rs1, fields.operand2)),
        _ => None,
    }
}

/// The range of an operand; nothing where it is undefined.
fn range_of(operand: Operand, state: &State) -> Option<Range> {
    match operand {
        Operand::Register(register) => match register.number() {
            0 => Some(known(0)),
            number => state.range(u16::from(number)),
        },
        Operand::Immediate(word) => Some(known(word)),
    }
}

impl Trace {
    /// The operands of no step.
    pub fn new(alloc: Global) -> Trace {
        Trace {
            operands: Vec::new(alloc),
        }
    }

    /// Adds the operands of the next step, where the state is that before it.
    pub fn push(&mut self, memory: &mut Heap, frame: u32, step: &Step, state: &State) {
        let known = match operands_of(frame, &step.instr()) {
            Some((first, second)) => [
                range_of(Operand::Register(first), state),
                range_of(second, state),
            ],
            None => [None, None],
        };
        memory.push(&mut self.operands, known);
    }

    /// The operands of a step, by its place in the block.
    pub fn at(&self, place: usize) -> OperandRanges {
        if place < self.operands.len() {
            self.operands[place]
        } else {
            [None, None]
        }
    }
}
