//! Steps.
use fit_code::{Instruction, SourceLine, Step};
use v8_formats::Instr;

/// A step that is no call and names no object.
pub fn step_of(instr: Instr, line: SourceLine) -> Step {
    Step {
        instruction: Instruction::of(instr),
        line,
        callee: None,
        object: None,
        slot: None,
    }
}
