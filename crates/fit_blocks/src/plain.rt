//! Steps that compilers wrote, in forms of which more is known.
mod steps;

use fit_code::{Heap, Instruction, Step};
pub use steps::step_of;
use v8_formats::{Instr, Operand, Three};
use v8_word::Reg;

/// A compare of a register with 0.
pub fn against_zero(register: Reg) -> Instr {
    Instr::SubCc(Three {
        rd: Reg::G0,
        rs1: register,
        operand2: Operand::Immediate(0),
    })
}

/// The register that an OR is of, where it is of one register and nothing else.
fn named_alone(fields: &Three) -> Option<Reg> {
    let second = match fields.operand2 {
        Operand::Register(second) => second,
        Operand::Immediate(0) => Reg::G0,
        Operand::Immediate(_) => return None,
    };
    if second == Reg::G0 {
        Some(fields.rs1)
    } else if fields.rs1 == Reg::G0 {
        Some(second)
    } else {
        None
    }
}

/// The number of a function in the program, of whose functions `order` has the numbers in the source.
fn place_in(order: &[usize], code: usize) -> usize {
    for (place, number) in order.iter().enumerate() {
        if *number == code {
            return place;
        }
    }
    0
}

/// An instruction in forms of which more is known, with the move that stands before it, if one does.
fn plain_of(instr: &Instr) -> (Option<Instr>, Instr) {
    match *instr {
        Instr::OrCc(fields) => match named_alone(&fields) {
            Some(register) if fields.rd == Reg::G0 => (None, against_zero(register)),
            Some(_) => (Some(Instr::Or(fields)), against_zero(fields.rd)),
            None => (None, *instr),
        },
        Instr::Add(
            Three {
                rd,
                rs1,
                operand2: Operand::Register(second),
            },
        ) if (rs1 == second) & (second != Reg::G0) => {
            let shift = Instr::Sll(Three {
                rd,
                rs1,
                operand2: Operand::Immediate(1),
            });
            (None, shift)
        }
        other => (None, other),
    }
}

/// Pushes a step in forms of which more is known: `tst r` as `cmp r,0`, `orcc a,0,d` as a move and a compare of `d`
/// with 0, and a number added to itself as a shift. A call gets the number of its callee in the program, of whose
/// functions `order` has the numbers in the source.
pub fn push_plain(memory: &mut Heap, steps: &mut Vec<Step>, step: &Step, order: &[usize]) {
    let callee = match step.callee {
        Some(callee) => Some(place_in(order, callee)),
        None => None,
    };
    let (before, instr) = plain_of(&step.instr());
    if let Some(before) = before {
        let instruction = Instruction::of(before);
        memory.push(
            steps,
            Step {
                instruction,
                ..*step
            },
        );
    }
    let step = Step {
        instruction: Instruction::of(instr),
        callee,
        ..*step
    };
    memory.push(steps, step)
}
