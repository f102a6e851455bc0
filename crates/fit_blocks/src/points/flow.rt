//! The effect of an instruction on the flow of control.
use crate::points::ControlFlow;
use crate::points::fields::access_of;
use crate::stops::Obstacle;
use fit_code::{RegisterSet, reads, writes};
use v8_formats::{Instr, Operand, Three, Trap};
use v8_meaning::{Operation, operation_of};
use v8_word::{Cond, Reg};

const NOT_ALLOWED: Obstacle = Obstacle::Form("an instruction that sandboxed code may not have");

/// What a jump does, which has to be a return, to 8 or 12 bytes behind a call, whose address a register holds; or a
/// call through a pointer.
fn jump(fields: &Three) -> Result<ControlFlow, Obstacle> {
    let framed = fields.rs1 == Reg::I7;
    let goes_behind = matches!(fields.operand2, Operand::Immediate(8 | 12));
    if (fields.rd == Reg::G0) & goes_behind & (framed | (fields.rs1 == Reg::O7)) {
        Ok(ControlFlow::Return { framed })
    } else if fields.rd == Reg::O7 {
        Ok(ControlFlow::Call)
    } else {
        Err(Obstacle::JumpThroughPointer)
    }
}

/// What a trap does, which has to be a service that `ta n` asks for.
fn service(trap: &Trap) -> Result<ControlFlow, Obstacle> {
    let is_service = (trap.rs1 == Reg::G0) & (trap.cond == Cond::Always);
    match trap.operand2 {
        Operand::Immediate(0) if is_service => Ok(ControlFlow::Exit),
        Operand::Immediate(1 | 2) if is_service => Ok(ControlFlow::On),
        _ => Err(NOT_ALLOWED),
    }
}

/// What an instruction does to the flow of control, of a branch to a point of its function; or why a program may not
/// have it.
pub fn flow_of(instr: &Instr, to: Option<usize>) -> Result<ControlFlow, Obstacle> {
    let named = reads(instr).union(writes(instr));
    if !named.is_disjoint(RegisterSet::SCRATCH) {
        return Err(Obstacle::Form("one of %g5 to %g7, which tests and meters work with"));
    }
    match instr {
        Instr::LoadDouble(fields) | Instr::StoreDouble(fields) if fields.rd.number() % 2 == 1 => {
            Err(Obstacle::Form("a double word of an odd register"))
        }
        Instr::Bicc(branch) => match to {
            Some(to) => Ok(ControlFlow::Branch {
                cond: branch.cond,
                annul: branch.annul,
                to,
            }),
            None => Err(Obstacle::Form("a branch out of the function")),
        },
        Instr::Call(_) => Ok(ControlFlow::Call),
        Instr::Jmpl(fields) => jump(fields),
        Instr::Save(_) => Ok(ControlFlow::Save),
        Instr::Restore(fields) => Ok(ControlFlow::Restore(*fields)),
        Instr::Unimp(_) => Ok(ControlFlow::Mark),
        Instr::Ticc(trap) => service(trap),
        // SETHI of %g0 is NOP.
        Instr::Sethi(upper) if upper.rd == Reg::G0 => Ok(ControlFlow::Nothing),
        Instr::Sethi(_) | Instr::ReadY(_) | Instr::WriteY(_) => Ok(ControlFlow::On),
        other => {
            // Arithmetic but for TADDccTV and TSUBccTV, and loads and stores of the data's space.
            let operation = operation_of(other);
            let is_plain = matches!(operation, Operation::Compute(..) | Operation::Divide(..));
            if is_plain || access_of(other).is_some() {
                Ok(ControlFlow::On)
            } else {
                Err(NOT_ALLOWED)
            }
        }
    }
}
