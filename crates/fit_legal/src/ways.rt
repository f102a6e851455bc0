//! %o7 as a register like others: clang has words there between calls, which lose it as they lose the globals.
use fit_code::{Block, End, Function, Instruction, fields_of, with_operands, with_target};
use v8_formats::{Instr, Operand, Three, Upper};
use v8_word::Reg;

/// The globals that compilers leave alone, from the last choice on.
const GLOBALS: &[u8] = &[4, 3, 2];

/// A register; another one in the place of %o7.
fn replaced(register: Reg, other: Reg) -> Reg {
    if register == Reg::O7 { other } else { register }
}

/// Fields with another register in the place of %o7.
fn fields_with(fields: &Three, other: Reg) -> Three {
    let operand2 = match fields.operand2 {
        Operand::Register(second) => Operand::Register(replaced(second, other)),
        immediate => immediate,
    };
    Three {
        rd: replaced(fields.rd, other),
        rs1: replaced(fields.rs1, other),
        operand2,
    }
}

/// An instruction with another register in the place of %o7.
fn instr_with(instr: &Instr, other: Reg) -> Instr {
    match *instr {
        Instr::Ticc(_) | Instr::Stbar => *instr,
        Instr::Sethi(upper) => Instr::Sethi(Upper {
            rd: replaced(upper.rd, other),
            imm22: upper.imm22,
        }),
        _ => {
            let Three { rd, rs1, operand2 } = fields_with(&fields_of(instr), other);
            with_target(&with_operands(instr, rs1, operand2), rd)
        }
    }
}

/// Lets a block have another register in the place of %o7, but in calls.
fn replace_in(block: &mut Block, other: Reg) {
    if let End::Return(fields) = block.end {
        block.end = End::Return(fields_with(&fields, other));
    }
    for step in block.steps.iter_mut() {
        if step.callee.is_none() {
            step.instruction = Instruction::of(instr_with(&step.instr(), other));
        }
    }
}

/// Lets a function with a window have a global in the place of %o7, where it names that otherwise than calls do, and
/// has no other use for the global; `pointer` is what points into the soft stack.
pub fn free_way_back(function: &mut Function, pointer: Reg) {
    let mut named = function.named();
    named.insert(pointer);
    if !function.framed | !named.contains(Reg::O7) {
        return;
    }
    if let Some(other) = named.last_free(GLOBALS) {
        for block in function.blocks.iter_mut() {
            replace_in(block, other);
        }
    }
}
