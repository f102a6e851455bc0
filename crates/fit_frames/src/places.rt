//! Places in the frames of functions that compilers wrote.
use crate::arguments::scratch;
use fit_blocks::{MemoryAccess, access_of, signed};
use fit_code::{Instruction, RegisterSet, Step, fields_of, with_operands};
use fit_gas::word_of;
use v8_formats::{Instr, Operand, Three};
use v8_word::Reg;

/// The least frame, a save area.
pub const SAVE_AREA: u32 = 64;

/// The greatest frame that is left in the stack.
pub const FRAME: u32 = 4_096;

/// The offset of a register from %sp as it is in the function's body.
fn base_of(register: Reg, size: u32) -> Option<i64> {
    if register == Reg::SP {
        Some(0)
    } else if register == Reg::FP {
        Some(i64::from(size))
    } else {
        None
    }
}

/// The access that an instruction makes, and where its bytes are, from %sp on.
pub fn place_accessed(instr: &Instr, size: u32) -> Option<(MemoryAccess, i64)> {
    let access = access_of(instr)?;
    let fields = access.fields;
    match (fields.operand2, base_of(fields.rs1, size)) {
        (Operand::Immediate(number), Some(base)) => {
            Some((access, base.saturating_add(signed(number))))
        }
        _ => None,
    }
}

/// An access to whole words of the frame, which may stay there, and where they are.
pub fn word_place(instr: &Instr, size: u32) -> Option<(MemoryAccess, i64)> {
    let (access, place) = place_accessed(instr, size)?;
    let MemoryAccess { fields, bytes, .. } = access;
    let end = place.saturating_add(i64::from(bytes));
    let moves_words = (bytes >= 4) & !matches!(instr, Instr::Swap(_));
    let lies_within = (i64::from(SAVE_AREA) <= place) & (end <= i64::from(size.min(FRAME)));
    let is_held = RegisterSet::STACK.contains(fields.rd);
    if moves_words & lies_within & !is_held & (place.rem_euclid(4) == 0) {
        Some((access, place))
    } else {
        None
    }
}

/// A load of a word, or a store.
fn moved_word(stores: bool, fields: Three) -> Instr {
    if stores {
        Instr::Store(fields)
    } else {
        Instr::Load(fields)
    }
}

/// A load of a word at a place of the frame, or a store.
pub fn word_step(step: &Step, stores: bool, place: i64, rd: Reg) -> Step {
    let fields = Three {
        rd,
        rs1: Reg::SP,
        operand2: Operand::Immediate(word_of(place)),
    };
    Step {
        instruction: Instruction::of(moved_word(stores, fields)),
        object: None,
        ..*step
    }
}

/// The place in the frame whose address an instruction makes, a sum, a difference or a move; and the register that it
/// leaves it in.
pub fn address_made(instr: &Instr, size: u32) -> Option<(i64, Reg)> {
    let (fields, sign) = match instr {
        Instr::Add(fields) => (fields, 1),
        Instr::Sub(fields) => (fields, -1),
        Instr::Or(fields) => (fields, 0),
        _ => return None,
    };
    let (register, number) = match fields.operand2 {
        Operand::Immediate(number) if (sign != 0) | (number == 0) => (fields.rs1, signed(number)),
        Operand::Register(second) if (sign == 0) & (fields.rs1 == Reg::G0) => (second, 0),
        _ => return None,
    };
    let base = base_of(register, size)?;
    let place = base.saturating_add(number.saturating_mul(sign));
    Some((place, fields.rd))
}

/// A step with the scratch register in the place of %sp or %fp, where one alone of its operands is that; and the offset
/// from %sp that the scratch register has to hold.
pub fn by_scratch(step: &Step, object: usize, size: u32) -> Option<(i64, Step)> {
    let Three { rs1, operand2, .. } = fields_of(&step.instr());
    let second = match operand2 {
        Operand::Register(register) => base_of(register, size),
        Operand::Immediate(_) => None,
    };
    let (base, rs1, operand2) = match (base_of(rs1, size), second) {
        (Some(base), None) => (base, scratch(), operand2),
        (None, Some(base)) => (base, rs1, Operand::Register(scratch())),
        _ => return None,
    };
    let is_sum = matches!(
        step.instr(),
        Instr::Add(_) | Instr::Sub(_) | Instr::SubCc(_)
    );
    if !(is_sum | access_of(&step.instr()).is_some()) {
        return None;
    }
    let step = Step {
        instruction: Instruction::of(with_operands(&step.instr(), rs1, operand2)),
        object: Some(object),
        ..*step
    };
    Some((base, step))
}
