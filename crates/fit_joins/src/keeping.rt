//! Words that functions keep over their calls, and steps that move them.
use fit_code::{Heap, Instruction, RegisterSet, SourceLine, Step};
use fit_cuts::{number_in, push_instrs, register};
use v8_formats::{Instr, Operand, Reg, Three, Upper};

/// The registers that hold an address, and a number, for the instructions behind them.
pub const BASE: u8 = 6;

pub const NUMBER: u8 = 7;

/// Where the number of the place that a function returns to stands among what is kept: where a window would have its
/// caller's frame.
pub const RETURN: u32 = 56;

/// The same of what calls through pointers, which has no frame: beside that of the function that it calls.
pub const CALLER_RETURN: u32 = 60;

/// The registers that are kept: locals, and ins but %fp and %i7.
pub fn kept() -> RegisterSet {
    RegisterSet::WINDOW.difference(RegisterSet::HELD)
}

/// Where a function keeps words: at an address of an object of the data, or from its soft frame on.
#[derive(Clone, Copy)]
pub enum Keep {
    Record { object: usize, address: u32 },
    Soft(Reg),
}

/// A load of a word, or a store.
fn moved(stores: bool, fields: Three) -> Instr {
    if stores {
        Instr::Store(fields)
    } else {
        Instr::Load(fields)
    }
}

/// Pushes a step that calls nobody.
pub fn push_step(
    memory: &mut Heap,
    steps: &mut Vec<Step>,
    instr: Instr,
    object: Option<usize>,
    line: SourceLine,
) {
    let step = Step {
        instruction: Instruction::of(instr),
        line,
        callee: None,
        object,
        slot: None,
    };
    memory.push(steps, step);
}

/// Pushes a number into a register.
pub fn push_number(
    memory: &mut Heap,
    steps: &mut Vec<Step>,
    rd: u8,
    number: u32,
    line: SourceLine,
) {
    push_instrs(memory, steps, &number_in(rd, number.cast_signed()), line);
}

impl Keep {
    /// Pushes what leaves in the base register the high part of where the words stand, if they stand in the data.
    pub fn push_base(&self, memory: &mut Heap, steps: &mut Vec<Step>, line: SourceLine) {
        if let Keep::Record { object, address } = *self {
            let high = Instr::Sethi(Upper {
                rd: register(BASE),
                imm22: address >> 10,
            });
            push_step(memory, steps, high, Some(object), line);
        }
    }

    /// Pushes a load of the word that stands so many bytes on, behind its base, or a store.
    pub fn push_move(
        &self,
        memory: &mut Heap,
        steps: &mut Vec<Step>,
        (stores, rd, offset): (bool, Reg, u32),
        line: SourceLine,
    ) {
        let (rs1, number, object) = match *self {
            Keep::Record { object, address } => {
                (
                    register(BASE),
                    address.wrapping_add(offset) & 0x3ff,
                    Some(object),
                )
            }
            Keep::Soft(rs1) => (rs1, offset, None),
        };
        let operand2 = Operand::Immediate(number);
        let instr = moved(stores, Three { rd, rs1, operand2 });
        push_step(memory, steps, instr, object, line);
    }

    /// Pushes loads of some registers, or stores: where a window would have them.
    pub fn push_moves(
        &self,
        memory: &mut Heap,
        steps: &mut Vec<Step>,
        (stores, registers): (bool, RegisterSet),
        line: SourceLine,
    ) {
        if !registers.is_empty() {
            self.push_base(memory, steps, line);
        }
        for number in 16..30u8 {
            if registers.has(number) {
                let offset = u32::from(number).saturating_sub(16) * 4;
                let moved = (stores, register(number), offset);
                self.push_move(memory, steps, moved, line);
            }
        }
    }
}
