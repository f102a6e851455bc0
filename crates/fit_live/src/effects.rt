//! Effects of instructions in a frame.
use fit_code::{RegisterSet, Step, operands_read, uses_of};
use sbx_domain::frame_word_of;
use v8_formats::Instr;
use v8_meaning::{MemoryOperand, Operation, Transfer, operation_of};

/// What an instruction reads and writes: registers, codes, Y, and words of its function's frame.
#[derive(Clone, Copy)]
pub struct Effects {
    pub reads: RegisterSet,
    pub writes: RegisterSet,
    /// The location of the frame word that is read.
    pub word_read: Option<u16>,
    /// The location of the frame word that is written.
    pub word_written: Option<u16>,
}

/// What reads and writes no word of the frame.
pub(crate) fn of_registers(reads: RegisterSet, writes: RegisterSet) -> Effects {
    Effects {
        reads,
        writes,
        word_read: None,
        word_written: None,
    }
}

/// The effects of a load, a store or an exchange of a word of the frame, by those that it has elsewhere: its address is
/// no register's word.
fn of_word(effects: &Effects, word: u16, transfer: Transfer, operand: &MemoryOperand) -> Effects {
    let address = operands_read(operand.rs1, operand.operand2);
    let word_read = match transfer {
        Transfer::Load(_) | Transfer::Exchange(_) => Some(word),
        Transfer::Store(_) => None,
    };
    let word_written = match transfer {
        Transfer::Store(_) | Transfer::Exchange(_) => Some(word),
        Transfer::Load(_) => None,
    };
    Effects {
        reads: effects.reads.difference(address),
        writes: effects.writes,
        word_read,
        word_written,
    }
}

/// What an instruction other than CALL, SAVE and RESTORE reads and writes in a frame of so many bytes, 0 in a leaf.
pub fn effects_of(frame: u32, instr: &Instr) -> Effects {
    let operation = operation_of(instr);
    let (reads, writes) = uses_of(instr, &operation);
    let effects = of_registers(reads, writes);
    match &operation {
        Operation::Transfer(transfer, operand) => match frame_word_of(frame, operand) {
            Some(word) => of_word(&effects, word, *transfer, operand),
            None => effects,
        },
        _ => effects,
    }
}

/// The same of a step: of a call, what it leaves undefined or with its callee's results, as if it were written.
pub fn effects_in(frame: u32, step: &Step) -> Effects {
    match step.callee {
        Some(_) => of_registers(RegisterSet::NONE, RegisterSet::LOST_BY_CALL),
        None => effects_of(frame, &step.instr()),
    }
}
