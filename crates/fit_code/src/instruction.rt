//! Instructions as steps and slots hold them.
ghost use Rattle.v8_formats.specs.declared.instr.Instr.{Instr};

use std::marker::Model;
use v8_formats::Instr;

/// An instruction that is held by something else. Its forms are seen where it is taken out alone: what goes by a struct
/// with one in it is proved as if that were a number, and not once more for each form.
#[derive(Clone, Copy)]
pub struct Instruction {
    instr: Instr,
}

impl Model for Instruction {
    ghost Value = { Instr };

    ghost view = { λ i. i.instr };

    ghost inverse = { λ i. record { instr = i } };
}

impl Instruction {
    /// Holds an instruction.
    pub fn of(instr: Instr) -> Instruction {
        Instruction { instr }
    }

    /// Holds an instruction, where there is one.
    pub fn held(instr: Option<Instr>) -> Option<Instruction> {
        match instr {
            Some(instr) => Some(Instruction::of(instr)),
            None => None,
        }
    }

    /// The instruction that is held.
    pub fn instr(&self) -> Instr {
        self.instr
    }
}
