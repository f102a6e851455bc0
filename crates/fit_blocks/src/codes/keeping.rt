//! Registers that keep what the codes, or Y, can be set from again: such as a function has no other use for, from what
//! sets them to the blocks that ask for them.
use crate::codes::setting::{CodesOrY, setting_of};
use fit_code::{
    Block, Function, Heap, Instruction, RegisterSet, Step, fields_of, is_logic_compare, with_target,
};
use v8_formats::{Instr, Operand, Three};
use v8_word::Reg;

/// What is kept of what sets the codes, or Y.
#[derive(Clone, Copy)]
pub enum KeptWord {
    /// The result, of which zero and sign are those of the codes.
    Result,
    /// The carry.
    Carry,
    /// The operands of a compare that sets the same codes.
    First,
    Second,
    Y,
}

impl KeptWord {
    /// Its place among registers.
    fn place(&self) -> usize {
        match self {
            KeptWord::Result => 0,
            KeptWord::Carry => 1,
            KeptWord::First => 2,
            KeptWord::Second => 3,
            KeptWord::Y => 4,
        }
    }

    /// Its bit.
    pub fn bit(&self) -> u8 {
        match self {
            KeptWord::Result => 1,
            KeptWord::Carry => 2,
            KeptWord::First => 4,
            KeptWord::Second => 8,
            KeptWord::Y => 16,
        }
    }
}

/// The registers that may be taken, from the last choice on: locals of a function with a window, and the globals that
/// compilers leave alone.
const CANDIDATES: &[u8] = &[1, 2, 3, 4, 23, 22, 21, 20, 19, 18, 17, 16];

/// The registers that hold what is kept.
#[derive(Clone, Copy)]
pub struct Spares {
    /// The registers that the function names, and those that are taken.
    named: RegisterSet,
    /// %g0 where nothing is kept.
    registers: [Reg; 5],
}

impl Spares {
    /// Those of a function, of which none is taken so far; it has no use for some register that it doesn't name, as
    /// `other`.
    pub fn of(function: &Function, other: Reg) -> Spares {
        let mut named = function.named();
        named.insert(other);
        if !function.framed {
            named.add(RegisterSet::LOCALS);
        }
        Spares {
            named,
            registers: [Reg::G0; 5],
        }
    }

    /// The register that is taken next; none where there is none.
    fn next(&self) -> Option<Reg> {
        self.named.last_free(CANDIDATES)
    }

    /// Whether a result and a carry can be kept.
    pub fn has_room(&self) -> bool {
        match self.next() {
            Some(first) => {
                let named = self.named.union(RegisterSet::of(first));
                named.last_free(CANDIDATES).is_some()
            }
            None => false,
        }
    }

    /// The register for what is kept, which is taken where it wasn't; none where there is none.
    pub fn take(&mut self, kept: KeptWord) -> Option<Reg> {
        let place = kept.place() % 5;
        if self.registers[place] == Reg::G0 {
            let next = self.next().unwrap_or(Reg::G0);
            self.registers[place] = next;
            self.named.insert(next);
        }
        let register = self.registers[place];
        (register != Reg::G0).then_some(register)
    }

    /// The register for what is kept, where some bits say that it is.
    fn at(&self, marks: u8, kept: KeptWord) -> Option<Reg> {
        (marks & kept.bit() != 0).then_some(self.registers[kept.place() % 5])
    }
}

/// The operands of a compare that sets the codes which another instruction sets.
#[derive(Clone, Copy)]
pub struct Compared {
    /// None where it is that instruction's result.
    pub first: Option<Reg>,
    pub second: Operand,
}

/// The compare that sets the codes of an instruction, if there is one; where the carry matters, that as well.
pub fn compare_of(instr: &Instr, asks_carry: bool) -> Option<Compared> {
    match instr {
        Instr::SubCc(fields) => Some(Compared {
            first: Some(fields.rs1),
            second: fields.operand2,
        }),
        // A sum is the difference to the number below 0, but for its carry.
        Instr::AddCc(fields) => match fields.operand2 {
            Operand::Immediate(number) if !asks_carry & is_turned(number) => Some(Compared {
                first: Some(fields.rs1),
                second: Operand::Immediate(0u32.wrapping_sub(number)),
            }),
            _ => None,
        },
        other if is_logic_compare(other) => Some(Compared {
            first: None,
            second: Operand::Immediate(0),
        }),
        _ => None,
    }
}

/// Whether a number isn't 0, and is an immediate below 0 as it is above.
fn is_turned(number: u32) -> bool {
    let signed = number.cast_signed();
    (signed != 0) & (-4096 < signed) & (signed < 4096)
}

/// What leaves an operand in a register.
fn moved(rd: Reg, operand2: Operand) -> Instr {
    Instr::Or(Three {
        rd,
        rs1: Reg::G0,
        operand2,
    })
}

/// Pushes what keeps the operands of the compare that sets the codes of a step before that is done: what `marks` says.
fn push_before(memory: &mut Heap, steps: &mut Vec<Step>, step: &Step, marks: u8, spares: &Spares) {
    let Some(Compared { first, second }) = compare_of(&step.instr(), false) else {
        return;
    };
    if let Some(first) = first
        && let Some(rd) = spares.at(marks, KeptWord::First)
    {
        let instr = moved(rd, Operand::Register(first));
        push(memory, steps, step, instr);
    }
    if let Some(rd) = spares.at(marks, KeptWord::Second) {
        push(memory, steps, step, moved(rd, second));
    }
}

/// Pushes what sets the codes, or Y, and what keeps its result, its carry or Y, as `marks` says.
fn push_setter(memory: &mut Heap, steps: &mut Vec<Step>, step: &Step, marks: u8, spares: &Spares) {
    let kept = [
        spares.at(marks, KeptWord::Result),
        first_of_result(&step.instr(), marks, spares),
    ];
    let mut result = fields_of(&step.instr()).rd;
    if result == Reg::G0 {
        result = kept[0].or(kept[1]).unwrap_or(Reg::G0);
    }
    push(memory, steps, step, with_target(&step.instr(), result));
    for place in 0..2 {
        if let Some(rd) = kept[place]
            && rd != result
        {
            push(memory, steps, step, moved(rd, Operand::Register(result)));
        }
    }
    if let Some(rd) = spares.at(marks, KeptWord::Carry) {
        let operand2 = Operand::Immediate(0);
        let rs1 = Reg::G0;
        push(
            memory,
            steps,
            step,
            Instr::Addx(Three { rd, rs1, operand2 }),
        );
    }
    if let Some(rd) = spares.at(marks, KeptWord::Y) {
        push(memory, steps, step, Instr::ReadY(rd));
    }
}

/// The register that holds the first operand of the compare that sets an instruction's codes, where that is its result.
fn first_of_result(instr: &Instr, marks: u8, spares: &Spares) -> Option<Reg> {
    match compare_of(instr, false) {
        Some(Compared { first: None, .. }) => spares.at(marks, KeptWord::First),
        _ => None,
    }
}

/// Pushes a step like another one that names no object.
fn push(memory: &mut Heap, steps: &mut Vec<Step>, step: &Step, instr: Instr) {
    memory.push(
        steps,
        Step {
            instruction: Instruction::of(instr),
            ..*step
        },
    );
}

/// Lets the step of a block that sets the codes, or Y, last keep what `marks` says.
pub fn keep_in(
    memory: &mut Heap,
    block: &mut Block,
    special: CodesOrY,
    (marks, spares): (u8, &Spares),
) {
    let setting = setting_of(special, block.steps.as_slice());
    if (marks == 0) | setting.setter.is_none() {
        return;
    }
    let mut steps = Vec::new(memory.alloc);
    for (place, step) in block.steps.as_slice().iter().enumerate() {
        if place == setting.place {
            push_before(memory, &mut steps, step, marks, spares);
            push_setter(memory, &mut steps, step, marks, spares);
        } else {
            memory.push(&mut steps, *step);
        }
    }
    block.steps = steps;
}
