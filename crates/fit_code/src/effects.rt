//! Accessors of instructions: the registers, codes and Y that they read and write.
use crate::code::{Block, End, Function};
use crate::registers::RegisterSet;
use v8_formats::{Instr, Operand, Three, Trap};
use v8_meaning::{Exchange, Loading, Operation, Transfer, is_service_call, odd_of, operation_of};
use v8_word::{Reg, Size, reg_at};

/// %o0, by which services are given a word or give one.
fn service_word() -> RegisterSet {
    RegisterSet::of(reg_at(8, 0))
}

/// The number of the service that is to get a byte.
const GET: u32 = 1;

/// The registers that an instruction works on, or an address is the sum of.
pub fn operands_read(rs1: Reg, operand2: Operand) -> RegisterSet {
    let first = RegisterSet::of(rs1);
    match operand2 {
        Operand::Register(second) => first.union(RegisterSet::of(second)),
        Operand::Immediate(_) => first,
    }
}

/// The registers that fields name, as those of a compare, or of a return, by which RESTORE reads what ADD does.
pub fn named_by(fields: &Three) -> RegisterSet {
    operands_read(fields.rs1, fields.operand2).union(RegisterSet::of(fields.rd))
}

/// A register, and the one beside it.
fn pair(register: Reg) -> RegisterSet {
    RegisterSet::of(register).union(RegisterSet::of(odd_of(register)))
}

/// The registers whose words an access stores.
fn stored(transfer: Transfer, rd: Reg) -> RegisterSet {
    match transfer {
        Transfer::Store(Size::Double) => pair(rd),
        Transfer::Store(_) | Transfer::Exchange(Exchange::Register) => RegisterSet::of(rd),
        Transfer::Load(_) | Transfer::Exchange(Exchange::Ones) => RegisterSet::NONE,
    }
}

/// The registers that an access loads.
fn loaded(transfer: Transfer, rd: Reg) -> RegisterSet {
    match transfer {
        Transfer::Load(Loading::Double) => pair(rd),
        Transfer::Load(_) | Transfer::Exchange(_) => RegisterSet::of(rd),
        Transfer::Store(_) => RegisterSet::NONE,
    }
}

/// Whether an instruction that computes reads the carry, or all codes.
fn reads_codes(instr: &Instr) -> bool {
    matches!(
        instr,
        Instr::Addx(_) | Instr::AddxCc(_) | Instr::Subx(_) | Instr::SubxCc(_) | Instr::MulsCc(_)
    )
}

/// Whether an instruction that computes sets the codes alike a compare: a sum, a difference, or one of logic.
pub fn is_compare(instr: &Instr) -> bool {
    matches!(instr, Instr::AddCc(_) | Instr::SubCc(_)) || is_logic_compare(instr)
}

/// Whether an instruction of logic sets the codes.
pub fn is_logic_compare(instr: &Instr) -> bool {
    matches!(
        instr,
        Instr::AndCc(_)
            | Instr::OrCc(_)
            | Instr::XorCc(_)
            | Instr::AndnCc(_)
            | Instr::OrnCc(_)
            | Instr::XnorCc(_)
    )
}

/// Whether an instruction that computes sets the codes.
fn writes_codes(instr: &Instr) -> bool {
    let is_other = matches!(
        instr,
        Instr::AddxCc(_)
            | Instr::SubxCc(_)
            | Instr::UmulCc(_)
            | Instr::SmulCc(_)
            | Instr::UdivCc(_)
            | Instr::SdivCc(_)
            | Instr::TaddCc(_)
            | Instr::TsubCc(_)
            | Instr::TaddCcTv(_)
            | Instr::TsubCcTv(_)
            | Instr::MulsCc(_)
    );
    is_other || is_compare(instr)
}

/// Whether an instruction that computes reads Y.
fn reads_y(instr: &Instr) -> bool {
    matches!(
        instr,
        Instr::Udiv(_) | Instr::UdivCc(_) | Instr::Sdiv(_) | Instr::SdivCc(_) | Instr::MulsCc(_)
    )
}

/// Whether an instruction that computes writes Y.
fn writes_y(instr: &Instr) -> bool {
    matches!(
        instr,
        Instr::Umul(_) | Instr::UmulCc(_) | Instr::Smul(_) | Instr::SmulCc(_) | Instr::MulsCc(_)
    )
}

/// The codes and Y, each where that is so.
fn codes_and_y(codes: bool, y: bool) -> RegisterSet {
    match (codes, y) {
        (false, false) => RegisterSet::NONE,
        (true, false) => RegisterSet::CODES,
        (false, true) => RegisterSet::Y,
        (true, true) => RegisterSet::CODES_AND_Y,
    }
}

/// What `ta n` reads: %o0, where it exits or puts.
fn read_by_service(trap: &Trap) -> RegisterSet {
    match trap.operand2 {
        Operand::Immediate(number) if is_service_call(trap) & (number != GET) => service_word(),
        _ => RegisterSet::NONE,
    }
}

/// What `ta n` writes: %o0, where it gets.
fn written_by_service(trap: &Trap) -> RegisterSet {
    match trap.operand2 {
        Operand::Immediate(number) if is_service_call(trap) & (number == GET) => service_word(),
        _ => RegisterSet::NONE,
    }
}

/// What an instruction other than CALL, SAVE and RESTORE reads, and what it writes; `operation` is what it asks for.
pub fn uses_of(instr: &Instr, operation: &Operation) -> (RegisterSet, RegisterSet) {
    match operation {
        Operation::Compute(_, fields)
        | Operation::Divide(_, fields)
        | Operation::TaggedTrap(_, fields) => {
            let asked = codes_and_y(reads_codes(instr), reads_y(instr));
            let set = codes_and_y(writes_codes(instr), writes_y(instr));
            (
                operands_read(fields.rs1, fields.operand2).union(asked),
                RegisterSet::of(fields.rd).union(set),
            )
        }
        Operation::SetHigh(fields) => (RegisterSet::NONE, RegisterSet::of(fields.rd)),
        Operation::ReadY(rd) => (RegisterSet::Y, RegisterSet::of(*rd)),
        Operation::WriteY(fields) => (operands_read(fields.rs1, fields.operand2), RegisterSet::Y),
        Operation::Transfer(transfer, operand) => {
            let address = operands_read(operand.rs1, operand.operand2);
            (
                address.union(stored(*transfer, operand.rd)),
                loaded(*transfer, operand.rd),
            )
        }
        Operation::TrapOnCondition(trap) => (read_by_service(trap), written_by_service(trap)),
        _ => (RegisterSet::NONE, RegisterSet::NONE),
    }
}

/// What an instruction other than CALL, SAVE and RESTORE reads.
pub fn reads(instr: &Instr) -> RegisterSet {
    uses_of(instr, &operation_of(instr)).0
}

/// What an instruction other than CALL, SAVE and RESTORE writes.
pub fn writes(instr: &Instr) -> RegisterSet {
    uses_of(instr, &operation_of(instr)).1
}

impl Block {
    /// The registers that its steps and its end name, but for those that calls lose.
    pub fn named(&self) -> RegisterSet {
        let mut named = match self.end {
            End::Return(fields) => named_by(&fields),
            _ => RegisterSet::NONE,
        };
        for step in self.steps.as_slice() {
            if step.callee.is_none() {
                let instr = step.instr();
                let (reads, writes) = uses_of(&instr, &operation_of(&instr));
                named.add(reads.union(writes));
            }
        }
        named
    }

    /// Whether one of its steps is a call.
    pub fn calls(&self) -> bool {
        let mut calls = false;
        for step in self.steps.as_slice() {
            calls |= step.callee.is_some();
        }
        calls
    }
}

impl Function {
    /// The registers that the function names, but for those that calls lose.
    pub fn named(&self) -> RegisterSet {
        let mut named = RegisterSet::NONE;
        for block in self.blocks.as_slice() {
            named.add(block.named());
        }
        named
    }

    /// Whether the function calls another one.
    pub fn calls(&self) -> bool {
        let mut calls = false;
        for block in self.blocks.as_slice() {
            calls |= block.calls();
        }
        calls
    }
}
