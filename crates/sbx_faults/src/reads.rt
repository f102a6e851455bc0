//! Which locations, codes and Y an operation reads.
ghost use Rattle.std.specs.Prelude.{◌≡◌, ◌∷◌, Some};
ghost use Rattle.std.specs.List.{list_any};
ghost use Rattle.sbx_rules.specs.Known.{Known, known};
ghost use Rattle.sbx_rules.specs.Operations.{address_reads, frame_offset, frame_word_read, moved_reads, reads_codes};
ghost use Rattle.sbx_rules.specs.Operations.{reads_of, reads_y, second_reads, service_reads};
ghost use Rattle.sbx_rules.specs.Rules.{is_undefined_word, reads_undefined};
ghost use Rattle.sbx_faults.specs.Registers.{is_unknown};

use crate::kinds::{is_framed, is_reserved, loads_word, moves_word};
use sbx_image::Function;
use sbx_rules::{State, frame_word_of, offset_from_sp, service_of};
use v8_alu::Op;
use v8_formats::Operand;
use v8_meaning::{Exchange, MemoryOperand, Operation, Transfer, is_always, odd_of};
use v8_word::{Reg, Size};

/// The offset from %sp of an LD or ST that names %sp or %fp and an immediate, in a framed function.
pub fn frame_offset(function: &Function, transfer: Transfer, operand: &MemoryOperand) -> Option<i64>
    ensures { result ≡ frame_offset function.now transfer operand.now }
{
    if is_framed(function.kind) && moves_word(transfer) {
        offset_from_sp(function.frame, operand.rs1, operand.operand2)
    } else {
        None
    }
}

/// The location of the frame word that an operation reads, if it reads one.
pub fn frame_word_read(function: &Function, operation: &Operation) -> Option<u16>
    ensures { result ≡ frame_word_read function.now operation.now }
{
    match operation {
        Operation::Transfer(transfer, operand) => {
            if is_framed(function.kind) && loads_word(*transfer) {
                frame_word_of(function.frame, operand)
            } else {
                None
            }
        }
        _ => None,
    }
}

fn is_undefined_at(location: u16, state: &State) -> bool
    ensures { result ≡ is_undefined_word (known state.now) (Some location) }
{
    match state.range(location) {
        Some(_) => false,
        None => true,
    }
}

fn is_unknown(register: Reg, state: &State) -> bool
    ensures { result ≡ is_unknown (known state.now) register }
{
    register.number() != 0
        && !is_reserved(register)
        && is_undefined_at(u16::from(register.number()), state)
}

fn is_unknown_second(second: Operand, state: &State) -> bool
    ensures { result ≡ list_any (is_unknown (known state.now)) (second_reads second) }
{
    match second {
        Operand::Register(rs2) => is_unknown(rs2, state),
        Operand::Immediate(_) => false,
    }
}

fn are_unknown(rs1: Reg, second: Operand, state: &State) -> bool
    ensures { result ≡ list_any (is_unknown (known state.now)) (rs1 ∷ second_reads second) }
{
    is_unknown(rs1, state) || is_unknown_second(second, state)
}

/// Whether a register whose word goes out may hold any word.
fn sends_unknown(transfer: Transfer, rd: Reg, state: &State) -> bool
    ensures { result ≡ list_any (is_unknown (known state.now)) (moved_reads transfer rd) }
{
    match transfer {
        Transfer::Store(Size::Double) => is_unknown(rd, state) || is_unknown(odd_of(rd), state),
        Transfer::Store(_) | Transfer::Exchange(Exchange::Register) => is_unknown(rd, state),
        Transfer::Load(_) | Transfer::Exchange(Exchange::Ones) => false,
    }
}

/// Whether an address stands on a register that may hold any word; that of a frame word doesn't.
fn is_unknown_address(offset: Option<i64>, operand: &MemoryOperand, state: &State) -> bool
    ensures { result ≡ list_any (is_unknown (known state.now)) (address_reads offset operand.now) }
{
    match offset {
        Some(_) => false,
        None => are_unknown(operand.rs1, operand.operand2, state),
    }
}

fn serves_unknown(service: Option<u32>, state: &State) -> bool
    ensures { result ≡ list_any (is_unknown (known state.now)) (service_reads service) }
{
    match service {
        Some(0) | Some(2) => is_undefined_at(8, state),
        _ => false,
    }
}

/// Whether an operation reads a register that may hold any word.
#[tactic(auto, unfolding(sbx_rules::specs::Operations::reads_of))]
fn reads_unknown(function: &Function, operation: &Operation, state: &State) -> bool
    ensures { result ≡ list_any (is_unknown (known state.now)) (reads_of function.now operation.now) }
{
    match operation {
        Operation::Compute(_, fields) => are_unknown(fields.rs1, fields.operand2, state),
        Operation::Divide(_, fields) => are_unknown(fields.rs1, fields.operand2, state),
        Operation::TaggedTrap(_, fields) => are_unknown(fields.rs1, fields.operand2, state),
        Operation::WriteY(fields) => are_unknown(fields.rs1, fields.operand2, state),
        Operation::Transfer(transfer, operand) => {
            sends_unknown(*transfer, operand.rd, state)
                || is_unknown_address(frame_offset(function, *transfer, operand), operand, state)
        }
        Operation::Restore(fields) => are_unknown(fields.rs1, fields.operand2, state),
        Operation::TrapOnCondition(trap) => serves_unknown(service_of(trap), state),
        _ => false,
    }
}

/// Whether an operation reads the condition codes: ADDX, SUBX, MULScc and every branch but `ba`.
pub fn reads_codes(operation: &Operation) -> bool
    ensures { result ≡ reads_codes operation.now }
{
    match operation {
        Operation::BranchOnCondition(branch) => !is_always(branch.cond),
        Operation::Compute(op, _) => matches!(
            *op,
            Op::Addx | Op::AddxCc | Op::Subx | Op::SubxCc | Op::MulsCc
        ),
        _ => false,
    }
}

/// Whether an operation reads Y: divisions, RDY and MULScc.
pub fn reads_y(operation: &Operation) -> bool
    ensures { result ≡ reads_y operation.now }
{
    match operation {
        Operation::Divide(..) | Operation::ReadY(_) => true,
        Operation::Compute(op, _) => matches!(*op, Op::MulsCc),
        _ => false,
    }
}

fn reads_undefined_word(function: &Function, operation: &Operation, state: &State) -> bool
    ensures { result ≡ is_undefined_word (known state.now) (frame_word_read function.now operation.now) }
{
    match frame_word_read(function, operation) {
        Some(location) => is_undefined_at(location, state),
        None => false,
    }
}

/// Whether an operation reads a location, the condition codes or Y while undefined.
#[tactic(auto, unfolding(sbx_rules::specs::Rules::reads_undefined))]
pub fn reads_undefined(function: &Function, operation: &Operation, state: &State) -> bool
    ensures { result ≡ reads_undefined function.now operation.now (known state.now) }
{
    reads_unknown(function, operation, state)
        || reads_undefined_word(function, operation, state)
        || (reads_codes(operation) && !state.icc())
        || (reads_y(operation) && state.y().is_none())
}
