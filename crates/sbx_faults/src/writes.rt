//! Which registers an operation uses or writes that it must leave alone.
ghost use Rattle.std.specs.Prelude.{◌≡◌, ◌&&◌, ◌||◌, ◌==◌, ◌∷◌, nat_le, nat_lt, not};
ghost use Rattle.std.specs.List.{list_any};
ghost use Rattle.sbx_rules.specs.Operations.{address_reads, is_reserved, is_framed, may_write, moved_reads};
ghost use Rattle.sbx_rules.specs.Operations.{moved_writes, reads_of, second_reads, service_reads, service_writes};
ghost use Rattle.sbx_rules.specs.Operations.{writes_of};
ghost use Rattle.sbx_rules.specs.Rules.{touches_reserved};

use crate::kinds::{is_framed, is_reserved};
use crate::reads::frame_offset;
use sbx_image::{Function, Kind};
use sbx_rules::service_of;
use v8_formats::Operand;
use v8_meaning::{Exchange, Loading, MemoryOperand, Operation, Transfer, odd_of};
use v8_word::{Reg, Size};

fn is_second_reserved(second: Operand) -> bool
    ensures { result ≡ list_any is_reserved (second_reads second) }
{
    match second {
        Operand::Register(rs2) => is_reserved(rs2),
        Operand::Immediate(_) => false,
    }
}

fn are_reserved(rs1: Reg, second: Operand) -> bool
    ensures { result ≡ list_any is_reserved (rs1 ∷ second_reads second) }
{
    is_reserved(rs1) || is_second_reserved(second)
}

/// Whether a reserved register's word goes out.
fn sends_reserved(transfer: Transfer, rd: Reg) -> bool
    ensures { result ≡ list_any is_reserved (moved_reads transfer rd) }
{
    match transfer {
        Transfer::Store(Size::Double) => is_reserved(rd) || is_reserved(odd_of(rd)),
        Transfer::Store(_) | Transfer::Exchange(Exchange::Register) => is_reserved(rd),
        Transfer::Load(_) | Transfer::Exchange(Exchange::Ones) => false,
    }
}

fn is_reserved_address(offset: Option<i64>, operand: &MemoryOperand) -> bool
    ensures { result ≡ list_any is_reserved (address_reads offset operand.now) }
{
    match offset {
        Some(_) => false,
        None => are_reserved(operand.rs1, operand.operand2),
    }
}

/// Whether an operation reads a reserved register otherwise than by its own form.
#[tactic(auto, unfolding(sbx_rules::specs::Operations::reads_of))]
fn reads_reserved(function: &Function, operation: &Operation) -> bool
    ensures { result ≡ list_any is_reserved (reads_of function.now operation.now) }
{
    match operation {
        Operation::Compute(_, fields) => are_reserved(fields.rs1, fields.operand2),
        Operation::Divide(_, fields) => are_reserved(fields.rs1, fields.operand2),
        Operation::TaggedTrap(_, fields) => are_reserved(fields.rs1, fields.operand2),
        Operation::WriteY(fields) => are_reserved(fields.rs1, fields.operand2),
        Operation::Transfer(transfer, operand) => {
            sends_reserved(*transfer, operand.rd)
                || is_reserved_address(frame_offset(function, *transfer, operand), operand)
        }
        Operation::Restore(fields) => are_reserved(fields.rs1, fields.operand2),
        _ => false,
    }
}

/// Whether a register that an operation writes is the function's to write; RESTORE writes the caller's.
fn may_write(kind: Kind, rd: Reg) -> bool
    ensures { result ≡ (not (is_reserved rd) && (is_framed kind || nat_lt rd 16)) }
{
    !is_reserved(rd) && (is_framed(kind) || rd.number() < 16)
}

fn may_write_moved(kind: Kind, transfer: Transfer, rd: Reg) -> bool
    ensures { not result ≡
        list_any (λ r. not (not (is_reserved r) && (is_framed kind || nat_lt r 16))) (moved_writes transfer rd) }
{
    match transfer {
        Transfer::Load(Loading::Double) => may_write(kind, rd) && may_write(kind, odd_of(rd)),
        Transfer::Load(_) | Transfer::Exchange(_) => may_write(kind, rd),
        Transfer::Store(_) => true,
    }
}

/// What RESTORE may write: an out of the caller, %o0 to %o5, or nothing.
fn may_restore(rd: Reg) -> bool
    ensures { result ≡ ((rd == 0) || (nat_le 8 rd && nat_le rd 13)) }
{
    rd.number() == 0 || (8 <= rd.number() && rd.number() <= 13)
}

/// Whether an operation writes a register that isn't its to write.
#[tactic(auto, unfolding(sbx_rules::specs::Operations::writes_of))]
fn writes_reserved(function: &Function, operation: &Operation) -> bool
    ensures { result ≡ list_any (λ r. not (may_write function.now operation.now r)) (writes_of operation.now) }
{
    let kind = function.kind;
    match operation {
        Operation::Compute(_, fields) => !may_write(kind, fields.rd),
        Operation::Divide(_, fields) => !may_write(kind, fields.rd),
        Operation::TaggedTrap(_, fields) => !may_write(kind, fields.rd),
        Operation::SetHigh(fields) => !may_write(kind, fields.rd),
        Operation::ReadY(rd) => !may_write(kind, *rd),
        Operation::Transfer(transfer, operand) => !may_write_moved(kind, *transfer, operand.rd),
        Operation::Restore(fields) => !may_restore(fields.rd),
        _ => false,
    }
}

/// Whether an operation uses %sp, %fp, %o7 or %i7 otherwise than by its own form, or writes a register that isn't its
/// to write.
#[tactic(auto, unfolding(sbx_rules::specs::Rules::touches_reserved))]
pub fn touches_reserved(function: &Function, operation: &Operation) -> bool
    ensures { result ≡ touches_reserved function.now operation.now }
{
    reads_reserved(function, operation) || writes_reserved(function, operation)
}
