//! Registers that a word uses or writes without being allowed to.
ghost use Rattle.sbx_known.specs.Spots.{IsSpot};

use crate::reads::registers_read;
use arrayvec::ArrayVec;
use inspect_image::Location;
use sbx_image::{Function, Image, Kind};
use sbx_known::{Spot, function_at};
use std::alloc::AllocError;
use v8_meaning::{Loading, MemoryOperand, Operation, Transfer, odd_of};
use v8_word::Reg;

/// The registers that a load or an exchange writes.
fn loaded(transfer: &Transfer, operand: &MemoryOperand) -> ArrayVec<u8, 2> {
    let mut registers = ArrayVec::new();
    match transfer {
        Transfer::Store(_) => {}
        Transfer::Load(Loading::Double) => {
            registers.push(operand.rd.number());
            registers.push(odd_of(operand.rd).number());
        }
        Transfer::Load(_) | Transfer::Exchange(_) => registers.push(operand.rd.number()),
    }
    registers
}

/// One register.
fn alone(register: Reg) -> ArrayVec<u8, 2> {
    let mut registers = ArrayVec::new();
    registers.push(register.number());
    registers
}

/// The registers that an operation writes, but for SAVE and CALL, which have forms of their own.
fn registers_written(operation: &Operation) -> ArrayVec<u8, 2> {
    match operation {
        Operation::Compute(_, fields)
        | Operation::Divide(_, fields)
        | Operation::TaggedTrap(_, fields)
        | Operation::Restore(fields) => alone(fields.rd),
        Operation::SetHigh(fields) => alone(fields.rd),
        Operation::ReadY(rd) => alone(*rd),
        Operation::Transfer(transfer, operand) => loaded(transfer, operand),
        _ => ArrayVec::new(),
    }
}

/// What a register is kept for.
fn kept_text(register: u8) -> &'static str {
    match register {
        14 | 30 =>
            "a frame's place: `save %sp,-F,%sp`, and `ld` and `st` of a framed function's words, alone name it",
        _ => "the way back: CALL writes it, and `ret` or `retl` reads it",
    }
}

/// Pushes a reserved register that is read.
fn push_used(out: &mut String, register: u8) -> Result<(), AllocError> {
    if !matches!(register, 14 | 15 | 30 | 31) {
        return Ok(());
    }
    let (name, text) = (Location(u16::from(register)), kept_text(register));
    writeln!(out, "{name} is {text}")
}

/// Pushes why a register isn't to be written.
fn push_written(
    out: &mut String,
    kind: Kind,
    restores: bool,
    register: u8,
) -> Result<(), AllocError> {
    let name = Location(u16::from(register));
    if restores {
        if register == 0 || (8 <= register && register <= 13) {
            return Ok(());
        }
        return writeln!(
            out,
            "RESTORE writes %g0 or one of %o0 to %o5, and not {name}"
        );
    }
    if matches!(register, 14 | 15 | 30 | 31) {
        return push_used(out, register);
    }
    match kind {
        Kind::Leaf if register >= 16 => writeln!(
            out,
            "{name} isn't a leaf's to write, which has %g1 to %g7 and %o0 to %o5: declare it `framed`"
        ),
        _ => Ok(()),
    }
}

/// Pushes each reserved register that is read.
fn push_reads(out: &mut String, function: &Function, spot: &Spot) -> Result<(), AllocError> {
    let registers = registers_read(function, &spot.operation);
    for register in registers.as_slice() {
        push_used(out, *register)?;
    }
    Ok(())
}

/// Pushes each register that a word reads or writes without being allowed to, and what it is kept for.
pub(crate) fn push_reserved(out: &mut String, image: &Image, spot: &Spot) -> Result<(), AllocError>
    requires { IsSpot image.now spot.now }
{
    let function = function_at(image, spot.function);
    push_reads(out, function, spot)?;
    let restores = matches!(spot.operation, Operation::Restore(_));
    let registers = registers_written(&spot.operation);
    for register in registers.as_slice() {
        push_written(out, function.kind, restores, *register)?;
    }
    Ok(())
}
