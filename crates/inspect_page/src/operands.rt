//! Addresses of loads and stores that didn't complete, and the bytes that the device gave.
use crate::events::trap_of;
use v8_core::{Machine, Turn};
use v8_formats::decode;
use v8_map::DEVICE_PLACE;
use v8_meaning::{MemoryOperand, Operand, Operation, address, operation_of};
use v8_mmu::Bus;
use v8_windows::RegFile;
use v8_word::TrapType;

/// What a load of the device gives at the end of the input.
const NO_BYTE: u32 = 0xFFFF_FFFF;

/// What the word of a turn loads or stores.
fn moved(turn: &Turn) -> Option<MemoryOperand> {
    match operation_of(&decode(turn.word?)) {
        Operation::Transfer(_, operand) => Some(operand),
        _ => None,
    }
}

/// Whether a turn trapped since its load or store was refused.
fn is_refused(turn: &Turn) -> bool {
    match trap_of(&turn.event) {
        Some(trap) => trap.number() == TrapType::DATA_ACCESS_EXCEPTION.number(),
        None => false,
    }
}

/// The word of a second operand.
fn second_word<const N: usize>(registers: &RegFile<N>, operand: &Operand) -> u32 {
    match operand {
        Operand::Register(register) => registers.get(*register),
        Operand::Immediate(number) => *number,
    }
}

/// The address of a turn's load or store that was refused, by the registers before it.
pub fn refused_address<const N: usize>(registers: &RegFile<N>, turn: &Turn) -> Option<u32> {
    if !is_refused(turn) {
        return None;
    }
    match moved(turn) {
        Some(operand) => {
            let first = registers.get(operand.rs1);
            Some(address(first, second_word(registers, &operand.operand2)))
        }
        None => None,
    }
}

/// Whether a turn, behind which the machine is, got a byte of the input.
pub fn has_byte<const N: usize, B: Bus>(machine: &Machine<N, B>, turn: &Turn) -> bool {
    match (&turn.access, moved(turn)) {
        (Some(access), Some(operand)) => {
            !access.store && access.pa == DEVICE_PLACE && machine.reg(operand.rd) != NO_BYTE
        }
        _ => false,
    }
}
