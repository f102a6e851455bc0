//! Accesses to memory, by what they move.
use v8_formats::{Instr, Three, bytes_in};
use v8_meaning::{Operation, is_normal, operation_of};

/// A word read as a signed number.
pub fn signed(word: u32) -> i64 {
    i64::from(word.cast_signed())
}

/// An access to memory: its fields, how many bytes it moves, and whether it stores them.
#[derive(Clone, Copy)]
pub struct MemoryAccess {
    pub fields: Three,
    pub bytes: u32,
    pub stores: bool,
}

/// The access that an instruction makes to the data's space.
pub fn access_of(instr: &Instr) -> Option<MemoryAccess> {
    match operation_of(instr) {
        Operation::Transfer(transfer, operand) if is_normal(operand.space) => Some(MemoryAccess {
            fields: Three {
                rd: operand.rd,
                rs1: operand.rs1,
                operand2: operand.operand2,
            },
            bytes: bytes_in(transfer.size()),
            stores: transfer.writes_memory(),
        }),
        _ => None,
    }
}
