//! Instructions with other operands.
use v8_formats::{Instr, Operand, Reg, Three, decode, encode, three_of};

/// The bits of a word in which its first operand and its second one stand.
const OPERANDS: u32 = 0x0007_ffff;

/// The first bit of a word's destination, which has five.
const DESTINATION: u32 = 25;

/// The destination and the operands of an instruction that has these.
pub fn fields_of(instr: &Instr) -> Three {
    three_of(encode(instr))
}

/// An instruction that works on two operands, with others in their place.
pub fn with_operands(instr: &Instr, rs1: Reg, operand2: Operand) -> Instr {
    let others = encode(&Instr::Add(Three {
        rd: Reg::G0,
        rs1,
        operand2,
    }));
    decode(encode(instr) & !OPERANDS | others & OPERANDS)
}

/// An instruction that has a destination, with another one in its place.
pub fn with_target(instr: &Instr, rd: Reg) -> Instr {
    let destination = u32::from(rd.number()) << DESTINATION;
    decode(encode(instr) & !(31 << DESTINATION) | destination)
}

/// Whether two instructions are the same.
pub fn is_same(one: &Instr, other: &Instr) -> bool {
    encode(one) == encode(other)
}
