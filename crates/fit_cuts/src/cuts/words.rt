//! Steps by what they do.
use v8_formats::{Instr, Operand, Reg, Three, Upper};

/// The register of a number from 0 to 31; %g0 for another one.
pub fn register(number: u8) -> Reg {
    Reg::new(number).unwrap_or(Reg::G0)
}

/// A destination, a register and a number from -4096 to 4095.
pub fn by_immediate(rd: u8, rs1: u8, number: i32) -> Three {
    Three {
        rd: register(rd),
        rs1: register(rs1),
        operand2: Operand::Immediate(number.cast_unsigned()),
    }
}

/// Instructions that leave a number in a register: one or two.
pub fn number_in(rd: u8, number: i32) -> [Option<Instr>; 2] {
    if (-4096 <= number) & (number <= 4095) {
        return [Some(Instr::Or(by_immediate(rd, 0, number))), None];
    }
    let word = number.cast_unsigned();
    let high = Instr::Sethi(Upper {
        rd: register(rd),
        imm22: word >> 10,
    });
    let low = Instr::Or(by_immediate(rd, rd, (word & 0x3ff).cast_signed()));
    [Some(high), if word & 0x3ff == 0 { None } else { Some(low) }]
}

/// The instruction that makes a location 0: a register, or word k of the frame by 32 + k.
pub fn clearing(location: u16) -> Instr {
    if location < 32 {
        Instr::Or(by_immediate(location as u8, 0, 0))
    } else {
        // word k stands at %sp + 64 + 4 k
        Instr::Store(by_immediate(0, 14, 4 * i32::from(location) - 64))
    }
}
