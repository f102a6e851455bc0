// The bits that operands fill.
ghost use Rattle.std.specs.Prelude.{◌≡◌, ◌+◌, ◌*◌, ◌%◌, ◌<◌, ◌≤◌, ◌^◌, ◌≤ℤ◌, negsuc, pos};
ghost use Rattle.v8_formats.specs.Spelling.{spell_operand};
ghost use Rattle.v8_forms.specs.Forms.{greatest, least, scale, width};
ghost use Rattle.v8_forms.specs.Text.{annul_bit, special_number, elsewhere_bits, sum_bits};

use crate::part::{Field, Range, Special};
use v8_formats::Operand;
use v8_word::Reg;

/// What a register's number is multiplied by.
pub fn scale(field: Field) -> u32
    ensures value { result ≡ scale field }
    ensures bound { result ≤ 2 ^ 26 }
{
    match field {
        Field::Rd => 0x200_0000,
        Field::Rs1 => 0x4000,
        Field::Rs2 => 1,
        Field::Rs1AndRd => 0x200_4000,
        Field::Rs2AndRd => 0x200_0001,
    }
}

/// The least number of a range.
pub fn least(range: Range) -> i128
    ensures value { result ≡ least range }
    ensures bound { negsuc 4294967295 ≤ℤ result }
{
    match range {
        Range::Signed => -4096,
        Range::Count | Range::Trap | Range::High | Range::Space => 0,
        Range::Whole => -0x8000_0000,
    }
}

/// The greatest number of a range.
pub fn greatest(range: Range) -> i128
    ensures value { result ≡ greatest range }
    ensures bound { result ≤ℤ pos 4294967295 }
{
    match range {
        Range::Signed => 4095,
        Range::Count => 31,
        Range::Trap => 127,
        Range::High => 0x3f_ffff,
        Range::Space => 255,
        Range::Whole => 0xffff_ffff,
    }
}

/// The low bits of a word with this second operand.
pub fn operand_bits(operand: &Operand) -> u32
    ensures value { result ≡ spell_operand operand.now }
    ensures bound { result < 2 ^ 14 }
{
    match operand {
        Operand::Register(register) => u32::from(register.number()),
        Operand::Immediate(number) => 0x2000 + (*number & 0x1fff),
    }
}

/// A first and a second operand in their fields.
pub fn sum_bits(rs1: Reg, operand2: &Operand) -> u32
    ensures value { result ≡ sum_bits rs1 operand2.now }
    ensures bound { result < 2 ^ 19 }
{
    u32::from(rs1.number()) * 0x4000 + operand_bits(operand2)
}

/// Two registers and an address space in their fields.
pub fn elsewhere_bits(rs1: Reg, rs2: Reg, asi: u32) -> u32
    requires { asi < 2 ^ 8 }
    ensures value { result ≡ elsewhere_bits rs1 rs2 asi }
{
    u32::from(rs1.number()) * 0x4000 + asi * 0x20 + u32::from(rs2.number())
}

/// The number of a state register's opcode.
pub fn special_number(special: Special) -> u32
    ensures value { result ≡ special_number special }
    ensures bound { result < 4 }
{
    match special {
        Special::Y => 0,
        Special::Psr => 1,
        Special::Wim => 2,
        Special::Tbr => 3,
    }
}

/// The low bits of a number.
pub fn low_bits(range: Range, number: u32) -> u32
    ensures { result ≡ number % 2 ^ width range }
{
    match range {
        Range::Signed => number & 0x1fff,
        Range::Count => number & 0x1f,
        Range::Trap => number & 0x7f,
        Range::High => number & 0x3f_ffff,
        Range::Space => number & 0xff,
        Range::Whole => number,
    }
}

/// The bit of an instruction that annuls.
pub fn annul_bit(annul: bool) -> u32
    ensures value { result ≡ annul_bit annul }
    ensures bound { result ≤ 2 ^ 29 }
{
    if annul { 0x2000_0000 } else { 0 }
}
