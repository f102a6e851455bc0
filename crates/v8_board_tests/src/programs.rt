//! Programs as words, and chains of 39 calls below the first function.
ghost use Rattle.std.specs.Prelude.{◌<◌};

use crate::images::{NOP, RESTORE, RET, SAVE};
use std::alloc::{AllocError, Global};

/// Copies at most 1,000 bytes of input to the output.
///
/// `save %sp,-96,%sp; mov 1000,%l0; loop: ta 1; cmp %o0,-1; be done; nop; ta 2; deccc %l0; bne loop; nop; done: mov
/// 0,%o0; ta 0`
pub const ECHO: [u32; 12] = [
    0x9DE3_BFA0,
    0xA010_23E8,
    0x91D0_2001,
    0x80A2_3FFF,
    0x0280_0006,
    0x0100_0000,
    0x91D0_2002,
    0xA0A4_2001,
    0x12BF_FFFA,
    0x0100_0000,
    0x9010_2000,
    0x91D0_2000,
];

/// A call without a frame adds 1 to 32, and the sum is put out.
///
/// `save %sp,-96,%sp; mov 32,%o0; call inc1; nop; ta 2; mov 0,%o0; ta 0; retl; add %o0,1,%o0`
pub const INCREMENT: [u32; 9] = [
    0x9DE3_BFA0,
    0x9010_2020,
    0x4000_0005,
    0x0100_0000,
    0x91D0_2002,
    0x9010_2000,
    0x91D0_2000,
    0x81C3_E008,
    0x9002_2001,
];

/// Five rounds of a call with a frame and one without; puts the last word out.
///
/// `save %sp,-96,%sp; mov 5,%l0; mov 1,%l2; loop: call framed; mov %l2,%o0; call leaf; xor %o0,%l0,%o0; mov %o0,%l2;
/// deccc %l0; bne loop; nop; srl %l2,24,%o0; ta 2; srl %l2,16,%o0; ta 2; srl %l2,8,%o0; ta 2; mov %l2,%o0; ta 2; mov
/// 0,%o0; ta 0; save %sp,-96,%sp; sll %i0,3,%l0; ret; restore %i0,%l0,%o0; srl %o0,5,%o1; retl; xor %o0,%o1,%o0`
pub const CALLS: [u32; 28] = [
    0x9DE3_BFA0,
    0xA010_2005,
    0xA410_2001,
    0x4000_0012,
    0x9010_0012,
    0x4000_0014,
    0x901A_0010,
    0xA410_0008,
    0xA0A4_2001,
    0x12BF_FFFA,
    0x0100_0000,
    0x9134_A018,
    0x91D0_2002,
    0x9134_A010,
    0x91D0_2002,
    0x9134_A008,
    0x91D0_2002,
    0x9010_0012,
    0x91D0_2002,
    0x9010_2000,
    0x91D0_2000,
    0x9DE3_BFA0,
    0xA12E_2003,
    0x81C7_E008,
    0x91EE_0010,
    0x9332_2005,
    0x81C3_E008,
    0x901A_0009,
];

/// Three rounds of multiplications and divisions with Y; puts the last word out.
///
/// `save %sp,-96,%sp; mov 3,%l0; mov 1,%l1; mov 0,%l2; set 1103515245,%l3; loop: umul %l1,%l3,%l1; rd %y,%o1; add
/// %l1,1013,%l1; xor %l2,%o1,%l2; srl %l1,16,%o2; or %o2,1,%o2; wr %g0,0,%y; udiv %l1,%o2,%o3; add %l2,%o3,%l2; sra
/// %l1,31,%o4; wr %o4,0,%y; sdiv %l1,%o2,%o5; xor %l2,%o5,%l2; smul %o5,%o2,%o5; sub %l1,%o5,%o5; add %l2,%o5,%l2;
/// deccc %l0; bne loop; nop; srl %l2,24,%o0; ta 2; srl %l2,16,%o0; ta 2; srl %l2,8,%o0; ta 2; mov %l2,%o0; ta 2; mov
/// 0,%o0; ta 0`
pub const MULTIPLY: [u32; 35] = [
    0x9DE3_BFA0,
    0xA010_2003,
    0xA210_2001,
    0xA410_2000,
    0x2710_7193,
    0xA614_E26D,
    0xA254_4013,
    0x9340_0000,
    0xA204_63F5,
    0xA41C_8009,
    0x9534_6010,
    0x9412_A001,
    0x8180_2000,
    0x9674_400A,
    0xA404_800B,
    0x993C_601F,
    0x8183_2000,
    0x9A7C_400A,
    0xA41C_800D,
    0x9A5B_400A,
    0x9A24_400D,
    0xA404_800D,
    0xA0A4_2001,
    0x12BF_FFEF,
    0x0100_0000,
    0x9134_A018,
    0x91D0_2002,
    0x9134_A010,
    0x91D0_2002,
    0x9134_A008,
    0x91D0_2002,
    0x9010_0012,
    0x91D0_2002,
    0x9010_2000,
    0x91D0_2000,
];

/// Puts out the CRC-32 of the input, by a table that it makes first.
///
/// `save %sp,-96,%sp; set 524288,%l0; set 0xEDB88320,%l4; mov 256,%l1; cellk: sub %l1,1,%l2; mov 8,%l3; bit: and
/// %l2,1,%o0; neg %o0; and %o0,%l4,%o0; srl %l2,1,%l2; deccc %l3; bne bit; xor %l2,%o0,%l2; deccc %l1; sll %l1,2,%o1;
/// bne cellk; st %l2,[%l0+%o1]; mov 4000,%l3; mov -1,%l2; next: ta 1; cmp %o0,-1; be fin; nop; xor %l2,%o0,%o1; and
/// %o1,255,%o1; sll %o1,2,%o1; ld [%l0+%o1],%o1; srl %l2,8,%l2; deccc %l3; bne next; xor %l2,%o1,%l2; fin: not %l2; srl
/// %l2,24,%o0; ta 2; srl %l2,16,%o0; ta 2; srl %l2,8,%o0; ta 2; mov %l2,%o0; ta 2; mov 0,%o0; ta 0`
pub const CHECKSUM: [u32; 43] = [
    0x9DE3_BFA0,
    0x2100_0200,
    0x293B_6E20,
    0xA815_2320,
    0xA210_2100,
    0xA424_6001,
    0xA610_2008,
    0x900C_A001,
    0x9020_0008,
    0x900A_0014,
    0xA534_A001,
    0xA6A4_E001,
    0x12BF_FFFB,
    0xA41C_8008,
    0xA2A4_6001,
    0x932C_6002,
    0x12BF_FFF5,
    0xE424_0009,
    0xA610_2FA0,
    0xA410_3FFF,
    0x91D0_2001,
    0x80A2_3FFF,
    0x0280_000A,
    0x0100_0000,
    0x921C_8008,
    0x920A_60FF,
    0x932A_6002,
    0xD204_0009,
    0xA534_A008,
    0xA6A4_E001,
    0x12BF_FFF6,
    0xA41C_8009,
    0xA43C_8000,
    0x9134_A018,
    0x91D0_2002,
    0x9134_A010,
    0x91D0_2002,
    0x9134_A008,
    0x91D0_2002,
    0x9010_0012,
    0x91D0_2002,
    0x9010_2000,
    0x91D0_2000,
];

/// Counts the numbers from 2 to 1023 that are no primes, by marking the multiples of each prime in the data; puts the
/// count out.
///
/// `save %sp,-96,%sp; set 524288,%l0; mov 1024,%l4; mov 0,%l2; mov %l4,%l3; clear: deccc %l3; bne clear; stb
/// %g0,[%l0+%l3]; mov 2,%l1; prime: ldub [%l0+%l1],%o0; tst %o0; bne nextp; nop; smul %l1,%l1,%l3; mov 1,%l5; mark: stb
/// %l5,[%l0+%l3]; add %l3,%l1,%l3; cmp %l3,%l4; bl mark; nop; nextp: inc %l1; cmp %l1,32; bl prime; nop; mov %l4,%l3;
/// mov 0,%l2; count: deccc %l3; ldub [%l0+%l3],%o0; bne count; add %l2,%o0,%l2; srl %l2,24,%o0; ta 2; srl %l2,16,%o0;
/// ta 2; srl %l2,8,%o0; ta 2; mov %l2,%o0; ta 2; mov 0,%o0; ta 0`
pub const SIEVE: [u32; 40] = [
    0x9DE3_BFA0,
    0x2100_0200,
    0xA810_2400,
    0xA410_2000,
    0xA610_0014,
    0xA6A4_E001,
    0x12BF_FFFF,
    0xC02C_0013,
    0xA210_2002,
    0xD00C_0011,
    0x8092_0000,
    0x1280_0009,
    0x0100_0000,
    0xA65C_4011,
    0xAA10_2001,
    0xEA2C_0013,
    0xA604_C011,
    0x80A4_C014,
    0x06BF_FFFD,
    0x0100_0000,
    0xA204_6001,
    0x80A4_6020,
    0x06BF_FFF3,
    0x0100_0000,
    0xA610_0014,
    0xA410_2000,
    0xA6A4_E001,
    0xD00C_0013,
    0x12BF_FFFE,
    0xA404_8008,
    0x9134_A018,
    0x91D0_2002,
    0x9134_A010,
    0x91D0_2002,
    0x9134_A008,
    0x91D0_2002,
    0x9010_0012,
    0x91D0_2002,
    0x9010_2000,
    0x91D0_2000,
];

/// What a chain does.
#[derive(Clone, Copy)]
pub enum Shape {
    /// The last function puts `!` out, and the first exits with 0.
    Plain,
    /// The same, and the first exits with the result that the second's RESTORE makes, 42.
    Result,
    /// Two rounds; each function passes a word on and adds 1 to what comes back. The first puts the last word out.
    Rounds,
    /// The same, and each function but the last passes a multiple of its word on, which sets the condition codes and Y.
    Products,
}

/// Two rounds of `call .+64; add %l2,%l0,%o0; mov %o0,%l2; deccc %l0; bne .-16; nop`, and then %l2 is put out.
const ROUNDS: [u32; 19] = [
    0x9DE3_BFA0,
    0xA010_2002,
    0xA410_2000,
    0x4000_0010,
    0x9004_8010,
    0xA410_0008,
    0xA0A4_2001,
    0x12BF_FFFC,
    0x0100_0000,
    0x9134_A018,
    0x91D0_2002,
    0x9134_A010,
    0x91D0_2002,
    0x9134_A008,
    0x91D0_2002,
    0x9010_0012,
    0x91D0_2002,
    0x9010_2000,
    0x91D0_2000,
];

/// The words of a chain's first function.
fn first_of(shape: Shape) -> &'static [u32] {
    match shape {
        // call .+16; nop; mov 0,%o0; ta 0
        Shape::Plain => &[SAVE, 0x4000_0004, NOP, 0x9010_2000, 0x91D0_2000],
        Shape::Result => &[SAVE, 0x4000_0003, NOP, 0x91D0_2000],
        Shape::Rounds | Shape::Products => &ROUNDS,
    }
}

/// The words of a chain's last function.
fn last_of(shape: Shape) -> &'static [u32] {
    match shape {
        // mov 33,%o0; ta 2; ret; restore
        Shape::Plain | Shape::Result => &[SAVE, 0x9010_2021, 0x91D0_2002, RET, RESTORE],
        // ret; restore %i0,1,%o0
        Shape::Rounds | Shape::Products => &[SAVE, RET, 0x91EE_2001],
    }
}

/// Puts the words of the function of a number between them.
fn put_link(words: &mut Vec<u32>, shape: Shape, number: u32) -> Result<(), AllocError>
    requires { number < 39 }
{
    match shape {
        // call .+20; nop; mov 41,%l0; ret; restore %l0,1,%o0
        Shape::Result if number == 1 => {
            words.extend_from_slice(&[SAVE, 0x4000_0005, NOP, 0xA010_2029, RET, 0x91EC_2001])
        }
        // call .+16; nop; ret; restore
        Shape::Plain | Shape::Result => {
            words.extend_from_slice(&[SAVE, 0x4000_0004, NOP, RET, RESTORE])
        }
        // call .+16; xor %i0,number,%o0; ret; restore %o0,1,%o0
        Shape::Rounds => words.extend_from_slice(&[
            SAVE,
            0x4000_0004,
            0x901E_2000 | number,
            RET,
            0x91EA_2001,
        ]),
        // call .+16; umulcc %i0,1001+2*number,%o0; ret; restore %o0,1,%o0
        Shape::Products => words.extend_from_slice(&[
            SAVE,
            0x4000_0004,
            0x90D6_2000 | (1001 + 2 * number),
            RET,
            0x91EA_2001,
        ]),
    }
}

/// Puts the words of a chain.
fn put_chain(words: &mut Vec<u32>, shape: Shape) -> Result<(), AllocError> {
    words.extend_from_slice(first_of(shape))?;
    for number in 1..39u32 {
        put_link(words, shape, number)?;
    }
    words.extend_from_slice(last_of(shape))
}

/// The words of a chain.
pub(crate) fn chain(alloc: Global, shape: Shape) -> Result<Vec<u32>, AllocError> {
    let mut words = Vec::new(alloc);
    put_chain(&mut words, shape)?;
    Ok(words)
}
