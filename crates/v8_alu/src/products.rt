// Products, shifts and the multiply step (appendix B, "Multiply Instructions", "Shift Instructions", "Multiply Step
// Instruction").
ghost use Rattle.std.specs.Prelude.{◌≡◌, ℕ, ◌+◌, ◌-◌, ◌*◌, ◌/◌, ◌%◌, ◌^◌, ◌<◌, ◌≤◌, ◌*ℤ◌};
ghost use Rattle.v8_alu.specs.Results.{high_word, low_word, shifted_left, shifted_right, shifted_right_signed, signed};
ghost use Rattle.v8_alu.specs.Results.{signed_product, step_addend, step_operand, step_y};

use crate::sums::signed;
use v8_word::Icc;

/// The product of two words.
pub fn unsigned_product(a: u32, b: u32) -> u64
    ensures { result ≡ a * b }
{
    u64::from(a) * u64::from(b)
}

/// Bits 31 to 0 of a product.
pub fn low_word(number: u64) -> u32
    ensures { result ≡ low_word number }
{
    (number & 0xffff_ffff) as u32
}

/// Bits 63 to 32 of a product.
pub fn high_word(number: u64) -> u32
    ensures { result ≡ high_word number }
{
    (number >> 32) as u32
}

fn exact_product(a: u32, b: u32) -> i64
    ensures { result ≡ signed a *ℤ signed b }
{
    signed(a) * signed(b)
}

/// The product of two signed words, modulo 2^64.
pub fn signed_product(a: u32, b: u32) -> u64
    ensures { result ≡ signed_product a b }
{
    exact_product(a, b).cast_unsigned()
}

/// SLL.
pub fn shift_left(a: u32, k: u32) -> u32
    ensures { result ≡ shifted_left a k }
{
    a << (k & 31)
}

/// SRL.
pub fn shift_right(a: u32, k: u32) -> u32
    ensures { result ≡ shifted_right a k }
{
    a >> (k & 31)
}

/// SRA.
pub fn shift_right_signed(a: u32, k: u32) -> u32
    ensures { result ≡ shifted_right_signed a k }
{
    (a.cast_signed() >> (k & 31)).cast_unsigned()
}

/// The multiply step's first operand: N xor V before bits 31 to 1 of `a`.
pub fn step_operand(a: u32, icc: Icc) -> u32
    ensures { result ≡ step_operand a icc }
{
    (u32::from(icc.n != icc.v) << 31) | (a >> 1)
}

/// The multiply step's second operand: `b` where Y's low bit is 1, else 0.
pub fn step_addend(b: u32, y: u32) -> u32
    ensures { result ≡ step_addend b y }
{
    if y & 1 == 1 { b } else { 0 }
}

/// Y after a multiply step: bit 0 of `a` before bits 31 to 1 of Y.
pub fn step_y(a: u32, y: u32) -> u32
    ensures { result ≡ step_y a y }
{
    ((a & 1) << 31) | (y >> 1)
}
