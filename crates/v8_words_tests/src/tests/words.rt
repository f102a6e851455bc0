// Fields of the manual's formats, and its table of conditions (appendix B, "Branch on Integer Condition Codes").
ghost use Rattle.std.specs.Prelude.{◌<◌};

use super::icc_of;
use v8_word::{Cond, Reg, TrapType, bits_of, cond_at, flag_at, reg_at, simm13};

/// Whether there is a register of the last number, and none past it.
fn are_registers() -> bool {
    Reg::new(31) == Some(Reg::I7) && Reg::new(32).is_none() && Reg::FP.number() == 30
}

/// Whether trap types have their numbers.
fn are_trap_types() -> bool {
    TrapType::new(5) == TrapType::WINDOW_OVERFLOW && TrapType::DIVISION_BY_ZERO.number() == 0x2a
}

#[test]
fn registers_and_trap_types(rt: HostRuntime) {
    assert!(rt; are_registers() && are_trap_types());
}

/// Whether a word has the fields of `save %sp,-96,%sp`.
fn is_save(word: u32) -> bool {
    bits_of(word, 19, 6) == 0x3c
        && reg_at(word, 25) == Reg::SP
        && reg_at(word, 14) == Reg::SP
        && flag_at(word, 13)
        && !flag_at(word, 14)
        && simm13(word) == 0xffff_ffa0
}

#[test]
fn fields_of_a_word(rt: HostRuntime) {
    assert!(rt; is_save(0x9de3_bfa0) && simm13(0x0fff) == 0x0fff);
}

/// Whether a condition holds of the codes whose bits are 1, and of no other: bit NZVC of the number.
fn holds_of(cond: Cond, codes: u32) -> bool {
    let mut agrees = true;
    for digit in 0u8..16 {
        agrees &= cond.holds(icc_of(digit)) == (codes >> digit & 1 == 1);
    }
    agrees
}

/// Whether the condition of a number has that number, and holds of these codes.
fn is_condition(number: u32, codes: u32) -> bool {
    let cond = cond_at(number << 25);
    u32::from(cond.code()) == number && holds_of(cond, codes)
}

/// Of conditions 0 to 7 the codes for which each holds. Conditions 8 to 15 hold for the others.
const HELD: [u32; 8] = [0, 0xf0f0, 0xf3fc, 0x33cc, 0xfafa, 0xaaaa, 0xff00, 0xcccc];

/// Whether a condition and its opposite hold of the codes that are told.
fn are_conditions(number: u32) -> bool
    requires { number < 8 }
{
    let codes = HELD[number as usize];
    is_condition(number, codes) && is_condition(number | 8, !codes)
}

#[test]
fn conditions(rt: HostRuntime) {
    for number in 0u32..8 {
        assert!(rt; are_conditions(number), "{number}");
    }
}
