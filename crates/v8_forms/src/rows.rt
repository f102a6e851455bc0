// The forms of statements, and the suffixes of conditions.
ghost use Rattle.std.specs.Prelude.{[], ◌<◌, ◌≡◌, ◌≤◌, get_or, length, map};
ghost use Rattle.v8_forms.specs.Forms.{form_of, forms, natives, suffixes};

use crate::part::{Field, Part, Range};

/// A name, the operands behind it, and the word that these are filled into. Behind a conditional name stands the suffix
/// of a condition, whose number stands at bit 25.
#[derive(Clone, Copy)]
pub struct Row {
    pub name: &'static str,
    pub conditional: bool,
    pub parts: &'static [Part],
    pub word: u32,
}

const RD: Part = Part::Register(Field::Rd);

const RS1: Part = Part::Register(Field::Rs1);

const RS2: Part = Part::Register(Field::Rs2);

const RS1_RD: Part = Part::Register(Field::Rs1AndRd);

const RS2_RD: Part = Part::Register(Field::Rs2AndRd);

const SECOND: Part = Part::Second(Range::Signed);

const COUNT: Part = Part::Second(Range::Count);

const ADDRESS: Part = Part::Address(Range::Signed);

const TRAP: Part = Part::Address(Range::Trap);

const SOFTWARE: Part = Part::Number(Range::Trap);

const HIGH: Part = Part::Number(Range::High);

const NUMBER: Part = Part::Number(Range::Signed);

const MEMORY: Part = Part::Memory;

const ELSEWHERE: Part = Part::Elsewhere;

const STATE: Part = Part::State;

const CALL: Part = Part::Call;

const BRANCH: Part = Part::Branch;

macro_rules! rows {
    ($($kind:ident $name:literal [$($part:expr),*] $word:literal;)*) => {
        [$(Row { name: $name, conditional: conditional!($kind), parts: &[$($part),*], word: $word }),*]
    };
}

macro_rules! conditional {
    (form) => {
        false
    };
    (by_condition) => {
        true
    };
}

/// How many forms are instructions: these come first.
const NATIVE: usize = 74;

static ROWS: [Row; 111] = rows! {
    form "add" [RS1, SECOND, RD] 0x8000_0000;
    form "and" [RS1, SECOND, RD] 0x8008_0000;
    form "or" [RS1, SECOND, RD] 0x8010_0000;
    form "xor" [RS1, SECOND, RD] 0x8018_0000;
    form "sub" [RS1, SECOND, RD] 0x8020_0000;
    form "andn" [RS1, SECOND, RD] 0x8028_0000;
    form "orn" [RS1, SECOND, RD] 0x8030_0000;
    form "xnor" [RS1, SECOND, RD] 0x8038_0000;
    form "addx" [RS1, SECOND, RD] 0x8040_0000;
    form "umul" [RS1, SECOND, RD] 0x8050_0000;
    form "smul" [RS1, SECOND, RD] 0x8058_0000;
    form "subx" [RS1, SECOND, RD] 0x8060_0000;
    form "udiv" [RS1, SECOND, RD] 0x8070_0000;
    form "sdiv" [RS1, SECOND, RD] 0x8078_0000;
    form "addcc" [RS1, SECOND, RD] 0x8080_0000;
    form "andcc" [RS1, SECOND, RD] 0x8088_0000;
    form "orcc" [RS1, SECOND, RD] 0x8090_0000;
    form "xorcc" [RS1, SECOND, RD] 0x8098_0000;
    form "subcc" [RS1, SECOND, RD] 0x80A0_0000;
    form "andncc" [RS1, SECOND, RD] 0x80A8_0000;
    form "orncc" [RS1, SECOND, RD] 0x80B0_0000;
    form "xnorcc" [RS1, SECOND, RD] 0x80B8_0000;
    form "addxcc" [RS1, SECOND, RD] 0x80C0_0000;
    form "umulcc" [RS1, SECOND, RD] 0x80D0_0000;
    form "smulcc" [RS1, SECOND, RD] 0x80D8_0000;
    form "subxcc" [RS1, SECOND, RD] 0x80E0_0000;
    form "udivcc" [RS1, SECOND, RD] 0x80F0_0000;
    form "sdivcc" [RS1, SECOND, RD] 0x80F8_0000;
    form "taddcc" [RS1, SECOND, RD] 0x8100_0000;
    form "tsubcc" [RS1, SECOND, RD] 0x8108_0000;
    form "taddcctv" [RS1, SECOND, RD] 0x8110_0000;
    form "tsubcctv" [RS1, SECOND, RD] 0x8118_0000;
    form "mulscc" [RS1, SECOND, RD] 0x8120_0000;
    form "sll" [RS1, COUNT, RD] 0x8128_0000;
    form "srl" [RS1, COUNT, RD] 0x8130_0000;
    form "sra" [RS1, COUNT, RD] 0x8138_0000;
    form "save" [RS1, SECOND, RD] 0x81E0_0000;
    form "restore" [RS1, SECOND, RD] 0x81E8_0000;
    form "ld" [MEMORY, RD] 0xC000_0000;
    form "ldub" [MEMORY, RD] 0xC008_0000;
    form "lduh" [MEMORY, RD] 0xC010_0000;
    form "ldd" [MEMORY, RD] 0xC018_0000;
    form "ldsb" [MEMORY, RD] 0xC048_0000;
    form "ldsh" [MEMORY, RD] 0xC050_0000;
    form "ldstub" [MEMORY, RD] 0xC068_0000;
    form "swap" [MEMORY, RD] 0xC078_0000;
    form "st" [RD, MEMORY] 0xC020_0000;
    form "stb" [RD, MEMORY] 0xC028_0000;
    form "sth" [RD, MEMORY] 0xC030_0000;
    form "std" [RD, MEMORY] 0xC038_0000;
    form "lda" [ELSEWHERE, RD] 0xC080_0000;
    form "lduba" [ELSEWHERE, RD] 0xC088_0000;
    form "lduha" [ELSEWHERE, RD] 0xC090_0000;
    form "ldda" [ELSEWHERE, RD] 0xC098_0000;
    form "ldsba" [ELSEWHERE, RD] 0xC0C8_0000;
    form "ldsha" [ELSEWHERE, RD] 0xC0D0_0000;
    form "ldstuba" [ELSEWHERE, RD] 0xC0E8_0000;
    form "swapa" [ELSEWHERE, RD] 0xC0F8_0000;
    form "sta" [RD, ELSEWHERE] 0xC0A0_0000;
    form "stba" [RD, ELSEWHERE] 0xC0A8_0000;
    form "stha" [RD, ELSEWHERE] 0xC0B0_0000;
    form "stda" [RD, ELSEWHERE] 0xC0B8_0000;
    form "rd" [STATE, RD] 0x8140_0000;
    form "wr" [RS1, SECOND, STATE] 0x8180_0000;
    form "jmpl" [ADDRESS, RD] 0x81C0_0000;
    form "rett" [ADDRESS] 0x81C8_0000;
    form "flush" [ADDRESS] 0x81D8_0000;
    form "call" [CALL] 0x4000_0000;
    form "sethi" [HIGH, RD] 0x0100_0000;
    form "unimp" [HIGH] 0x0000_0000;
    form "stbar" [] 0x8143_C000;
    by_condition "b" [BRANCH] 0x0080_0000;
    by_condition "t" [SOFTWARE] 0x81D0_2000;
    by_condition "t" [TRAP] 0x81D0_0000;
    form "b" [BRANCH] 0x1080_0000;
    form "bz" [BRANCH] 0x0280_0000;
    form "bnz" [BRANCH] 0x1280_0000;
    form "blu" [BRANCH] 0x0A80_0000;
    form "bgeu" [BRANCH] 0x1A80_0000;
    form "cmp" [RS1, SECOND] 0x80A0_0000;
    form "jmp" [ADDRESS] 0x81C0_0000;
    form "call" [ADDRESS] 0x9FC0_0000;
    form "tst" [RS2] 0x8090_0000;
    form "ret" [] 0x81C7_E008;
    form "retl" [] 0x81C3_E008;
    form "save" [] 0x81E0_0000;
    form "restore" [] 0x81E8_0000;
    form "not" [RS1, RD] 0x8038_0000;
    form "not" [RS1_RD] 0x8038_0000;
    form "neg" [RS2, RD] 0x8020_0000;
    form "neg" [RS2_RD] 0x8020_0000;
    form "inc" [RS1_RD] 0x8000_2001;
    form "inc" [NUMBER, RS1_RD] 0x8000_2000;
    form "inccc" [RS1_RD] 0x8080_2001;
    form "inccc" [NUMBER, RS1_RD] 0x8080_2000;
    form "dec" [RS1_RD] 0x8020_2001;
    form "dec" [NUMBER, RS1_RD] 0x8020_2000;
    form "deccc" [RS1_RD] 0x80A0_2001;
    form "deccc" [NUMBER, RS1_RD] 0x80A0_2000;
    form "btst" [SECOND, RS1] 0x8088_0000;
    form "bset" [SECOND, RS1_RD] 0x8010_0000;
    form "bclr" [SECOND, RS1_RD] 0x8028_0000;
    form "btog" [SECOND, RS1_RD] 0x8018_0000;
    form "clr" [RD] 0x8010_0000;
    form "clr" [MEMORY] 0xC020_0000;
    form "clrb" [MEMORY] 0xC028_0000;
    form "clrh" [MEMORY] 0xC030_0000;
    form "mov" [SECOND, RD] 0x8010_0000;
    form "mov" [STATE, RD] 0x8140_0000;
    form "mov" [SECOND, STATE] 0x8180_0000;
    form "nop" [] 0x0100_0000;
};

static SUFFIXES: [&str; 16] = [
    "n", "e", "le", "l", "leu", "cs", "neg", "vs", "a", "ne", "g", "ge", "gu", "cc", "pos", "vc",
];

/// All forms.
#[tactic(auto, unfolding(crate::specs::Forms::natives, crate::specs::Forms::synthetics))]
pub fn forms() -> &'static [Row]
    ensures { map form_of result.now ≡ forms }
{
    &ROWS
}

/// The forms of instructions.
pub fn natives() -> &'static [Row]
    ensures { map form_of result.now ≡ natives }
{
    &forms()[..NATIVE]
}

/// The suffixes of the conditions, by their numbers.
pub fn suffixes() -> &'static [&'static str]
    ensures { map (λ s. s.now) result.now ≡ suffixes }
{
    &SUFFIXES
}

/// The suffix of a condition.
pub fn suffix(condition: u32) -> &'static str
    requires { condition < 16 }
    ensures text { result.now ≡ get_or suffixes condition [] }
    ensures short { length result.now ≤ 3 }
{
    SUFFIXES[condition as usize]
}
