// Words of SPARC V8, their bit fields, and the small types that are read from them: registers, trap types, access
// sizes, conditions and condition codes (The SPARC Architecture Manual Version 8, chapters 4, 5 and 7, appendices B and
// F).
#![tactic(auto)]

ghost use Rattle.std.specs.Prelude.{◌≡◌, ℕ, ◌+◌, ◌-◌, ◌*◌, ◌/◌, ◌%◌, ◌^◌, ◌<◌, ◌≤◌, IfSome};
ghost use Rattle.std.specs.Option.{SomeIff};
ghost use Rattle.v8_word.specs.Word.{bits_of, flag_at, sign_extend};
ghost use Rattle.v8_word.specs.Conditions.{cond_number, cond_of, holds};
ghost use Rattle.v8_word.specs.Sizes.{bytes_in};

use std::marker::Model;

/// An integer register of the current window, by its number 0 to 31 (chapter 4, "IU r Registers"). Contracts see the
/// number.
#[derive(Clone, Copy, PartialEq, Eq)]
pub struct Reg {
    number: u8,
}

impl Model for Reg {
    ghost Value = { ℕ };

    ghost view = { λ r. r.number };

    ghost invariant = { λ r. r.number < 32 };

    ghost inverse = { λ n. record { number = n } };
}

impl Reg {
    /// %g0, which reads 0 and ignores writes.
    pub const G0: Reg = Reg { number: 0 };

    /// %sp, the stack pointer, which is %o6.
    pub const SP: Reg = Reg { number: 14 };

    /// %o7, in which CALL leaves its own address.
    pub const O7: Reg = Reg { number: 15 };

    /// %l1, in which a trap leaves PC.
    pub const L1: Reg = Reg { number: 17 };

    /// %l2, in which a trap leaves nPC.
    pub const L2: Reg = Reg { number: 18 };

    /// %fp, the frame pointer, which is %i6: the caller's %sp.
    pub const FP: Reg = Reg { number: 30 };

    /// %i7, the caller's %o7.
    pub const I7: Reg = Reg { number: 31 };

    /// The register of a number below 32; none of a greater one.
    pub fn new(number: u8) -> Option<Self>
        ensures { SomeIff result (number < 32) number }
    {
        if number < 32 {
            Some(Reg { number })
        } else {
            None
        }
    }

    /// The number, 0 to 31: globals from 0, outs from 8, locals from 16, ins from 24.
    pub fn number(self) -> u8
        ensures value { result ≡ self }
        ensures bound { result < 32 }
    {
        self.number
    }
}

/// The type of a trap, the number that the field tt of TBR shows (chapter 7, table 7-1). Contracts see the number.
#[derive(Clone, Copy, PartialEq, Eq)]
pub struct TrapType {
    number: u8,
}

impl Model for TrapType {
    ghost Value = { ℕ };

    ghost view = { λ t. t.number };

    ghost inverse = { λ n. record { number = n } };
}

impl TrapType {
    /// A fetch was refused or unanswered.
    pub const INSTRUCTION_ACCESS_EXCEPTION: TrapType = TrapType { number: 0x01 };

    /// The word is UNIMP, or no instruction of this machine.
    pub const ILLEGAL_INSTRUCTION: TrapType = TrapType { number: 0x02 };

    /// User code asked for what only supervisor code may do.
    pub const PRIVILEGED_INSTRUCTION: TrapType = TrapType { number: 0x03 };

    /// A floating-point instruction, for which there is no unit.
    pub const FP_DISABLED: TrapType = TrapType { number: 0x04 };

    /// SAVE met the invalid window.
    pub const WINDOW_OVERFLOW: TrapType = TrapType { number: 0x05 };

    /// RESTORE or RETT met the invalid window.
    pub const WINDOW_UNDERFLOW: TrapType = TrapType { number: 0x06 };

    /// The address of an access or a jump is no multiple of what it has to be.
    pub const MEM_ADDRESS_NOT_ALIGNED: TrapType = TrapType { number: 0x07 };

    /// A load or a store was refused or unanswered.
    pub const DATA_ACCESS_EXCEPTION: TrapType = TrapType { number: 0x09 };

    /// TADDccTV or TSUBccTV would set the overflow flag.
    pub const TAG_OVERFLOW: TrapType = TrapType { number: 0x0a };

    /// A coprocessor instruction, for which there is no unit.
    pub const CP_DISABLED: TrapType = TrapType { number: 0x24 };

    /// The divisor is 0.
    pub const DIVISION_BY_ZERO: TrapType = TrapType { number: 0x2a };

    /// The trap type of a number, 0 to 255.
    pub const fn new(number: u8) -> Self
        ensures { result ≡ number }
    {
        TrapType { number }
    }

    /// The number, 0 to 255.
    pub fn number(self) -> u8
        ensures value { result ≡ self }
        ensures bound { result < 2 ^ 8 }
    {
        self.number
    }
}

/// How many bytes an access moves: 1, 2, 4 or 8 (chapter 5).
#[derive(Clone, Copy, PartialEq, Eq)]
pub enum Size {
    Byte,
    Half,
    Word,
    Double,
}

/// How many bytes a number of this size has.
pub fn bytes_in(size: Size) -> u32
    ensures value { result ≡ bytes_in size }
    ensures some { 0 < result }
{
    match size {
        Size::Byte => 1,
        Size::Half => 2,
        Size::Word => 4,
        Size::Double => 8,
    }
}

/// The `width` bits of a word from bit `low` up, as a number. Bits that lie above bit 31 are 0.
pub fn bits_of(word: u32, low: u32, width: u32) -> u32
    requires low_in { low < 32 }
    requires width_in { width < 32 }
    ensures value { result ≡ bits_of word low width }
    ensures bound { result < 2 ^ width }
{
    (word >> low) & ((1 << width) - 1)
}

/// The register whose number stands in the five bits from bit `low` up: rd from 25, rs1 from 14, rs2 from 0 (appendix
/// F).
pub fn reg_at(word: u32, low: u32) -> Reg
    requires { low < 32 }
    ensures { result ≡ bits_of word low 5 }
{
    Reg {
        number: bits_of(word, low, 5) as u8,
    }
}

/// The field simm13: bits 12 to 0 as a signed number, written as a word (chapter 5, "Instruction Formats").
pub fn simm13(word: u32) -> u32
    ensures { result ≡ sign_extend 13 (word % 2 ^ 13) }
{
    let field = word & 0x1fff;
    if field < 0x1000 {
        field
    } else {
        field | 0xffff_e000
    }
}

/// Whether bit `low` of a word is 1.
pub fn flag_at(word: u32, low: u32) -> bool
    requires { low < 32 }
    ensures { result ≡ flag_at word low }
{
    (word >> low) & 1 == 1
}

/// A condition of a branch or a trap on the integer condition codes, in the order of their numbers (appendix F,
/// "Condition Codes").
#[derive(Clone, Copy, PartialEq, Eq, Debug)]
pub enum Cond {
    Never,
    Equal,
    LessOrEqual,
    Less,
    LessOrEqualUnsigned,
    CarrySet,
    Negative,
    OverflowSet,
    Always,
    NotEqual,
    Greater,
    GreaterOrEqual,
    GreaterUnsigned,
    CarryClear,
    Positive,
    OverflowClear,
}

/// The integer condition codes of PSR: negative, zero, overflow, carry (chapter 4, "Processor State Register").
#[derive(Clone, Copy, PartialEq, Eq, Default)]
pub struct Icc {
    pub n: bool,
    pub z: bool,
    pub v: bool,
    pub c: bool,
}

/// The condition whose number stands in the field cond, bits 28 to 25 (appendix B, "Branch on Integer Condition
/// Codes").
pub fn cond_at(word: u32) -> Cond
    ensures { result ≡ cond_of (bits_of word 25 4) }
{
    match bits_of(word, 25, 4) {
        0 => Cond::Never,
        1 => Cond::Equal,
        2 => Cond::LessOrEqual,
        3 => Cond::Less,
        4 => Cond::LessOrEqualUnsigned,
        5 => Cond::CarrySet,
        6 => Cond::Negative,
        7 => Cond::OverflowSet,
        8 => Cond::Always,
        9 => Cond::NotEqual,
        10 => Cond::Greater,
        11 => Cond::GreaterOrEqual,
        12 => Cond::GreaterUnsigned,
        13 => Cond::CarryClear,
        14 => Cond::Positive,
        _ => Cond::OverflowClear,
    }
}

impl Cond {
    /// The number of the condition, 0 to 15, as the field cond has it.
    pub fn code(self) -> u8
        ensures value { result ≡ cond_number self }
        ensures bound { result < 16 }
    {
        self as u8
    }

    /// Whether the condition holds of these codes (appendix B, "Branch on Integer Condition Codes").
    pub fn holds(self, icc: Icc) -> bool
        ensures { result ≡ holds self icc }
    {
        match self {
            Cond::Never => false,
            Cond::Equal => icc.z,
            Cond::LessOrEqual => icc.z || (icc.n != icc.v),
            Cond::Less => icc.n != icc.v,
            Cond::LessOrEqualUnsigned => icc.c || icc.z,
            Cond::CarrySet => icc.c,
            Cond::Negative => icc.n,
            Cond::OverflowSet => icc.v,
            Cond::Always => true,
            Cond::NotEqual => !icc.z,
            Cond::Greater => !(icc.z || (icc.n != icc.v)),
            Cond::GreaterOrEqual => icc.n == icc.v,
            Cond::GreaterUnsigned => !(icc.c || icc.z),
            Cond::CarryClear => !icc.c,
            Cond::Positive => !icc.n,
            Cond::OverflowClear => !icc.v,
        }
    }
}
