// The instruction formats of SPARC V8: the decoder and the encoder (appendices B and F).
#![tactic(auto)]

ghost use Rattle.std.specs.Prelude.{◌≡◌, ◌≢◌, ℕ, ◌+◌, ◌-◌, ◌*◌, ◌/◌, ◌%◌, ◌^◌, ◌<◌, ◌≤◌, IsTrue, ◌↔◌, IfSome};
ghost use Rattle.v8_word.specs.Word.{bits_of, sign_extend};
ghost use Rattle.v8_formats.specs.Spelling.{spelling};
ghost use Rattle.v8_formats.specs.Table.{meaning, table, IsCanonical, AreApart};

mod encoding;
mod fields;
mod instr;

pub use encoding::encode;
use fields::alternate_of;
pub use fields::{branch_of, displacement30, shift_of, three_of, trap_of, two_of, upper_of};
pub use instr::{Alternate, AlternateOperand, Branch, Instr, Operand, Three, Trap, Two, Upper};
use v8_word::reg_at;
pub use v8_word::{Cond, Icc, Reg, Size, TrapType, bits_of, bytes_in};

/// The instruction of a minor opcode, else an undefined word.
macro_rules! by_opcode {
    ($opcode:expr, $word:expr; $($code:literal => $name:ident $(($fields:expr))?),* $(,)?) => {
        match $opcode {
            $($code => Instr::$name $(($fields))?,)*
            _ => Instr::Undefined($word),
        }
    };
}

#[tactic(auto, using(crate::proofs::Rows::plain_rows))]
fn plain(word: u32) -> Instr
    requires major { word / 2 ^ 30 ≡ 2 }
    requires high { bits_of word 23 2 ≡ 0 }
    ensures { result ≡ meaning word }
{
    let fields = three_of(word);
    by_opcode! {
        bits_of(word, 19, 4), word;
        0x0 => Add(fields),
        0x1 => And(fields),
        0x2 => Or(fields),
        0x3 => Xor(fields),
        0x4 => Sub(fields),
        0x5 => Andn(fields),
        0x6 => Orn(fields),
        0x7 => Xnor(fields),
        0x8 => Addx(fields),
        0xa => Umul(fields),
        0xb => Smul(fields),
        0xc => Subx(fields),
        0xe => Udiv(fields),
        0xf => Sdiv(fields),
    }
}

#[tactic(auto, using(crate::proofs::Rows::cc_rows))]
fn plain_cc(word: u32) -> Instr
    requires major { word / 2 ^ 30 ≡ 2 }
    requires high { bits_of word 23 2 ≡ 1 }
    ensures { result ≡ meaning word }
{
    let fields = three_of(word);
    by_opcode! {
        bits_of(word, 19, 4), word;
        0x0 => AddCc(fields),
        0x1 => AndCc(fields),
        0x2 => OrCc(fields),
        0x3 => XorCc(fields),
        0x4 => SubCc(fields),
        0x5 => AndnCc(fields),
        0x6 => OrnCc(fields),
        0x7 => XnorCc(fields),
        0x8 => AddxCc(fields),
        0xa => UmulCc(fields),
        0xb => SmulCc(fields),
        0xc => SubxCc(fields),
        0xe => UdivCc(fields),
        0xf => SdivCc(fields),
    }
}

#[tactic(auto, using(crate::proofs::Rows::tagged_rows))]
fn tagged_and_state(word: u32) -> Instr
    requires other { bits_of word 19 6 ≢ 40 }
    requires major { word / 2 ^ 30 ≡ 2 }
    requires high { bits_of word 23 2 ≡ 2 }
    ensures { result ≡ meaning word }
{
    let fields = three_of(word);
    by_opcode! {
        bits_of(word, 19, 4), word;
        0x0 => TaddCc(fields),
        0x1 => TsubCc(fields),
        0x2 => TaddCcTv(fields),
        0x3 => TsubCcTv(fields),
        0x4 => MulsCc(fields),
        0x5 => Sll(shift_of(word)),
        0x6 => Srl(shift_of(word)),
        0x7 => Sra(shift_of(word)),
        0x9 => ReadPsr(reg_at(word, 25)),
        0xa => ReadWim(reg_at(word, 25)),
        0xb => ReadTbr(reg_at(word, 25)),
    }
}

#[tactic(auto, using(crate::proofs::Rows::control_rows))]
fn write_and_control(word: u32) -> Instr
    requires other { bits_of word 19 6 ≢ 48 }
    requires major { word / 2 ^ 30 ≡ 2 }
    requires high { bits_of word 23 2 ≡ 3 }
    ensures { result ≡ meaning word }
{
    let fields = three_of(word);
    by_opcode! {
        bits_of(word, 19, 4), word;
        0x1 => WritePsr(two_of(word)),
        0x2 => WriteWim(two_of(word)),
        0x3 => WriteTbr(two_of(word)),
        0x4 => FpOperate(word),
        0x5 => FpOperate(word),
        0x6 => CpOperate(word),
        0x7 => CpOperate(word),
        0x8 => Jmpl(fields),
        0x9 => Rett(two_of(word)),
        0xa => Ticc(trap_of(word)),
        0xb => Flush(two_of(word)),
        0xc => Save(fields),
        0xd => Restore(fields),
    }
}

#[tactic(auto, using(crate::proofs::Rows::memory_rows))]
fn memory(word: u32) -> Instr
    requires major { word / 2 ^ 30 ≡ 3 }
    requires high { bits_of word 23 2 ≡ 0 }
    ensures { result ≡ meaning word }
{
    let fields = three_of(word);
    by_opcode! {
        bits_of(word, 19, 4), word;
        0x0 => Load(fields),
        0x1 => LoadUnsignedByte(fields),
        0x2 => LoadUnsignedHalf(fields),
        0x3 => LoadDouble(fields),
        0x4 => Store(fields),
        0x5 => StoreByte(fields),
        0x6 => StoreHalf(fields),
        0x7 => StoreDouble(fields),
        0x9 => LoadSignedByte(fields),
        0xa => LoadSignedHalf(fields),
        0xd => LoadStoreUnsignedByte(fields),
        0xf => Swap(fields),
    }
}

#[tactic(auto, using(crate::proofs::Rows::alternate_rows))]
fn memory_alternate(word: u32) -> Instr
    requires major { word / 2 ^ 30 ≡ 3 }
    requires high { bits_of word 23 2 ≡ 1 }
    ensures { result ≡ meaning word }
{
    by_opcode! {
        bits_of(word, 19, 4), word;
        0x0 => LoadAlternate(alternate_of(word)),
        0x1 => LoadUnsignedByteAlternate(alternate_of(word)),
        0x2 => LoadUnsignedHalfAlternate(alternate_of(word)),
        0x3 => LoadDoubleAlternate(alternate_of(word)),
        0x4 => StoreAlternate(alternate_of(word)),
        0x5 => StoreByteAlternate(alternate_of(word)),
        0x6 => StoreHalfAlternate(alternate_of(word)),
        0x7 => StoreDoubleAlternate(alternate_of(word)),
        0x9 => LoadSignedByteAlternate(alternate_of(word)),
        0xa => LoadSignedHalfAlternate(alternate_of(word)),
        0xd => LoadStoreUnsignedByteAlternate(alternate_of(word)),
        0xf => SwapAlternate(alternate_of(word)),
    }
}

/// The instruction of minor opcode 0x28, which the first operand's register tells apart.
#[tactic(auto, using(crate::proofs::Rows::read_rows))]
fn read_y(word: u32) -> Instr
    requires major { word / 2 ^ 30 ≡ 2 }
    requires minor { bits_of word 19 6 ≡ 40 }
    ensures { result ≡ meaning word }
{
    match bits_of(word, 14, 5) {
        0 => Instr::ReadY(reg_at(word, 25)),
        15 => {
            if bits_of(word, 25, 5) == 0 {
                Instr::Stbar
            } else {
                Instr::Undefined(word)
            }
        }
        _ => Instr::Undefined(word),
    }
}

/// The instruction of minor opcode 0x30.
#[tactic(auto, using(crate::proofs::Rows::write_rows))]
fn write_y(word: u32) -> Instr
    requires major { word / 2 ^ 30 ≡ 2 }
    requires minor { bits_of word 19 6 ≡ 48 }
    ensures { result ≡ meaning word }
{
    if bits_of(word, 25, 5) == 0 {
        Instr::WriteY(two_of(word))
    } else {
        Instr::Undefined(word)
    }
}

/// The instruction of major opcode 0.
#[tactic(auto, using(crate::proofs::Rows::branch_rows))]
fn branch(word: u32) -> Instr
    requires { word / 2 ^ 30 ≡ 0 }
    ensures { result ≡ meaning word }
{
    by_opcode! {
        bits_of(word, 22, 3), word;
        0 => Unimp(bits_of(word, 0, 22)),
        2 => Bicc(branch_of(word)),
        4 => Sethi(upper_of(word)),
        6 => FpBranch(word),
        7 => CpBranch(word),
    }
}

/// The instruction of major opcode 2.
fn operation(word: u32) -> Instr
    requires { word / 2 ^ 30 ≡ 2 }
    ensures { result ≡ meaning word }
{
    match bits_of(word, 19, 6) {
        0x28 => read_y(word),
        0x30 => write_y(word),
        _ => match bits_of(word, 23, 2) {
            0 => plain(word),
            1 => plain_cc(word),
            2 => tagged_and_state(word),
            _ => write_and_control(word),
        },
    }
}

/// The instruction of major opcode 3.
#[tactic(auto, using(crate::proofs::Rows::group_rows))]
fn transfer(word: u32) -> Instr
    requires { word / 2 ^ 30 ≡ 3 }
    ensures { result ≡ meaning word }
{
    match bits_of(word, 22, 3) {
        0 | 1 => memory(word),
        2 | 3 => memory_alternate(word),
        4 => Instr::FpMemory(word),
        6 => Instr::CpMemory(word),
        _ => Instr::Undefined(word),
    }
}

/// What a word means.
#[tactic(auto, using(crate::proofs::Rows::call_rows))]
#[inline(always)]
fn decoded(word: u32) -> Instr
    ensures { result ≡ meaning word }
{
    match word >> 30 {
        0 => branch(word),
        1 => Instr::Call(displacement30(word)),
        2 => operation(word),
        _ => transfer(word),
    }
}

/// The instruction of a word, by the format table (appendix F): `Undefined` of a word that no row has. Unused bits are
/// ignored.
#[inline(always)]
pub fn decode(word: u32) -> Instr
    ensures value { result ≡ meaning word }
    ensures round_trip { meaning (spelling result) ≡ result }
{
    decoded(word)
}

/// Whether a word is spelled as its instruction is: all its unused bits are 0. Every other word decodes as the
/// canonical one.
pub fn is_canonical(word: u32) -> bool
    ensures same { IsTrue result ↔ (spelling (meaning word) ≡ word) }
    ensures unused { IsTrue result ↔ IsCanonical word }
{
    encode(&decode(word)) == word
}

/// The law that no word matches two rows of the format table.
pub fn rows_are_apart()
    ensures { AreApart table }
{}
