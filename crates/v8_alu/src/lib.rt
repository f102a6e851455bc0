// The results of SPARC V8's integer instructions: value, condition codes and Y (appendices B and C).
#![tactic(auto)]

ghost use Rattle.std.specs.Prelude.{◌≡◌, ℕ, ◌+◌, ◌-◌, ◌*◌, ◌/◌, ◌%◌, ◌^◌, ◌<◌, ◌≤◌};
ghost use Rattle.v8_alu.specs.Outcomes.{divided, division_of, logic_codes, out, outcome, tagged_codes, tagged_outcome};
ghost use Rattle.v8_alu.specs.Results.{high_word, low_word};

mod products;
mod quotients;
mod sums;

use products::{
    high_word, low_word, shift_left, shift_right, shift_right_signed, signed_product, step_addend,
    step_operand, step_y, unsigned_product,
};
use quotients::{signed_quotient, unsigned_quotient};
use sums::{add, codes, subtract, tagged_codes};
pub use v8_word::{Cond, Icc};

/// An operation that has a result for all operands, by the names of appendix B. `Cc` sets the condition codes.
#[derive(Clone, Copy)]
pub enum Op {
    Add,
    AddCc,
    Addx,
    AddxCc,
    Sub,
    SubCc,
    Subx,
    SubxCc,
    And,
    AndCc,
    Andn,
    AndnCc,
    Or,
    OrCc,
    Orn,
    OrnCc,
    Xor,
    XorCc,
    Xnor,
    XnorCc,
    Sll,
    Srl,
    Sra,
    Umul,
    UmulCc,
    Smul,
    SmulCc,
    TaddCc,
    TsubCc,
    MulsCc,
}

/// A result: the word for the destination, and the condition codes and Y after the operation.
#[derive(Clone, Copy, PartialEq, Eq)]
pub struct AluOut {
    pub value: u32,
    pub icc: Icc,
    pub y: u32,
}

/// A value beside codes and Y that stay, or are given.
fn plain(value: u32, icc: Icc, y: u32) -> AluOut
    ensures { result ≡ out value icc y }
{
    AluOut { value, icc, y }
}

/// A sum or a difference with its codes.
fn with_both(both: (u32, Icc), y: u32) -> AluOut
    ensures { result ≡ out both.0 both.1 y }
{
    plain(both.0, both.1, y)
}

/// A value with the codes of a logical operation, V and C clear.
fn with_codes(value: u32, y: u32) -> AluOut
    ensures { result ≡ out value (logic_codes value) y }
{
    AluOut {
        value,
        icc: codes(value, false, false),
        y,
    }
}

/// A product's low word, and its high word as Y.
fn with_product(product: u64, icc: Icc) -> AluOut
    ensures { result ≡ out (low_word product) icc (high_word product) }
{
    plain(low_word(product), icc, high_word(product))
}

/// The same with the codes of the low word.
fn with_product_codes(product: u64) -> AluOut
    ensures { result ≡ out (low_word product) (logic_codes (low_word product)) (high_word product) }
{
    with_codes(low_word(product), high_word(product))
}

/// A sum or a difference whose overflow also tells of tags.
fn tagged(both: (u32, Icc), a: u32, b: u32) -> (u32, Icc)
    ensures value { result.0 ≡ both.0 }
    ensures codes { result.1 ≡ tagged_codes a b both.1 }
{
    (both.0, tagged_codes(a, b, both.1))
}

/// What an operation on `a` and `b` gives, by the condition codes and Y before it. Codes and Y that it leaves alone are
/// given as they were (appendix B).
#[tactic(auto, unfolding(crate::specs::Outcomes::outcome))]
#[inline(always)]
pub fn alu(op: Op, a: u32, b: u32, icc: Icc, y: u32) -> AluOut
    ensures { result ≡ outcome op a b icc y }
{
    match op {
        Op::Add => plain(add(a, b, false).0, icc, y),
        Op::AddCc => with_both(add(a, b, false), y),
        Op::Addx => plain(add(a, b, icc.c).0, icc, y),
        Op::AddxCc => with_both(add(a, b, icc.c), y),
        Op::Sub => plain(subtract(a, b, false).0, icc, y),
        Op::SubCc => with_both(subtract(a, b, false), y),
        Op::Subx => plain(subtract(a, b, icc.c).0, icc, y),
        Op::SubxCc => with_both(subtract(a, b, icc.c), y),
        Op::And => plain(a & b, icc, y),
        Op::AndCc => with_codes(a & b, y),
        Op::Andn => plain(a & !b, icc, y),
        Op::AndnCc => with_codes(a & !b, y),
        Op::Or => plain(a | b, icc, y),
        Op::OrCc => with_codes(a | b, y),
        Op::Orn => plain(a | !b, icc, y),
        Op::OrnCc => with_codes(a | !b, y),
        Op::Xor => plain(a ^ b, icc, y),
        Op::XorCc => with_codes(a ^ b, y),
        Op::Xnor => plain(!(a ^ b), icc, y),
        Op::XnorCc => with_codes(!(a ^ b), y),
        Op::Sll => plain(shift_left(a, b), icc, y),
        Op::Srl => plain(shift_right(a, b), icc, y),
        Op::Sra => plain(shift_right_signed(a, b), icc, y),
        Op::Umul => with_product(unsigned_product(a, b), icc),
        Op::UmulCc => with_product_codes(unsigned_product(a, b)),
        Op::Smul => with_product(signed_product(a, b), icc),
        Op::SmulCc => with_product_codes(signed_product(a, b)),
        Op::TaddCc => with_both(tagged(add(a, b, false), a, b), y),
        Op::TsubCc => with_both(tagged(subtract(a, b, false), a, b), y),
        Op::MulsCc => {
            let sum = add(step_operand(a, icc), step_addend(b, y), false);
            with_both(sum, step_y(a, y))
        }
    }
}

/// A division, unsigned or signed. `Cc` sets the condition codes.
#[derive(Clone, Copy)]
pub enum Division {
    Udiv,
    UdivCc,
    Sdiv,
    SdivCc,
}

/// A tagged operation that traps on overflow, TADDccTV or TSUBccTV.
#[derive(Clone, Copy)]
pub enum TaggedOp {
    TaggedAdd,
    TaggedSub,
}

/// What a division of Y followed by `a`, a number of 64 bits, by `b` gives; none at divisor 0. A quotient that fits no
/// word is the nearest word, and the cc forms say so by V (appendix B, "Divide Instructions"). Y stays.
#[tactic(auto, unfolding(crate::specs::Outcomes::divided))]
pub fn divide(op: Division, a: u32, b: u32, icc: Icc, y: u32) -> Option<AluOut>
    ensures { result ≡ division_of op a b icc y }
{
    if b == 0 {
        return None;
    }
    Some(match op {
        Division::Udiv => plain(unsigned_quotient(y, a, b).0, icc, y),
        Division::UdivCc => {
            let (value, overflow) = unsigned_quotient(y, a, b);
            plain(value, codes(value, overflow, false), y)
        }
        Division::Sdiv => plain(signed_quotient(y, a, b).0, icc, y),
        Division::SdivCc => {
            let (value, overflow) = signed_quotient(y, a, b);
            plain(value, codes(value, overflow, false), y)
        }
    })
}

/// What TADDccTV or TSUBccTV of `a` and `b` gives, or none where it would set the overflow flag: an operand's low two
/// bits aren't 0, or the signed result doesn't fit (appendix B, "Tagged Add Instructions"). The codes before don't
/// matter; Y stays.
#[tactic(auto, unfolding(crate::specs::Outcomes::tagged_outcome))]
pub fn tagged_tv(op: TaggedOp, a: u32, b: u32, _icc: Icc, y: u32) -> Option<AluOut>
    ensures { result ≡ tagged_outcome op a b _icc y }
{
    let exact = match op {
        TaggedOp::TaggedAdd => add(a, b, false),
        TaggedOp::TaggedSub => subtract(a, b, false),
    };
    let (value, icc) = tagged(exact, a, b);
    if icc.v {
        None
    } else {
        Some(plain(value, icc, y))
    }
}
