//! Results of qemu-sparc (QEMU 7.2, user mode), by programs that set the condition codes and Y, run one instruction,
//! and print what it left.
ghost use Rattle.std.specs.Prelude.{◌≡◌, IsTrue, ◌↔◌};
ghost use Rattle.v8_vectors.specs.Agreement.{Holds, IsGivenBy, IsGivenUnlessOverflow, IsQuotientOf, unless_overflow};
ghost use Rattle.v8_vectors.specs.Agreement.{untrapped};

use v8_alu::{AluOut, Division, Op, TaggedOp, alu, divide, tagged_tv};
use v8_word::Icc;

/// What was run. A tagged operation is one that doesn't trap; the form that traps has the same result where the
/// overflow flag stays clear (appendix B, "Tagged Add Instructions").
#[derive(Clone, Copy)]
pub enum Operation {
    Plain(Op),
    Quotient(Division),
    Tagged(TaggedOp),
}

/// One instruction run there: its operands, the codes and Y before it, and the value, codes and Y after it.
#[derive(Clone, Copy)]
pub struct Case {
    pub operation: Operation,
    pub a: u32,
    pub b: u32,
    pub icc: Icc,
    pub y: u32,
    pub there: AluOut,
}

/// The operation that has the result of a tagged operation and never traps.
fn untrapped(op: TaggedOp) -> Op
    ensures { result ≡ untrapped op }
{
    match op {
        TaggedOp::TaggedAdd => Op::TaddCc,
        TaggedOp::TaggedSub => Op::TsubCc,
    }
}

/// What a trapping form has to give where its operation gives this: nothing at an overflow.
fn unless_overflow(out: AluOut) -> Option<AluOut>
    ensures { result ≡ unless_overflow out }
{
    if out.icc.v { None } else { Some(out) }
}

impl Case {
    fn is_given_by(&self, op: Op) -> bool
        ensures { IsTrue result ↔ IsGivenBy op self.now }
    {
        alu(op, self.a, self.b, self.icc, self.y) == self.there
    }

    fn is_quotient_of(&self, op: Division) -> bool
        ensures { IsTrue result ↔ IsQuotientOf op self.now }
    {
        divide(op, self.a, self.b, self.icc, self.y) == Some(self.there)
    }

    fn is_given_unless_overflow(&self, op: TaggedOp) -> bool
        ensures { IsTrue result ↔ IsGivenUnlessOverflow op self.now }
    {
        tagged_tv(op, self.a, self.b, self.icc, self.y) == unless_overflow(self.there)
    }

    /// Whether the operation gives here what it gave there: value, codes and Y. A division has to have a quotient, and
    /// the trapping form of a tagged operation this result, or none at an overflow.
    pub fn holds(&self) -> bool
        ensures { IsTrue result ↔ Holds self.now.operation self.now }
    {
        match self.operation {
            Operation::Plain(op) => self.is_given_by(op),
            Operation::Quotient(op) => self.is_quotient_of(op),
            Operation::Tagged(op) => {
                self.is_given_by(untrapped(op)) && self.is_given_unless_overflow(op)
            }
        }
    }
}
