//! Expressions in C, each in brackets of its own.
ghost use Rattle.std.specs.Prelude.{◌≡◌, ℕ, List, ◌++◌, OnOk};
ghost use Rattle.native_text.specs.Spelling.{applied_text, term_text};
ghost use Rattle.native_text.specs.Terms.{term_of};
ghost use Rattle.native_text.specs.Words.{IsWordTerm};

use crate::text::ProgramText;
use native_lang::{Expr, Operator};
use std::alloc::AllocError;

/// What stands before the first operand, between the two, and behind the second.
fn signs_of(operator: Operator) -> (&'static str, &'static str, &'static str)
    ensures { (a b : List ℕ) → applied_text operator a b ≡ result.0.now ++ a ++ result.1.now ++ b ++ result.2.now }
{
    match operator {
        Operator::Sum => ("(", " + ", ")"),
        Operator::Difference => ("(", " - ", ")"),
        Operator::Product => ("(", " * ", ")"),
        Operator::Both => ("(", " & ", ")"),
        Operator::Either => ("(", " | ", ")"),
        Operator::Differing => ("(", " ^ ", ")"),
        Operator::ShiftLeft => ("(", " << (", " & 31u))"),
        Operator::ShiftRight => ("(", " >> (", " & 31u))"),
        Operator::ShiftRightSigned => ("SAR(", ", ", ")"),
        Operator::HighProduct => ("UMULH(", ", ", ")"),
        Operator::HighSignedProduct => ("SMULH(", ", ", ")"),
        Operator::Equal => ("(WORD)(", " == ", ")"),
        Operator::Less => ("(WORD)(", " < ", ")"),
        Operator::LessSigned => ("(WORD)(SIGNED(", ") < SIGNED(", "))"),
    }
}

impl ProgramText {
    /// An expression.
    pub(crate) fn expression(&mut self, e: &Expr) -> Result<(), AllocError>
        ensures text { OnOk result (self.new ≡ self.old ++ term_text (term_of e.now)) }
        ensures words { OnOk result (IsWordTerm (term_of e.now)) }
    {
        match e {
            Expr::Number(word) => self.word(*word),
            Expr::Variable(x) => self.variable(*x),
            Expr::Binary(operator, a, b) => {
                let (before, between, behind) = signs_of(*operator);
                self.put(before)?;
                self.expression(a)?;
                self.put(between)?;
                self.expression(b)?;
                self.put(behind)
            }
        }
    }
}
