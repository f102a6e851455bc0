//! The statements of words that compute: results, condition codes and Y (appendix B).
ghost use Rattle.std.specs.Prelude.{◌≡◌, ℕ, ◌<◌, ◌++◌, ◌∷◌, ◌==◌, List, [], IfOk, IfSome, if◌then◌else◌, slice_index};
ghost use Rattle.v8_word.specs.declared.Icc.{Icc};
ghost use Rattle.v8_alu.specs.Outcomes.{out, outcome};
ghost use Rattle.v8_meaning.specs.Operands.{second};
ghost use Rattle.v8_meaning.specs.declared.operation.Operation.TheVariants.{Compute, Divide, TaggedTrap};
ghost use Rattle.native_lang.specs.declared.expr.Expr.TheVariants.{Variable};
ghost use Rattle.native_lang.specs.declared.stmt.Stmt.TheVariants as stmts;
ghost use Rattle.native_lang.specs.declared.stmt.Stmt.TheVariants.{Set};
ghost use Rattle.native_lang.specs.Values.{applied};
ghost use Rattle.native_results.specs.Bench.{Bench, Makes, Turns, bench_of};
ghost use Rattle.native_results.specs.Codes.{coded};
ghost use Rattle.native_results.specs.Operands.{IsOperand};
ghost use Rattle.native_results.specs.Quotients.{has_signs, sets_codes, with_quotient_codes};
ghost use Rattle.native_results.specs.Recipes.{followed, prepared, with_added, with_carry_in, with_codes, with_high};
ghost use Rattle.native_results.specs.Recipes.{with_multiplier, with_partial, with_result, with_second_turned, with_tags};
ghost use Rattle.native_results.specs.Words.{Adds};

use crate::codes::{CodesBy, carry, is_less, is_negative, is_tagged, is_zero, overflow};
use crate::expressions::{
    binary, complement, computed, of_variables, operand, register, with_number,
};
use crate::recipes::{OperandsBy, Recipe, recipe_of};
use crate::statements::Statements;
use native_lang::variables::{CARRY, FIRST, NEGATIVE, NOWHERE, OVERFLOW, RESULT, SECOND, Y, ZERO};
use native_lang::{Expr, Operator, Stmt};
use std::alloc::AllocError;
use v8_alu::{Division, Op, TaggedOp};
use v8_formats::Three;
use v8_word::Reg;

/// The operator of an operation that is one alone.
#[tactic(auto, unfolding(v8_alu::specs::Outcomes::outcome))]
fn operator_of(op: Op) -> Option<Operator>
    ensures { IfSome result (λ operator. (a b y : ℕ) (icc : Icc) →
        outcome op a b icc y ≡ out (applied operator a b) icc y) }
{
    match op {
        Op::Add => Some(Operator::Sum),
        Op::Sub => Some(Operator::Difference),
        Op::And => Some(Operator::Both),
        Op::Or => Some(Operator::Either),
        Op::Xor => Some(Operator::Differing),
        Op::Sll => Some(Operator::ShiftLeft),
        Op::Srl => Some(Operator::ShiftRight),
        Op::Sra => Some(Operator::ShiftRightSigned),
        _ => None,
    }
}

/// Whether a division is one of signed numbers.
fn has_signs(op: Division) -> bool
    ensures { result ≡ has_signs op }
{
    matches!(op, Division::Sdiv | Division::SdivCc)
}

/// Whether a division sets the codes.
fn sets_codes(op: Division) -> bool
    ensures { result ≡ sets_codes op }
{
    matches!(op, Division::UdivCc | Division::SdivCc)
}

impl Statements {
    /// The operands of a word, as they are before it.
    fn operands(&mut self, f: &Three) -> Result<(), AllocError>
        ensures made { IfOk result (λ _. Makes (λ v. record (bench_of v) {
          first = slice_index v f.now.rs1;
          second = second (slice_index v) f.now.operand2;
        })
            self.old.list.items self.new.list.items) }
        ensures low { f.now.rs1 < 32 }
        ensures is { IsOperand f.now.operand2 }
    {
        let first = register(f.rs1);
        let second = operand(&f.operand2);
        self.set(FIRST, first)?;
        self.set(SECOND, second)
    }

    /// The second operand is its complement.
    fn turn_second(&mut self) -> Result<(), AllocError>
        ensures { IfOk result (λ _. Turns with_second_turned self.old.list.items self.new.list.items) }
    {
        let turned = complement(self.alloc, Expr::Variable(SECOND))?;
        self.set(SECOND, turned)
    }

    /// The second operand is 0 where the multiplier's lowest bit is.
    fn choose_second(&mut self) -> Result<(), AllocError>
        ensures { IfOk result (λ _. Turns with_added self.old.list.items self.new.list.items) }
    {
        let low = with_number(self.alloc, Operator::Both, Y, 1)?;
        let mask = binary(self.alloc, Operator::Difference, Expr::Number(0), low)?;
        let added = binary(self.alloc, Operator::Both, Expr::Variable(SECOND), mask)?;
        self.set(SECOND, added)
    }

    /// The multiplier moves down by one bit, the partial product's lowest bit in its highest.
    fn move_multiplier(&mut self) -> Result<(), AllocError>
        ensures { IfOk result (λ _. Turns with_multiplier self.old.list.items self.new.list.items) }
    {
        let lowest = with_number(self.alloc, Operator::ShiftLeft, FIRST, 31)?;
        let rest = with_number(self.alloc, Operator::ShiftRight, Y, 1)?;
        let multiplier = binary(self.alloc, Operator::Either, lowest, rest)?;
        self.set(Y, multiplier)
    }

    /// The partial product moves down by one bit, N xor V in its highest.
    fn move_partial(&mut self) -> Result<(), AllocError>
        ensures { IfOk result (λ _. Turns with_partial self.old.list.items self.new.list.items) }
    {
        let less = is_less(self.alloc)?;
        let sign = binary(self.alloc, Operator::ShiftLeft, less, Expr::Number(31))?;
        let half = with_number(self.alloc, Operator::ShiftRight, FIRST, 1)?;
        let partial = binary(self.alloc, Operator::Either, sign, half)?;
        self.set(FIRST, partial)
    }

    /// The operands of a multiply step: the second one is added where the multiplier's lowest bit is 1.
    fn step(&mut self) -> Result<(), AllocError>
        ensures { IfOk result (λ _. Turns (λ k. with_partial (with_multiplier (with_added k)))
            self.old.list.items self.new.list.items) }
    {
        self.choose_second()?;
        self.move_multiplier()?;
        self.move_partial()
    }

    /// What is done to the operands first.
    fn prepare(&mut self, operands: OperandsBy) -> Result<(), AllocError>
        ensures { IfOk result (λ _. Turns (prepared operands) self.old.list.items self.new.list.items) }
    {
        match operands {
            OperandsBy::AsTheyAre => Ok(()),
            OperandsBy::SecondTurned => self.turn_second(),
            OperandsBy::Stepped => self.step(),
        }
    }

    /// An operator on the operands is the result.
    fn results(&mut self, operator: Operator) -> Result<(), AllocError>
        ensures { IfOk result (λ _. Turns (with_result operator) self.old.list.items self.new.list.items) }
    {
        let result = of_variables(self.alloc, operator, FIRST, SECOND)?;
        self.set(RESULT, result)
    }

    /// The carry is added to the result, or taken from it, where it is asked for.
    fn carries(&mut self, operator: Operator, carry: bool) -> Result<(), AllocError>
        ensures { IfOk result (λ _. Turns (with_carry_in operator carry) self.old.list.items self.new.list.items) }
    {
        if !carry {
            return Ok(());
        }
        let result = of_variables(self.alloc, operator, RESULT, CARRY)?;
        self.set(RESULT, result)
    }

    /// An operator on the operands goes to Y.
    fn highs(&mut self, high: Option<Operator>) -> Result<(), AllocError>
        ensures { IfOk result (λ _. Turns (with_high high) self.old.list.items self.new.list.items) }
    {
        let Some(operator) = high else {
            return Ok(());
        };
        let high = of_variables(self.alloc, operator, FIRST, SECOND)?;
        self.set(Y, high)
    }

    /// The four codes of the result.
    fn codes_by(&mut self, making: CodesBy) -> Result<(), AllocError>
        ensures { IfOk result (λ _. Turns (coded making) self.old.list.items self.new.list.items) }
    {
        let negative = is_negative(self.alloc)?;
        self.set(NEGATIVE, negative)?;
        let zero = is_zero(self.alloc)?;
        self.set(ZERO, zero)?;
        let overflow = overflow(self.alloc, making)?;
        self.set(OVERFLOW, overflow)?;
        let carry = carry(self.alloc, making)?;
        self.set(CARRY, carry)
    }

    /// The four codes, where they are asked for.
    fn codes(&mut self, codes: Option<CodesBy>) -> Result<(), AllocError>
        ensures { IfOk result (λ _. Turns (with_codes codes) self.old.list.items self.new.list.items) }
    {
        match codes {
            Some(making) => self.codes_by(making),
            None => Ok(()),
        }
    }

    /// V is also set where an operand is tagged.
    fn tags(&mut self, tags: bool) -> Result<(), AllocError>
        ensures { IfOk result (λ _. Turns (with_tags tags) self.old.list.items self.new.list.items) }
    {
        if !tags {
            return Ok(());
        }
        let tagged = is_tagged(self.alloc)?;
        let overflow = binary(
            self.alloc,
            Operator::Either,
            Expr::Variable(OVERFLOW),
            tagged,
        )?;
        self.set(OVERFLOW, overflow)
    }

    /// What a recipe says.
    fn follow(&mut self, recipe: Recipe) -> Result<(), AllocError>
        ensures { IfOk result (λ _. Turns (followed recipe) self.old.list.items self.new.list.items) }
    {
        self.prepare(recipe.operands)?;
        self.results(recipe.operator)?;
        self.carries(recipe.operator, recipe.carry)?;
        self.highs(recipe.high)?;
        self.codes(recipe.codes)?;
        self.tags(recipe.tags)
    }

    /// The result goes to its register.
    pub fn assign_result(&mut self, rd: Reg) -> Result<(), AllocError>
        ensures list { IfOk result (λ _. self.new.list.items ≡
            self.old.list.items ++ (if rd == 0 then [] else Set rd (Variable 42) ∷ [])) }
        ensures low { rd < 32 }
    {
        self.assign(rd, Expr::Variable(RESULT))
    }

    /// The statements of an operation that has a result for all operands.
    pub fn compute(&mut self, op: Op, f: &Three) -> Result<(), AllocError>
        ensures { IfOk result (λ _. Adds (Compute op f.now) self.old.list.items self.new.list.items) }
    {
        if let Some(operator) = operator_of(op) {
            let result = computed(self.alloc, operator, f)?;
            return self.assign(f.rd, result);
        }
        self.operands(f)?;
        self.follow(recipe_of(op))?;
        self.assign_result(f.rd)
    }

    /// The statements of a tagged operation that traps where it would set V: of an accepted image it never does.
    pub fn compute_tagged(&mut self, op: TaggedOp, f: &Three) -> Result<(), AllocError>
        ensures { IfOk result (λ _. Adds (TaggedTrap op f.now) self.old.list.items self.new.list.items) }
    {
        match op {
            TaggedOp::TaggedAdd => self.compute(Op::TaddCc, f),
            TaggedOp::TaggedSub => self.compute(Op::TsubCc, f),
        }
    }

    /// The quotient of Y and the first operand by the second is the result, with signs or without.
    fn quotient(&mut self, sign: bool) -> Result<(), AllocError>
        ensures { IfOk result (λ _. self.new.list.items ≡ self.old.list.items
            ++ stmts.Divide 42 45 sign (Variable 36) (Variable 40) (Variable 41) ∷ []) }
    {
        let high = Expr::Variable(Y);
        let low = Expr::Variable(FIRST);
        let divisor = Expr::Variable(SECOND);
        self.push(Stmt::Divide(RESULT, NOWHERE, sign, high, low, divisor))
    }

    /// The codes of a quotient, where they are asked for: V tells whether it was saturated.
    fn quotient_codes(&mut self, codes: bool) -> Result<(), AllocError>
        ensures { IfOk result (λ _. Turns (with_quotient_codes codes) self.old.list.items self.new.list.items) }
    {
        if !codes {
            return Ok(());
        }
        self.codes_by(CodesBy::Logic)?;
        self.set(OVERFLOW, Expr::Variable(NOWHERE))
    }

    /// The statements of a division.
    pub fn divide(&mut self, op: Division, f: &Three) -> Result<(), AllocError>
        ensures { IfOk result (λ _. Adds (Divide op f.now) self.old.list.items self.new.list.items) }
    {
        self.operands(f)?;
        self.quotient(has_signs(op))?;
        self.quotient_codes(sets_codes(op))?;
        self.assign_result(f.rd)
    }
}
