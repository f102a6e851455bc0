//! The condition codes as comparisons of words (appendix C), and what a condition asks of them (table 5-6).
ghost use Rattle.std.specs.Prelude.{◌≡◌, ℕ, ◌/◌, ◌^◌, ◌==◌, List, IfOk, bit_and, bit_or, bit_xor, slice_index};
ghost use Rattle.std.specs.Prelude.{if◌then◌else◌};
ghost use Rattle.v8_alu.specs.Results.{from_flag};
ghost use Rattle.v8_word.specs.Conditions.{holds};
ghost use Rattle.v8_word.specs.declared.Icc.{Icc};
ghost use Rattle.native_lang.specs.Values.{applied, value};
ghost use Rattle.native_lang.specs.declared.operator.Operator.TheVariants.{LessSigned};
ghost use Rattle.native_results.specs.Bench.{bench_of};
ghost use Rattle.native_results.specs.Codes.{carried, carry_by, overflow_by, turned};
ghost use Rattle.native_results.specs.ShowsState.{ShowsCodes};

use crate::expressions::{binary, complement, negated, of_variables, with_number};
use native_lang::variables::{CARRY, FIRST, NEGATIVE, OVERFLOW, RESULT, SECOND, ZERO};
use native_lang::{Expr, Operator};
use std::alloc::{AllocError, Global};
use v8_formats::Cond;

/// How a word that sets codes makes V and C of its operands and its result.
#[derive(Clone, Copy)]
pub(crate) enum CodesBy {
    /// Both are 0.
    Logic,
    /// Of a sum without a carry.
    Sum,
    /// Of a sum with the carry.
    SumWithCarry,
    /// Of a difference without a borrow.
    Difference,
    /// Of a difference with the borrow.
    DifferenceWithBorrow,
}

/// The highest bit of a value.
fn highest(alloc: Global, e: Expr) -> Result<Expr, AllocError>
    ensures { IfOk result (λ top. (v : List ℕ) → value v top ≡ value v e / 2 ^ 31) }
{
    binary(alloc, Operator::ShiftRight, e, Expr::Number(31))
}

/// V of a sum: the sum is below the first operand where the second isn't below 0, or the other way round.
fn overflow_of_sum(alloc: Global) -> Result<Expr, AllocError>
    ensures { IfOk result (λ e. (v : List ℕ) → value v e ≡
        bit_xor (applied LessSigned (slice_index v 42) (slice_index v 40)) (applied LessSigned (slice_index v 41) 0)) }
{
    let less = of_variables(alloc, Operator::LessSigned, RESULT, FIRST)?;
    let below = with_number(alloc, Operator::LessSigned, SECOND, 0)?;
    binary(alloc, Operator::Differing, less, below)
}

/// V of a sum with the carry: both operands differ from the result in their signs.
fn overflow_with_carry(alloc: Global) -> Result<Expr, AllocError>
    ensures { IfOk result (λ e. (v : List ℕ) → value v e ≡
        bit_and (bit_xor (slice_index v 40) (slice_index v 42)) (bit_xor (slice_index v 41) (slice_index v 42))
        / 2 ^ 31) }
{
    let first = of_variables(alloc, Operator::Differing, FIRST, RESULT)?;
    let second = of_variables(alloc, Operator::Differing, SECOND, RESULT)?;
    let both = binary(alloc, Operator::Both, first, second)?;
    highest(alloc, both)
}

/// V of a difference: the first operand differs in its sign from the second and from the result.
fn overflow_of_difference(alloc: Global) -> Result<Expr, AllocError>
    ensures { IfOk result (λ e. (v : List ℕ) → value v e ≡
        bit_and (bit_xor (slice_index v 40) (slice_index v 41)) (bit_xor (slice_index v 40) (slice_index v 42))
        / 2 ^ 31) }
{
    let second = of_variables(alloc, Operator::Differing, FIRST, SECOND)?;
    let result = of_variables(alloc, Operator::Differing, FIRST, RESULT)?;
    let both = binary(alloc, Operator::Both, second, result)?;
    highest(alloc, both)
}

/// A variable, or its complement where it is the one that is turned.
fn side(alloc: Global, variable: u8, denied: u8) -> Result<Expr, AllocError>
    ensures { IfOk result (λ e. (v : List ℕ) → value v e ≡
        (if variable == denied then turned (slice_index v variable) else slice_index v variable)) }
{
    if variable == denied {
        complement(alloc, Expr::Variable(variable))
    } else {
        Ok(Expr::Variable(variable))
    }
}

/// What both operands have in their highest bit, or one of them and the result: of one of these its complement.
fn majority(alloc: Global, denied: u8) -> Result<Expr, AllocError>
    ensures { IfOk result (λ e. (v : List ℕ) → value v e ≡
        carried (if 40 == denied then turned (slice_index v 40) else slice_index v 40) (slice_index v 41)
        (if 42 == denied then turned (slice_index v 42) else slice_index v 42)) }
{
    let first = side(alloc, FIRST, denied)?;
    let both = binary(alloc, Operator::Both, first, Expr::Variable(SECOND))?;
    let again = side(alloc, FIRST, denied)?;
    let either = binary(alloc, Operator::Either, again, Expr::Variable(SECOND))?;
    let result = side(alloc, RESULT, denied)?;
    let third = binary(alloc, Operator::Both, either, result)?;
    let all = binary(alloc, Operator::Either, both, third)?;
    highest(alloc, all)
}

/// The overflow flag of a result.
pub(crate) fn overflow(alloc: Global, making: CodesBy) -> Result<Expr, AllocError>
    ensures { IfOk result (λ e. (v : List ℕ) → value v e ≡ overflow_by making (bench_of v)) }
{
    match making {
        CodesBy::Logic => Ok(Expr::Number(0)),
        CodesBy::Sum => overflow_of_sum(alloc),
        CodesBy::SumWithCarry => overflow_with_carry(alloc),
        // N, unless the first operand is below the second: so a signed condition is one comparison.
        CodesBy::Difference => {
            let less = of_variables(alloc, Operator::LessSigned, FIRST, SECOND)?;
            binary(alloc, Operator::Differing, Expr::Variable(NEGATIVE), less)
        }
        CodesBy::DifferenceWithBorrow => overflow_of_difference(alloc),
    }
}

/// The carry flag of a result. With a carry it is what both operands have in their highest bit, or one of them where
/// the result lacks it; with a borrow the same of the first operand's complement, the second, and the result.
pub(crate) fn carry(alloc: Global, making: CodesBy) -> Result<Expr, AllocError>
    ensures { IfOk result (λ e. (v : List ℕ) → value v e ≡ carry_by making (bench_of v)) }
{
    match making {
        CodesBy::Logic => Ok(Expr::Number(0)),
        CodesBy::Sum => of_variables(alloc, Operator::Less, RESULT, FIRST),
        CodesBy::SumWithCarry => majority(alloc, RESULT),
        CodesBy::Difference => of_variables(alloc, Operator::Less, FIRST, SECOND),
        CodesBy::DifferenceWithBorrow => majority(alloc, FIRST),
    }
}

/// 1 where an operand's low two bits aren't 0, else 0.
pub(crate) fn is_tagged(alloc: Global) -> Result<Expr, AllocError>
    ensures { IfOk result (λ e. (v : List ℕ) → value v e ≡
        bit_xor (from_flag (bit_and (bit_or (slice_index v 40) (slice_index v 41)) 3 == 0)) 1) }
{
    let either = of_variables(alloc, Operator::Either, FIRST, SECOND)?;
    let tags = binary(alloc, Operator::Both, either, Expr::Number(3))?;
    let none = binary(alloc, Operator::Equal, tags, Expr::Number(0))?;
    negated(alloc, none)
}

/// 1 where the result is below 0, else 0.
pub(crate) fn is_negative(alloc: Global) -> Result<Expr, AllocError>
    ensures { IfOk result (λ e. (v : List ℕ) → value v e ≡ applied LessSigned (slice_index v 42) 0) }
{
    with_number(alloc, Operator::LessSigned, RESULT, 0)
}

/// 1 where the result is 0, else 0.
pub(crate) fn is_zero(alloc: Global) -> Result<Expr, AllocError>
    ensures { IfOk result (λ e. (v : List ℕ) → value v e ≡ from_flag (slice_index v 42 == 0)) }
{
    with_number(alloc, Operator::Equal, RESULT, 0)
}

/// N xor V: the first operand of a comparison is below the second, as signed numbers.
pub(crate) fn is_less(alloc: Global) -> Result<Expr, AllocError>
    ensures { IfOk result (λ e. (v : List ℕ) → value v e ≡ bit_xor (slice_index v 32) (slice_index v 34)) }
{
    of_variables(alloc, Operator::Differing, NEGATIVE, OVERFLOW)
}

/// A flag, or another value of 0 or 1.
fn or_zero(alloc: Global, e: Expr) -> Result<Expr, AllocError>
    ensures { IfOk result (λ either. (v : List ℕ) → value v either ≡ bit_or (value v e) (slice_index v 33)) }
{
    binary(alloc, Operator::Either, e, Expr::Variable(ZERO))
}

/// 1 where the condition holds, else 0.
pub fn condition(alloc: Global, cond: Cond) -> Result<Expr, AllocError>
    ensures { IfOk result
        (λ e. (v : List ℕ) (icc : Icc) → ShowsCodes v icc → value v e ≡ from_flag (holds cond icc)) }
{
    match cond {
        Cond::Never => Ok(Expr::Number(0)),
        Cond::Equal => Ok(Expr::Variable(ZERO)),
        Cond::LessOrEqual => or_zero(alloc, is_less(alloc)?),
        Cond::Less => is_less(alloc),
        Cond::LessOrEqualUnsigned => or_zero(alloc, Expr::Variable(CARRY)),
        Cond::CarrySet => Ok(Expr::Variable(CARRY)),
        Cond::Negative => Ok(Expr::Variable(NEGATIVE)),
        Cond::OverflowSet => Ok(Expr::Variable(OVERFLOW)),
        Cond::Always => Ok(Expr::Number(1)),
        Cond::NotEqual => negated(alloc, Expr::Variable(ZERO)),
        Cond::Greater => negated(alloc, or_zero(alloc, is_less(alloc)?)?),
        Cond::GreaterOrEqual => negated(alloc, is_less(alloc)?),
        Cond::GreaterUnsigned => negated(alloc, or_zero(alloc, Expr::Variable(CARRY))?),
        Cond::CarryClear => negated(alloc, Expr::Variable(CARRY)),
        Cond::Positive => negated(alloc, Expr::Variable(NEGATIVE)),
        Cond::OverflowClear => negated(alloc, Expr::Variable(OVERFLOW)),
    }
}
