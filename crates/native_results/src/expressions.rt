//! Expressions of registers and operands.
ghost use Rattle.std.specs.Prelude.{◌≡◌, ℕ, ◌^◌, ◌<◌, List, IfOk, bit_xor, slice_index};
ghost use Rattle.v8_meaning.specs.Operands.{address, second};
ghost use Rattle.native_lang.specs.Values.{applied, value};
ghost use Rattle.native_results.specs.Operands.{IsOperand};

use native_lang::{Expr, Operator};
use std::alloc::{AllocError, Global};
use v8_formats::{Operand, Three};
use v8_word::Reg;

/// All ones.
const ONES: u32 = 0xffff_ffff;

/// The word of a register.
pub fn register(register: Reg) -> Expr
    ensures value { (v : List ℕ) → value v result ≡ slice_index v register }
    ensures low { register < 32 }
{
    Expr::Variable(register.number())
}

/// The word of a second operand.
pub fn operand(operand: &Operand) -> Expr
    ensures value { (v : List ℕ) → value v result ≡ second (slice_index v) operand.now }
    ensures is { IsOperand operand.now }
{
    match operand {
        Operand::Register(other) => register(*other),
        Operand::Immediate(word) => Expr::Number(*word),
    }
}

/// An operator on two values.
pub fn binary(alloc: Global, operator: Operator, a: Expr, b: Expr) -> Result<Expr, AllocError>
    ensures { IfOk result (λ e. (v : List ℕ) → value v e ≡ applied operator (value v a) (value v b)) }
{
    let a = Box::new(alloc, a)?;
    let b = Box::new(alloc, b)?;
    Ok(Expr::Binary(operator, a, b))
}

/// An operator on two variables.
pub fn of_variables(alloc: Global, operator: Operator, a: u8, b: u8) -> Result<Expr, AllocError>
    ensures { IfOk result
        (λ e. (v : List ℕ) → value v e ≡ applied operator (slice_index v a) (slice_index v b)) }
{
    binary(alloc, operator, Expr::Variable(a), Expr::Variable(b))
}

/// An operator on a variable and a number.
pub fn with_number(
    alloc: Global,
    operator: Operator,
    a: u8,
    number: u32,
) -> Result<Expr, AllocError>
    ensures { IfOk result (λ e. (v : List ℕ) → value v e ≡ applied operator (slice_index v a) number) }
{
    binary(alloc, operator, Expr::Variable(a), Expr::Number(number))
}

/// Each bit of a value turned.
pub fn complement(alloc: Global, e: Expr) -> Result<Expr, AllocError>
    ensures { IfOk result (λ turned. (v : List ℕ) → value v turned ≡ bit_xor (value v e) 0xffffffff) }
{
    binary(alloc, Operator::Differing, e, Expr::Number(ONES))
}

/// 1 where a value of 0 or 1 is 0, else 0.
pub fn negated(alloc: Global, e: Expr) -> Result<Expr, AllocError>
    ensures { IfOk result (λ turned. (v : List ℕ) → value v turned ≡ bit_xor (value v e) 1) }
{
    binary(alloc, Operator::Differing, e, Expr::Number(1))
}

/// The sum of a register and an operand: an address, or what SAVE and RESTORE give.
pub fn sum_of(alloc: Global, rs1: Reg, second: &Operand) -> Result<Expr, AllocError>
    ensures value { IfOk result
        (λ e. (v : List ℕ) → slice_index v rs1 < 2 ^ 32 → value v e ≡ address (slice_index v) rs1 second.now) }
    ensures low { rs1 < 32 }
    ensures is { IsOperand second.now }
{
    match second {
        Operand::Immediate(0) => Ok(register(rs1)),
        _ => binary(alloc, Operator::Sum, register(rs1), operand(second)),
    }
}

/// An operator on an instruction's operands.
pub fn computed(alloc: Global, operator: Operator, f: &Three) -> Result<Expr, AllocError>
    ensures value { IfOk result (λ e. (v : List ℕ) →
        value v e ≡ applied operator (slice_index v f.now.rs1) (second (slice_index v) f.now.operand2)) }
    ensures low { f.now.rs1 < 32 }
    ensures is { IsOperand f.now.operand2 }
{
    binary(alloc, operator, register(f.rs1), operand(&f.operand2))
}
