//! The statements of SETHI, RDY and WRY (appendix B, "SETHI Instruction" to "Write State Register Instructions").
ghost use Rattle.std.specs.Prelude.{IfOk};
ghost use Rattle.native_results.specs.Words.{Adds};

use native_lang::variables::Y;
use native_lang::{Expr, Operator};
use native_results::Statements;
use native_results::expressions::{binary, operand, register};
use std::alloc::AllocError;
use v8_formats::{Two, Upper};
use v8_meaning::Operation;
use v8_word::Reg;

/// The statements of SETHI.
pub(crate) fn set_high(statements: &mut Statements, f: &Upper) -> Result<(), AllocError>
    ensures { IfOk result (λ _. Adds (Operation.SetHigh f.now) statements.old.list.items statements.new.list.items) }
{
    let word = ((u64::from(f.imm22) * 1024) % 0x1_0000_0000) as u32;
    statements.assign(f.rd, Expr::Number(word))
}

/// The statements of RDY.
pub(crate) fn read_y(statements: &mut Statements, rd: Reg) -> Result<(), AllocError>
    ensures { IfOk result (λ _. Adds (Operation.ReadY rd) statements.old.list.items statements.new.list.items) }
{
    statements.assign(rd, Expr::Variable(Y))
}

/// The statements of WRY.
pub(crate) fn write_y(statements: &mut Statements, f: &Two) -> Result<(), AllocError>
    ensures { IfOk result (λ _. Adds (Operation.WriteY f.now) statements.old.list.items statements.new.list.items) }
{
    let first = register(f.rs1);
    let second = operand(&f.operand2);
    let e = binary(statements.alloc, Operator::Differing, first, second)?;
    statements.set(Y, e)
}
