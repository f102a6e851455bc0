//! The statements of SAVE and RESTORE (appendix B, "SAVE and RESTORE Instructions").
ghost use Rattle.std.specs.Prelude.{IfOk};
ghost use Rattle.native_results.specs.Words.{Adds};

use native_lang::variables::RESULT;
use native_lang::{Expr, Stmt};
use native_results::Statements;
use native_results::expressions::sum_of;
use std::alloc::AllocError;
use v8_formats::Three;
use v8_meaning::Operation;

/// The statements of SAVE: the sum is made in the older window, and goes to the newer one.
pub(crate) fn save(statements: &mut Statements, f: &Three) -> Result<(), AllocError>
    ensures { IfOk result (λ _. Adds (Operation.Save f.now) statements.old.list.items statements.new.list.items) }
{
    let sum = sum_of(statements.alloc, f.rs1, &f.operand2)?;
    statements.set(RESULT, sum)?;
    statements.push(Stmt::Enter)?;
    statements.push(Stmt::Push)?;
    statements.assign(f.rd, Expr::Variable(RESULT))
}

/// The statements of RESTORE: the sum is made in the newer window, and goes to the older one.
pub(crate) fn restore(statements: &mut Statements, f: &Three) -> Result<(), AllocError>
    ensures { IfOk result (λ _. Adds (Operation.Restore f.now) statements.old.list.items statements.new.list.items) }
{
    let sum = sum_of(statements.alloc, f.rs1, &f.operand2)?;
    statements.set(RESULT, sum)?;
    statements.push(Stmt::Leave)?;
    statements.push(Stmt::Pop)?;
    statements.assign(f.rd, Expr::Variable(RESULT))
}
