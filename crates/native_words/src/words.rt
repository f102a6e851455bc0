//! The statements of a word.
ghost use Rattle.std.specs.Prelude.{◌≡◌, true, IfOk};
ghost use Rattle.native_results.specs.Words.{Adds, is_straight};

use crate::accesses::transfer;
use crate::plain::{read_y, set_high, write_y};
use crate::windows::{restore, save};
use native_results::Statements;
use std::alloc::AllocError;
use v8_meaning::Operation;

/// The statements of one word that is no transfer of control and no service.
pub fn word(statements: &mut Statements, operation: &Operation) -> Result<(), AllocError>
    ensures { IfOk result (λ _. is_straight operation.now ≡ true →
        Adds operation.now statements.old.list.items statements.new.list.items) }
{
    match operation {
        Operation::Compute(op, f) => statements.compute(*op, f),
        Operation::Divide(op, f) => statements.divide(*op, f),
        Operation::TaggedTrap(op, f) => statements.compute_tagged(*op, f),
        Operation::SetHigh(f) => set_high(statements, f),
        Operation::ReadY(rd) => read_y(statements, *rd),
        Operation::WriteY(f) => write_y(statements, f),
        Operation::Transfer(moved, operand) => transfer(statements, *moved, operand),
        Operation::Save(f) => save(statements, f),
        Operation::Restore(f) => restore(statements, f),
        // No other word is in an accepted image.
        _ => Ok(()),
    }
}
