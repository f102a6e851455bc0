//! Kinds of operations.
ghost use Rattle.std.specs.Prelude.{◌≡◌};
ghost use Rattle.sbx_rules.specs.Operations.{is_call, is_framed, is_framed_return, is_reserved, is_restore, is_return};
ghost use Rattle.sbx_rules.specs.Operations.{is_save, is_transfer, is_trap, loads_word, moves_word};

use sbx_image::Kind;
use v8_meaning::{Loading, Operation, Transfer, is_ret};
use v8_word::{Reg, Size};

/// Whether a function has a window and a frame of its own.
pub fn is_framed(kind: Kind) -> bool
    ensures { result ≡ is_framed kind }
{
    match kind {
        Kind::Framed => true,
        Kind::Leaf => false,
    }
}

/// CALL.
pub fn is_call(operation: &Operation) -> bool
    ensures { result ≡ is_call operation.now }
{
    matches!(operation, Operation::Call(_))
}

/// `ret` or `retl`, the only jumps that sandboxed code may have.
pub fn is_return(operation: &Operation) -> bool
    ensures { result ≡ is_return operation.now }
{
    matches!(operation, Operation::JumpAndLink(_))
}

/// `ret` alone.
pub fn is_framed_return(operation: &Operation) -> bool
    ensures { result ≡ is_framed_return operation.now }
{
    match operation {
        Operation::JumpAndLink(fields) => is_ret(fields),
        _ => false,
    }
}

/// CALL, a return or a branch: what has a delay slot.
pub fn is_transfer(operation: &Operation) -> bool
    ensures { result ≡ is_transfer operation.now }
{
    matches!(
        operation,
        Operation::Call(_) | Operation::JumpAndLink(_) | Operation::BranchOnCondition(_)
    )
}

/// SAVE.
pub fn is_save(operation: &Operation) -> bool
    ensures { result ≡ is_save operation.now }
{
    matches!(operation, Operation::Save(_))
}

/// RESTORE.
pub fn is_restore(operation: &Operation) -> bool
    ensures { result ≡ is_restore operation.now }
{
    matches!(operation, Operation::Restore(_))
}

/// A trap on a condition.
pub fn is_trap(operation: &Operation) -> bool
    ensures { result ≡ is_trap operation.now }
{
    matches!(operation, Operation::TrapOnCondition(_))
}

/// LD.
pub fn loads_word(transfer: Transfer) -> bool
    ensures { result ≡ loads_word transfer }
{
    matches!(transfer, Transfer::Load(Loading::Word))
}

/// LD and ST.
pub fn moves_word(transfer: Transfer) -> bool
    ensures { result ≡ moves_word transfer }
{
    matches!(
        transfer,
        Transfer::Load(Loading::Word) | Transfer::Store(Size::Word)
    )
}

/// %sp, %o7, %fp and %i7.
pub fn is_reserved(register: Reg) -> bool
    ensures { result ≡ is_reserved register }
{
    matches!(register, Reg::SP | Reg::O7 | Reg::FP | Reg::I7)
}
