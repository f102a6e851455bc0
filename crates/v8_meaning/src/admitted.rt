// The operations that sandboxed code may ask for.
ghost use Rattle.std.specs.Prelude.{◌≡◌};
ghost use Rattle.v8_meaning.specs.Admitted.{is_admitted, is_immediate, is_immediate_of, is_ret, is_retl};
ghost use Rattle.v8_meaning.specs.Admitted.{is_service_call};

use crate::moved::splits_pair;
use crate::operation::Operation;
use crate::spaces::is_normal;
use crate::transfer::{is_always, is_never};
use v8_formats::{Operand, Reg, Three, Trap};

fn is_immediate_of(number: u32, operand: &Operand) -> bool
    ensures { result ≡ is_immediate_of number operand.now }
{
    match operand {
        Operand::Register(_) => false,
        Operand::Immediate(immediate) => *immediate == number,
    }
}

fn is_immediate(operand: &Operand) -> bool
    ensures { result ≡ is_immediate operand.now }
{
    matches!(operand, Operand::Immediate(_))
}

/// Whether a JMPL is `ret`, the return of a function with a window: `jmpl %i7+8,%g0` (appendix A, "Synthetic
/// Instructions").
pub fn is_ret(fields: &Three) -> bool
    ensures { result ≡ is_ret fields.now }
{
    fields.rd == Reg::G0 && fields.rs1 == Reg::I7 && is_immediate_of(8, &fields.operand2)
}

/// Whether a JMPL is `retl`, the return of a function without a window: `jmpl %o7+8,%g0` (appendix A, "Synthetic
/// Instructions").
pub fn is_retl(fields: &Three) -> bool
    ensures { result ≡ is_retl fields.now }
{
    fields.rd == Reg::G0 && fields.rs1 == Reg::O7 && is_immediate_of(8, &fields.operand2)
}

/// Whether a Ticc calls a service: `ta n`, whose number is the immediate alone.
pub fn is_service_call(trap: &Trap) -> bool
    ensures { result ≡ is_service_call trap.now }
{
    is_always(trap.cond) && trap.rs1 == Reg::G0 && is_immediate(&trap.operand2)
}

/// Whether sandboxed code may ask for the operation. Not admitted: privileged and alternate-space forms, FLUSH, STBAR,
/// BN, conditional or computed traps, jumps other than `ret` and `retl`, double words of an odd register, and what only
/// traps.
#[tactic(auto, unfolding(crate::specs::Admitted::is_admitted))]
pub fn is_admitted(operation: &Operation) -> bool
    ensures { result ≡ is_admitted operation.now }
{
    match operation {
        Operation::Compute(_, _)
        | Operation::Divide(_, _)
        | Operation::TaggedTrap(_, _)
        | Operation::SetHigh(_)
        | Operation::ReadY(_)
        | Operation::WriteY(_)
        | Operation::Save(_)
        | Operation::Restore(_)
        | Operation::Call(_) => true,
        Operation::Transfer(transfer, operand) => {
            is_normal(operand.space) && !splits_pair(transfer.size(), operand.rd)
        }
        Operation::BranchOnCondition(branch) => !is_never(branch.cond),
        Operation::JumpAndLink(fields) => is_ret(fields) || is_retl(fields),
        Operation::TrapOnCondition(trap) => is_service_call(trap),
        Operation::ReadState(_, _)
        | Operation::WriteState(_, _)
        | Operation::ReturnFromTrap(_)
        | Operation::Nothing
        | Operation::Illegal
        | Operation::FloatingPoint
        | Operation::Coprocessor => false,
    }
}
