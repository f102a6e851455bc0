//! The registers that an operation reads.
ghost use Rattle.std.specs.Prelude.{◌≡◌, ◌++◌, ◌∷◌, ◌+◌, ◌<◌, ◌≤◌, []};
ghost use Rattle.arrayvec.specs.ArrayVec.{array_vec_len};
ghost use Rattle.sbx_rules.specs.Operations.{address_reads, moved_reads, reads_of, second_reads, service_reads};

use arrayvec::ArrayVec;
use sbx_faults::frame_offset;
use sbx_flat::service_of;
use sbx_image::Function;
use v8_formats::Operand;
use v8_meaning::{Exchange, MemoryOperand, Operation, Transfer, odd_of};
use v8_word::{Reg, Size};

/// Registers by number.
pub type Registers = ArrayVec<u8, 8>;

fn push(registers: &mut Registers, register: Reg)
    requires { array_vec_len registers.old < 8 }
    ensures items { registers.new.items ≡ registers.old.items ++ register ∷ [] }
    ensures len { array_vec_len registers.new ≡ array_vec_len registers.old + 1 }
{
    registers.push(register.number());
}

/// The registers of two operands.
fn push_operands(registers: &mut Registers, rs1: Reg, second: Operand)
    requires { array_vec_len registers.old + 2 ≤ 8 }
    ensures { registers.new.items ≡ registers.old.items ++ (rs1 ∷ second_reads second) }
{
    push(registers, rs1);
    match second {
        Operand::Register(rs2) => push(registers, rs2),
        Operand::Immediate(_) => {}
    }
}

/// The registers whose words go out.
fn push_moved(registers: &mut Registers, transfer: Transfer, rd: Reg)
    requires { array_vec_len registers.old + 2 ≤ 8 }
    ensures items { registers.new.items ≡ registers.old.items ++ moved_reads transfer rd }
    ensures len { array_vec_len registers.new ≤ array_vec_len registers.old + 2 }
{
    match transfer {
        Transfer::Store(Size::Double) => {
            push(registers, rd);
            push(registers, odd_of(rd));
        }
        Transfer::Store(_) | Transfer::Exchange(Exchange::Register) => push(registers, rd),
        Transfer::Load(_) | Transfer::Exchange(Exchange::Ones) => {}
    }
}

/// The registers of an address; that of a frame word has none.
fn push_address(registers: &mut Registers, offset: Option<i64>, operand: &MemoryOperand)
    requires { array_vec_len registers.old + 2 ≤ 8 }
    ensures { registers.new.items ≡ registers.old.items ++ address_reads offset operand.now }
{
    match offset {
        Some(_) => {}
        None => push_operands(registers, operand.rs1, operand.operand2),
    }
}

/// Exit and put read %o0.
fn push_service(registers: &mut Registers, service: Option<u32>)
    requires { array_vec_len registers.old + 2 ≤ 8 }
    ensures { registers.new.items ≡ registers.old.items ++ service_reads service }
{
    match service {
        Some(0) | Some(2) => registers.push(8),
        _ => {}
    }
}

/// The registers that an operation of a function reads, but for forms of their own: SAVE, CALL, `ret`, `retl`, and
/// words of the frame.
#[tactic(auto, unfolding(sbx_rules::specs::Operations::reads_of))]
pub fn registers_read(function: &Function, operation: &Operation) -> Registers
    ensures { result.items ≡ reads_of function.now operation.now }
{
    let mut registers = Registers::new();
    match operation {
        Operation::Compute(_, fields)
        | Operation::Divide(_, fields)
        | Operation::TaggedTrap(_, fields)
        | Operation::Restore(fields) => push_operands(&mut registers, fields.rs1, fields.operand2),
        Operation::WriteY(fields) => push_operands(&mut registers, fields.rs1, fields.operand2),
        Operation::Transfer(transfer, operand) => {
            push_moved(&mut registers, *transfer, operand.rd);
            let offset = frame_offset(function, *transfer, operand);
            push_address(&mut registers, offset, operand);
        }
        Operation::TrapOnCondition(trap) => push_service(&mut registers, service_of(trap)),
        _ => {}
    }
    registers
}
