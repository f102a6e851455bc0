// What an instruction means to every machine that runs it: its operation, addresses, branch decisions.
#![tactic(auto)]

mod admitted;
mod asked;
mod direct;
mod late;
mod moved;
mod operation;
mod spaces;
mod transfer;

pub use admitted::{is_admitted, is_ret, is_retl, is_service_call};
pub use asked::{normal, operation_of};
pub use direct::{Direct, direct_of};
pub use late::late_of;
pub use moved::{odd_of, splits_pair};
pub use operation::{Exchange, Loading, MemoryOperand, Operation, Space, StateRegister, Transfer};
pub use spaces::{is_code_space, is_missing, is_normal, is_unknown, is_user_space};
pub use transfer::{
    address, annuls, following, is_always, is_never, is_taken, software_trap, target,
};
pub use v8_alu::{AluOut, Division, Op, TaggedOp, alu, divide, tagged_tv};
pub use v8_formats::{
    Branch, Operand, Three, Trap, Two, Upper, branch_of, bytes_in, displacement30, shift_of,
    three_of, upper_of,
};
