// The processor's state, and what an instruction that reaches no memory does to it.
#![tactic(auto)]

mod effects;
pub mod laws;
mod registers;
mod state;
mod transfers;
mod traps;
mod words;

pub use state::{Control, Cpu};
pub use v8_meaning::{
    Direct, Division, Loading, MemoryOperand, Operation, Space, StateRegister, Transfer, branch_of,
    bytes_in, direct_of, is_code_space, is_user_space, late_of, normal, operation_of, shift_of,
    three_of,
};
