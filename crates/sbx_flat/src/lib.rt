//! The flat machine: as many frames as there are calls, and no windows, pages or traps. It is what sandboxed code
//! means.
//!
//! The definitions stand in `specs/`: registers, memory, states, effects, turns, runs and window traffic.
#![tactic(auto)]

mod code;
mod invariants;
pub mod laws;
mod path;

pub use code::{asked, declares, service_of, weight_of, word_at};
pub use invariants::Relation;
pub use path::{Place, Traffic, Wrong};
pub use v8_formats::{Instr, Operand, Three, Trap, Two, Upper};
pub use v8_meaning::{Exchange, Loading, MemoryOperand, Operation, Transfer, operation_of};
