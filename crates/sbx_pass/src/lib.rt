//! The verifier's pass over an image: its functions and blocks, the words of each, and the rules in their order on each
//! way on which a word runs, up to the first fault.
#![tactic(auto)]

mod after;
mod before;
mod block;
mod step;
mod walk;

pub use block::first_fault_in_block;
pub use sbx_known::{address_of, function_at};
pub use sbx_rules::{Cause, Refusal, State};
pub use walk::first_fault;
