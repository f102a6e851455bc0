//! How a machine of one's own starts, as a file spells it: words in RAM, the state registers, and registers by window.
#![tactic(auto)]

mod fault;
mod item;
mod lines;
mod names;
mod numbers;
mod reader;
mod start;

pub use fault::{StartCause, StartFault};
pub use numbers::address;
pub use reader::read_start;
pub use start::{ControlValue, Register, Start};
