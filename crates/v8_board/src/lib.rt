//! The board: a machine of N windows with RAM and a device over a port.
#![tactic(auto)]

mod board;
pub mod laws;
mod outcome;
mod page_use;
mod placing;

pub use board::Board;
pub use outcome::{Counts, Ending, Outcome};
pub use page_use::PageUse;
pub use v8_contained::Port;
