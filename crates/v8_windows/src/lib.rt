// Register windows of SPARC V8: the registers of N windows, the current window and the window invalid mask.
#![tactic(auto)]

mod file;
mod halves;
pub mod laws;

pub use file::RegFile;
pub use v8_word::{Icc, Reg, Size, TrapType, bits_of};
