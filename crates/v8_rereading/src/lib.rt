//! The text of each instruction reads back as that instruction.
#![tactic(auto)]

pub mod laws;
