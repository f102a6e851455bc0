//! The statements of one word that is no transfer of control.
#![tactic(auto)]

mod accesses;
mod plain;
mod windows;
mod words;

pub use words::word;
