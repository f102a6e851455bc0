//! The processor inside the window handlers, word by word: what each word of the handlers asks for, and the state after
//! it.
#![tactic(auto)]

pub mod laws;

pub use v8_memory::{Memory, Port};
