//! Containment: what every turn of a loaded board keeps, whatever its code.
#![tactic(auto)]

pub mod laws;

pub use v8_loaded::{Memory, Port};
