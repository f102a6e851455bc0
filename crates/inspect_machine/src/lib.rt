//! A machine of one's own, with no board: it runs from a start, and its states are told line by line, and then the
//! words of RAM that it changed.
#![tactic(auto)]

mod bare;
mod changed;
mod run;

pub use run::machine_windows;
