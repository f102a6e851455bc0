//! Ranges of a program's locations where its blocks begin. Nothing rests on it, since the verifier asks all again.
#![tactic(auto)]

mod flow;
mod ranges;

pub use ranges::Ranges;
