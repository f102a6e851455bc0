//! Liveness over a program: what instructions read and write in a frame, and which locations are live where blocks
//! begin. Nothing rests on it, since the verifier asks all again.
#![tactic(auto)]

mod effects;
mod liveness;
mod locations;
mod means;
mod shape;

pub use effects::{Effects, effects_in, effects_of};
pub use liveness::{RegisterCounts, find_live, read_at_end};
pub use locations::LocationSet;
pub use means::Means;
pub use shape::FunctionShape;
