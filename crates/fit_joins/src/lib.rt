//! Functions that call each other in a round, and those whose loops take from the meter, as parts of the first
//! function: a call between them is no CALL, but a jump, behind which the return finds its way back by a number.
//! Nothing rests on it: the verifier judges the image, whoever made it.
#![tactic(auto)]

mod assembling;
mod joining;
mod keeping;
mod moving;
mod pointing;
mod returning;
mod rounds;
mod splitting;

pub use assembling::join;
pub use pointing::caller_of;
pub use rounds::{callees_of, in_rounds};
