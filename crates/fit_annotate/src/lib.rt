//! Annotations for the project's own assembly language: what a source with none, or with some, hasn't got of what is
//! found of its program. Nothing rests on what is found: `fit_kept` looks at how it is put in, and the verifier at what
//! it says.
#![tactic(auto)]

mod additions;
mod blocks;
mod finding;
mod found;
mod lines;
mod notes;
mod program;

pub use additions::Annotated;
pub use found::find;
pub use notes::{Note, Unproved};
