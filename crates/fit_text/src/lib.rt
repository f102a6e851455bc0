//! A program as an annotated source, and a fault as a line. Nothing rests on it: the verifier judges the image, whoever
//! made it.
#![tactic(auto)]

mod annotations;
mod code;
mod data;
mod fault;
mod names;
mod text;

pub use annotations::{Annotations, BlockNotes, FunctionNotes};
pub use code::source_of;
pub use fault::{FaultLine, FaultWords};
