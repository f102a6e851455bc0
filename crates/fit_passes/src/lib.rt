//! All passes over a program, one after the other: from compiler-made code to an annotated source. Nothing rests on it:
//! the verifier judges the image, whoever made it.
#![tactic(auto)]

mod passes;

pub use passes::{FitPlan, Made, Reason, Refusal, make};
