//! A program out of a source: functions in the order of their calls, each put in forms that the rules know. Nothing
//! rests on it: the verifier judges the image, whoever made it.
#![tactic(auto)]

mod calls;
mod choice;
mod endless;
mod programs;
mod ways;

pub use programs::{JoinPlan, Legal, program_of};
