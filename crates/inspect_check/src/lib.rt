//! All faults that are told of a source that means no image: the first, and behind it each line's first one, as far as
//! the line stands by itself.
#![tactic(auto)]

mod alone;
mod faults;
pub mod laws;

pub use faults::{Faults, faults_behind, judge};
