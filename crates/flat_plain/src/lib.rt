//! The flat machine, run: as many frames as there are open calls, no windows, pages or traps. It is plain and slow, and
//! its contracts are the flat machine's definitions, so that what those definitions say can be compared with values
//! from outside.
#![tactic(auto)]

mod accesses;
mod effects;
mod frames;
mod machine;
mod memory;
mod paths;
mod results;
mod runs;
mod start;
mod step;
mod turned;

pub use machine::Plain;
pub use paths::{traffic, weight};
pub use runs::{Ending, Ran};
pub use turned::Turned;
