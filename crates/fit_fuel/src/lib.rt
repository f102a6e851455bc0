//! Fuel: what each block of a fitted program declares, so that a run is shown to end; and the meter, by which loops
//! that no counter bounds are. Nothing rests on it, since the verifier asks all again.
#![tactic(auto)]

mod bounds;
mod declaring;
mod meter;
mod task;
mod totals;
mod ways;

pub use bounds::{LoopBounds, bounds_of};
pub use declaring::{declare, declare_function, is_of_blocks, refused};
pub use meter::{Meter, counting, counting_step, number_in};
pub use task::Task;
pub use totals::{CallTotal, total_of};
