//! Runs of images told in words: their output, end, turns, window traps, pages and fault status; and turn by turn,
//! where each is, its instruction, what happened, and what it changed.
#![tactic(auto)]

mod changes;
mod events;
mod heads;
mod pages;
mod places;
mod report;
mod run;
mod seen;
mod sheet;
mod slices;
mod teller;
mod watch;

pub use report::push_run;
pub use run::{Run, run_windows};
pub use slices::Progress;
pub use watch::watch_windows;
