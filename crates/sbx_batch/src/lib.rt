//! Runs of many accepted images, one after another, on one board; and why a run's pages are the image's and the input's
//! alone, whatever runs the board had before.
#![tactic(auto)]

mod batch;
pub mod laws;

pub use batch::{Batch, run_batch};
pub use sbx_run::{Accepted, Finished, PageUse, RunFault};
