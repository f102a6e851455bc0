//! Runs of accepted images over a reader and a writer.
#![tactic(auto)]

mod streams;

pub use sbx_run::{Accepted, Cause, Finished, Outcome, Refusal, RunFault, budget, trace};
pub use streams::run_stream;
