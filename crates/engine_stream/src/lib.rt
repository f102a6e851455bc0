//! Runs of accepted images on the fast flat machine over a reader and a writer.
#![tactic(auto)]

mod bytes;
mod flow;

pub use flow::{FlatEnded, run_over};
pub use sbx_verify::Accepted;
