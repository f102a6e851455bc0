//! Runs of accepted images on the fast flat machine, at once or in pieces: output, exit word and counts are those of a
//! run on a board, which isn't made.
#![tactic(auto)]

mod counts;
mod flat_run;
mod flat_session;
mod opened;
mod runs;
mod tally;

pub use flat_run::{FlatRun, FlatStop};
pub use flat_session::{FlatSession, FlatStand, FlatStep};
pub use opened::Opened;
pub use runs::{FlatFinished, run_flat, run_opened};
pub use sbx_verify::Accepted;
pub use tally::Tally;
