//! Raw runs: images that nobody has verified, on a board, and their traces.
#![tactic(auto)]

mod fault;
mod line;
mod port;
mod raw;
mod tracing;

pub use fault::RunFault;
pub use line::{Line, make_line};
pub use port::SlicePort;
pub use raw::{Raw, begun, fault_of, run_raw, take_output};
pub use tracing::trace;
pub use v8_board::{Ending, Outcome, PageUse};
