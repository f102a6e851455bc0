//! What each command of the sandbox does with a file, an input and two outputs.
#![tactic(auto)]

mod commands;
pub mod laws;
mod running;
mod streaming;
mod tracing;

pub use cmd_filing::{MOST, ReadFault, image_in, read_whole};
pub use cmd_jobs::{Job, Windows, turns, window_count};
pub use cmd_stops::{CommandStop, Ended, Full};
pub use commands::{command, exit_status};
pub use tracing::input_of;
