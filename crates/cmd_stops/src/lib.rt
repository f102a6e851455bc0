//! Why a command stops, with its line on standard error and its exit status.
#![tactic(auto)]

mod stops;

pub use stops::{CommandStop, Ended, Full};
