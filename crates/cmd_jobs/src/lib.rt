//! What a command line may ask for: jobs, and their counts of windows and limits of turns.
#![tactic(auto)]

mod counts;
mod jobs;

pub use counts::Windows;
pub use jobs::{Job, MOST_TURNS, decimal, turns, window_count};
