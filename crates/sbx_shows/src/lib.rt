//! What a board of few windows shows of the flat machine: the turns that keep it, of user code and of window traps, and
//! whole runs of safe images, beside the flat machine's.
#![tactic(auto)]

pub mod laws;
pub mod window_law;
