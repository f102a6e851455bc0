//! The supervisor's routines in SPARC code, turn by turn, for every count of windows: what the window handlers and the
//! services leave.
#![tactic(auto)]

pub mod overflow;
pub mod services;
pub mod underflow;
