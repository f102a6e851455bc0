//! Runs of accepted images in pieces: each step takes some bytes of the input and gives some of the output.
#![tactic(auto)]

mod advancing;
mod carrying;
mod session;

pub use session::{Session, Stand, Step};
