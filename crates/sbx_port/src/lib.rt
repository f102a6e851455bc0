//! Runs of a board whose input is read, and whose output is written, byte by byte.
#![tactic(auto)]

mod carrying;
pub mod laws;
mod mailbox;

pub use carrying::{StreamFault, carry};
pub use mailbox::{Mail, Mailbox};
