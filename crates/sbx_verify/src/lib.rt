//! Which images are accepted: those that break none of the rules of `sbx_rules`.
//!
//! `sbx_pass` finds the first fault of an image, and `sbx_sound` shows that an image without one is safe on the flat
//! machine: that is a clause of `verify`.
#![tactic(auto)]

mod entry;
mod verifier;

pub use entry::budget;
pub use sbx_sound::{Cause, Refusal};
pub use verifier::{Accepted, verify};
