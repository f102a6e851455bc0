//! The verifier's rules as definitions (`specs/Rules.antt`), and what a verdict on an image means
//! (`specs/Verdicts.antt`).
//!
//! The only code is the rules' names. The laws are contracts of functions that do nothing.
#![tactic(auto)]

mod cause;
pub mod laws;

pub use cause::{Cause, Refusal};
pub use sbx_domain::{
    Entry, LOCATIONS, State, asked, declares, frame_word_of, offset_from_sp, service_of, weight_of,
};
