//! Images that come in pieces.
#![tactic(auto)]

mod feeding;
pub mod laws;
mod stages;

pub use feeding::ImageReader;
