//! RAM as an image starts in it on a LEON: what loading it into a board makes, moved to where a LEON's RAM begins.
#![tactic(auto)]

mod own;
mod start;

pub use own::OwnWords;
pub use start::{RamPlace, start_windows};
