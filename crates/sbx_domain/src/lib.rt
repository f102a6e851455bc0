//! What the verifier knows of a state between two words: ranges and linear forms of locations.
#![tactic(auto)]

mod branching;
mod entry;
pub mod laws;
mod lin;
mod lowest;
mod memory;
mod moving;
mod operands;
mod parts;
mod relation;
mod results;
mod rows;
mod state;
mod term;
mod words;

pub use entry::Entry;
pub use lin::Lin;
pub use lowest::least;
pub use memory::{frame_word_of, offset_from_sp};
pub use relation::{Related, Relation};
pub use sbx_flat::{asked, declares, service_of, weight_of};
pub use state::{LOCATIONS, State};
