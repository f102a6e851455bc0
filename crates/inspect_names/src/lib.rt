//! What is told of an image by its source's own names and lines: the map of a source, texts with its names, and what is
//! wrong with it.
#![tactic(auto)]

mod checking;
mod digits;
mod findings;
mod map;
mod names;
mod reading;
mod renaming;
mod rows;
mod told;
mod writer;

pub use checking::{Check, Verdict, check_source};
pub use findings::{Finding, SourceCode};
pub use map::push_map;
pub use names::{Named, Names, names_in};
pub use reading::{MapText, SourceMap, read_map};
pub use renaming::{SourceTold, push_renamed};
pub use writer::NamedWriter;
