//! What a call of `fit` does beside its passes: its words, the files that it reads and writes, the image of what was
//! made, and what is told where nothing is. Nothing rests on it: the verifier judges the image, whoever made it.
#![tactic(auto)]

mod excess;
mod files;
mod image;
mod refusals;
mod words;

pub use excess::tell_refusal;
pub use files::{LACKING, NO_MEMORY, bytes_of, lacking, read_sources, unread, write_source};
pub use image::{NoImage, finish_image, image_bytes};
pub use refusals::tell_annotation_refusal;
pub use words::{ArgumentFault, Arguments, STACK, TURNS};
