//! Frames and arguments in memory, as far as they go to the data or to the soft stack, and functions that move the
//! stack pointer. Nothing rests on it: the verifier judges the image, whoever made it.
#![tactic(auto)]

mod arguments;
mod frames;
mod moving;
mod places;

pub use arguments::{Callees, argument_bytes, leaves_for_soft};
pub use frames::{SoftFrames, empty_frame, place_frame};
pub use moving::{end_by_kept, moves_stack, take_alignment, way_back_of};
