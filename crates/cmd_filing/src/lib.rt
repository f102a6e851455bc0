//! What is done with a file alone: its bytes are read, a source is assembled, an image is verified or listed.
#![tactic(auto)]

mod assembling;
mod images;
mod listing;
mod reading;
mod verifying;

pub use assembling::assemble_file;
pub use images::image_in;
pub use listing::list_file;
pub use reading::{MOST, ReadFault, read_whole};
pub use verifying::{accepted_in, verify_file};
