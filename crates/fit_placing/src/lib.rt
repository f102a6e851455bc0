//! Meters put into functions, blocks in their places, and slots filled. Nothing rests on it: the verifier judges the
//! image, whoever made it.
#![tactic(auto)]

mod metering;
mod placing;

pub use metering::{insert_meter, lower_count};
pub use placing::{end_unreached, fill, place};
