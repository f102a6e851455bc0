//! What an image declares, in the source language's own words.
#![tactic(auto)]

mod image;
mod names;

pub use image::{
    push_depth, push_function_head, push_image, push_numbered, push_params, push_results,
};
pub use names::{Bounds, Location};
