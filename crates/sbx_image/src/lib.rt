//! The image format: a program with its annotations as bytes, versions 1 to 3.
#![tactic(auto)]

mod heads;
mod image;
pub mod laws;
mod numbers;
mod reading;
mod writing;

pub use heads::{FunctionHead, Header, Shape};
pub use image::Image;
pub use reading::{
    block_of, function_head_of, header_of, parse, ranges_of, shape_bytes, shapes_of,
};
pub use sbx_parts::{
    Block, Cell, Function, ImageFault, Items, Kind, Next, Parts, Range, Region, Services, Term,
    behind,
};
pub use writing::write;
