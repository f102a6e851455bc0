//! An accepted image as a program of the little language: a block for each of the image's, one for each place behind a
//! call, one for the returns of each function, and one for each annulled delay slot. It is proved that the program is a
//! translation of the image, and so that its runs are the image's (`native_ends`).
#![tactic(auto)]

mod blocks;
mod data;
mod labels;
mod program;
mod returns;
mod transfers;
mod translation;

pub use program::translate;
