//! A program of the little language as C: a line a statement, with the words of the header `geyserpan_native.h`.
//! The text reads back as the program.
#![tactic(auto)]

mod data;
mod expressions;
mod points;
mod programs;
mod statements;
mod text;

pub use programs::{ImageNote, write_program};
pub use text::ProgramText;
