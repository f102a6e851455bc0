//! The layout of a loaded board: its tables, and the address map that they spell.
#![tactic(auto)]

pub mod laws;
mod tables;

pub use tables::{Pages, page_tables};
