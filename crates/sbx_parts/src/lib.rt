//! What an image is made of, and the limits and orders that its parts keep.
#![tactic(auto)]

mod checking;
mod fault;
mod items;
pub mod laws;
mod lists;
mod order;
mod parts;
mod regions;
mod services;
mod widths;

pub use fault::ImageFault;
pub use items::Items;
pub use order::{Next, admits, is_coefficient, is_fuel};
pub use parts::{Block, Cell, Function, Kind, Parts, Range, Region, Term};
pub use regions::{behind, byte_count, holds, is_length_behind, pages_for, start_of};
pub use services::{Services, services_of};
