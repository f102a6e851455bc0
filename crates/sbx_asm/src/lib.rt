//! The assembler: a source becomes an image, or its first fault is told.
#![tactic(auto)]

mod annotations;
mod assembling;
mod checking;
mod context;
mod data;
mod fault;
mod finish;
mod functions;
mod kinds;
pub mod laws;
mod lines;
mod notes;
mod operands;
mod own;
mod parts;
mod place;
mod reading;
mod rules;
mod scope;
mod survey;
mod table;
mod text;

pub use assembling::assemble;
pub use fault::{AsmFault, Cause};
pub use lines::first_line;
pub use place::LocationCounter;
pub use reading::Line;
pub use scope::Scope;
pub use survey::{Survey, survey_lines};
pub use table::Table;
pub use text::Text;
