//! Files by their paths and what is wrong with one, by name; the standard streams of a program.
#![tactic(auto)]

mod conversing;
mod counting;
mod faults;
mod opening;
mod words;

pub use conversing::{Hearer, Speaker};
pub use counting::Counted;
pub use faults::FileFault;
pub use opening::{Held, hold_streams, open_file};
pub use words::command_words;
