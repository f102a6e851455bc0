//! The data of a page that shows a run of an image: what the image declares, the verdict on it, its source, and what
//! each turn changed, as lines in an alphabet that has no markup.
#![tactic(auto)]

mod accesses;
mod alphabet;
mod changes;
mod declared;
mod digits;
mod events;
mod named;
mod operands;
mod page;
mod run;
mod source;
mod tables;
mod teller;
mod verdict;

pub use page::page_windows;
