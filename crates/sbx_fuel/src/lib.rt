//! Whether fuel lasts: from one block to the next, to the end of a run or a function, and within a function's budget.
#![tactic(auto)]

mod edges;
mod starts;
mod sums;

pub use edges::{is_enough, is_within_budget, lasts, names_strange};
pub use starts::fuel_terms;
