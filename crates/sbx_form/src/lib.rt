//! Linear forms: a constant plus multiples of the numbers that a block's cells start with.
#![tactic(auto)]

pub mod laws;
mod least;
mod terms;

pub use least::{least_term, least_terms, plus};
pub use terms::{FormTerm, add_term, add_terms};
