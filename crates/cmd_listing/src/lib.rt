//! The listing of code: a line for each word.
#![tactic(auto)]

mod listing;

pub use listing::put_listing;
