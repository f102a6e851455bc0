//! The statements of words that compute, in the little language: results, condition codes and Y. They are proved to do
//! what the flat machine's operations do.
#![tactic(auto)]

pub mod codes;
pub mod expressions;
mod recipes;
mod results;
mod statements;

pub use statements::Statements;
