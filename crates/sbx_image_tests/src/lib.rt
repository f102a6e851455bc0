//! The image format on its worked images, its bounds, and parts that break one rule; and images that come in pieces:
//! each cut, each size of piece, and each fault at the byte where it is told. Tests whose expected values come from the
//! format's tables.
#![tactic(auto)]

pub mod examples;
#[cfg(test)]
mod pieces;
#[cfg(test)]
mod tests;
