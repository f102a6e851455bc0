//! The little language: runs of its programs, and their lines as C. Tests whose expected values were worked out by hand.
#![tactic(auto)]

#[cfg(test)]
mod runs;
#[cfg(test)]
mod texts;
