//! What fits what the verifier knows before a word fits what it knows after it, operation by operation.
#![tactic(auto)]

pub mod laws;
