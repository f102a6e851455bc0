//! Which pages' entries the turns of a loaded board mark: each turn's are those of its fetch and of its access.
#![tactic(auto)]

pub mod laws;
