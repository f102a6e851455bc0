//! What holds of page tables that stand higher in physical memory, as on a processor whose RAM doesn't begin at 0, and
//! speak of places as much higher.
#![tactic(auto)]

pub mod laws;
