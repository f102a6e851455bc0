//! The services of a LEON3 whose input and output lie in RAM, turn by turn: what `exit`, `get` and `put` do to the
//! mailbox, the registers and the condition codes, for every count of windows and wherever RAM begins.
#![tactic(auto)]

pub mod laws;
