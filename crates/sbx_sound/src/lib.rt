//! Why checked images are safe on the flat machine.
//!
//! Its laws: an image that breaks no rule is flat-safe; some of a block's fuel is left before each of its words; and
//! what is read from bytes is an image as these laws take it.
//!
//! How they are proved: what all runs of an image over one input share stands in `proofs/Shared.antt`, and where a run
//! may stand, with its open calls and its ledger of fuel, in `proofs/Running.antt`. From each such place a run comes to
//! another one, or ends: by words that control comes to straight (`proofs/EachWord.antt`), and the slots of calls,
//! returns and branches (`proofs/Calling.antt`, `proofs/Returning.antt`, `proofs/Branching.antt`). Fuel is positive
//! since it falls along a run of numbers that looks at no multiples (`proofs/Onward.antt`), and is bounded below
//! (`proofs/Bounded.antt`).
#![tactic(auto)]

pub mod laws;

pub use sbx_rules::{Cause, Refusal};
