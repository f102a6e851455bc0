//! A bound on an accepted image's runs in cycles of a processor: its budget, times what the dearest piece of its blocks
//! takes by the turn.
//!
//! A piece runs whole: it is a block, or of one that calls the words up to a call's slot. How it is proved that this
//! bounds runs: each step goes to nPC (`proofs/Flow.antt`), which is the next word of the piece or the first one of a
//! piece (`proofs/Where.antt`); so what was taken, less what the last piece took so far, is within what the turns pay,
//! and a run that hasn't ended goes on to its end (`proofs/Paid.antt`).
#![tactic(auto)]

mod bound;
mod pieces;
mod reading;
mod table;

pub use bound::{CycleBound, most_beside_services, most_cycles};
pub use pieces::{Piece, dearest_of};
pub use reading::{RowCause, TableFault, read_table};
pub use table::{CycleTable, cycles_of};
