// The machine turn of SPARC V8: a processor and a bus.
//
// These functions are there for the compiler alone, and who reads what a turn does may pass over them:
// - `move_apart`, `attempt_apart` and `rare_apart` are `move_anew`, `attempt_anew` and `run_rare`, which aren't
//   inlined, as the code around them sees them: the answer, which lies in memory, is made a value there alone.
// - `move_normal` is `run_normal` in the same way, but that words, which move most often, are loaded by `load_word` and
//   stored by `store_word`, whose size is known where they are compiled.
// - `run_transfer` is `transfer_by` once for each kind of transfer, in which the kind isn't asked again.
#![tactic(auto)]

mod access;
mod execution;
mod machine;
mod step;
mod turn;

pub use machine::Machine;
pub use turn::{DataAccess, Event, Turn};
