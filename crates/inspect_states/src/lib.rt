//! States of a machine told for programs, a line a turn: what it showed before the turn, the word, what happened, and
//! what changed; and the states of an image's run.
#![tactic(auto)]

mod accesses;
mod columns;
mod loaded;
mod registers;
mod run;
mod shown;
mod teller;
mod turns;
mod words;

pub use loaded::{machine_of, memory_of, regs};
pub use run::{run_fault, state_windows};
pub use shown::{ShownState, shown_of};
pub use teller::StateTeller;
pub use turns::tell_states;
