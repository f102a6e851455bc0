//! Run-time tests of what isn't shown: a compare, and a branch to an end of the run whose exit word tells kind and
//! line. Nothing rests on them, since the verifier asks all again.
#![tactic(auto)]

mod asks;
mod forms;
mod naming;
mod settling;
mod sweep;
mod undefined;

pub use asks::{Asking, asks_of};
pub use settling::{TestOptions, add_tests};
