//! Numbers, traps, fault statuses, bytes and marks of pages as text.
#![tactic(auto)]

mod faults;
mod marks;
mod output;
mod sheets;
mod traps;

pub use faults::FaultStatus;
pub use marks::push_marks;
pub use output::push_output;
pub use sheets::{MARGIN, WIDTH};
pub use traps::{Trap, trap_name};
