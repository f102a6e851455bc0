//! Which test an access or a divisor gets of which too little is shown, and the blocks of that test; sums of which more
//! is known if they are written in another way. Nothing rests on it, since the verifier asks all again.
#![tactic(auto)]

mod lacks;
mod plans;
mod shifted;

pub use lacks::{Ask, NotShown, UnshownAccess, needed_alignment};
pub use plans::{SUM, Test, TestKind, TestPlan, TestWay, plan_of, subtracting, take_division};
pub use shifted::{live_behind, shorten_steps};
