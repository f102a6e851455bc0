//! Run-time tests: how what isn't shown is tested, what tests ask for, as notes to the author, and their blocks.
mod insert;
mod plan;
mod shown;

pub use insert::{subtracting, take_division};
pub use plan::{SUM, Test, TestKind, TestPlan, TestWay, plan_of};
pub use shown::TestLine;
