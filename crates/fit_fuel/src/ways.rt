//! Costs in fuel of the ways out of blocks, and the least constants that pay for them.
mod fuel;
mod longest;
mod sums;
mod weights;

pub use fuel::{FunctionFuel, METER, WayOut};
pub use longest::{constant_at, settle};
pub use sums::LinearSum;
