//! What is told of images, of runs and of refusals as JSON, for programs to read: an object on a line, whose members
//! stand in a fixed order.
#![tactic(auto)]

mod findings;
mod images;
mod lists;
mod members;
mod runs;
mod verdicts;

pub use findings::check_line;
pub use images::image_line;
pub use runs::run_line;
pub use verdicts::verdict_line;
