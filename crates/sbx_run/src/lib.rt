//! Runs of images on the board: of accepted images to their end, of any image up to a limit, and its trace.
#![tactic(auto)]

mod boards;
pub mod laws;
mod limits;
mod runner;
mod windows;

pub use boards::{Ended, run_board};
pub use limits::tells_limits;
pub use runner::{Finished, run_accepted};
pub use sbx_image::{Image, ImageFault, Services};
pub use sbx_raw::{Ending, Outcome, PageUse, Raw, RunFault, run_raw, trace};
pub use sbx_verify::{Accepted, Cause, Refusal, budget};
pub use windows::run_windows;
