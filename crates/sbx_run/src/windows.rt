//! Runs of accepted images, by a count of windows that is a number.
ghost use Rattle.std.specs.Prelude.{◌≤◌};
ghost use Rattle.sbx_run.specs.Answer.{AnswersOn};

use crate::runner::{Finished, run_accepted};
use sbx_counts::on_windows;
use sbx_raw::RunFault;
use sbx_verify::Accepted;
use std::alloc::Global;

/// A run on `N` windows.
fn run_on<const N: usize>(
    alloc: Global,
    accepted: &Accepted,
    input: &[u8],
) -> Option<Result<Finished, RunFault>>
    requires { (4 ≤ N) × (N ≤ 32) }
    ensures { AnswersOn accepted.now N input.now result }
{
    Some(run_accepted::<N>(alloc, accepted, input))
}

/// A run on so many windows, each count of which is a machine of its own.
fn run_within(
    alloc: Global,
    windows: u32,
    accepted: &Accepted,
    input: &[u8],
) -> Option<Result<Finished, RunFault>>
    requires { (4 ≤ windows) × (windows ≤ 32) }
    ensures { AnswersOn accepted.now windows input.now result }
{
    on_windows!(windows, run_on [] (alloc, accepted, input), 4 to 32)
}

/// Runs an accepted image on an input to its end on so many windows, as `run_accepted` does; None exactly below 4 and
/// above 32.
pub fn run_windows(
    alloc: Global,
    windows: u32,
    accepted: &Accepted,
    input: &[u8],
) -> Option<Result<Finished, RunFault>>
    ensures { AnswersOn accepted.now windows input.now result }
{
    if windows < 4 || 32 < windows {
        return None;
    }
    run_within(alloc, windows, accepted, input)
}
