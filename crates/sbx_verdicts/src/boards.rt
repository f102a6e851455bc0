//! Runs of an accepted image on boards, beside a line's run.
ghost use Rattle.std.specs.Prelude.{◌≡◌, ◌↔◌, IfOk, IsTrue};
ghost use Rattle.sbx_verdicts.specs.Runs.{BoardRunsSo, IsRun, counts_told};

use crate::faults::LineFault;
use crate::runs::{Counts, Run};
use sbx_run::{Accepted, Finished, RunFault, run_windows};
use std::alloc::Global;

/// The counts of a run that has ended.
fn counts_of(finished: &Finished) -> Counts
    ensures { result ≡ counts_told finished.now }
{
    Counts {
        turns: finished.turns,
        overflows: finished.overflows,
        underflows: finished.underflows,
    }
}

/// Whether a run that has ended gave what the line has.
fn is_run(finished: &Finished, run: &Run) -> bool
    ensures { IsTrue result ↔ IsRun finished.now run.now }
{
    finished.status == run.status
        && finished.output.as_slice() == run.output.as_slice()
        && counts_of(finished) == run.counts
}

/// Whether the image's run on a board of as many windows as the line has, on its input, gives what the line has.
pub fn runs_on_board(alloc: Global, accepted: &Accepted, run: &Run) -> Result<bool, LineFault>
    ensures { IfOk result (λ same. IsTrue same → BoardRunsSo accepted.now run.now) }
{
    match run_windows(alloc, run.windows, accepted, run.input.as_slice()) {
        Some(Ok(finished)) => Ok(is_run(&finished, run)),
        Some(Err(RunFault::Memory(want))) => Err(LineFault::Memory(want)),
        // (a board's port has no other fault, and an unknown count of windows no run)
        Some(Err(RunFault::Reader | RunFault::Writer)) | None => Err(LineFault::NotRead),
    }
}
