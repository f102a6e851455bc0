//! Runs of an accepted image on the fast flat machine, beside a line's run.
ghost use Rattle.std.specs.Prelude.{◌≡◌, ◌↔◌, IfOk, IsTrue};
ghost use Rattle.sbx_verdicts.specs.Engine.{EngineRunsSo, IsRun, counts_told};

use crate::runs::{Counts, Run};
use engine_runs::{Accepted, FlatFinished, run_flat};
use std::alloc::{AllocError, Global};

/// The counts of a run that has ended.
fn counts_of(finished: &FlatFinished) -> Counts
    ensures { result ≡ counts_told finished.now }
{
    Counts {
        turns: finished.turns,
        overflows: finished.overflows,
        underflows: finished.underflows,
    }
}

/// Whether a run that has ended gave what the line has.
fn is_run(finished: &FlatFinished, run: &Run) -> bool
    ensures { IsTrue result ↔ IsRun finished.now run.now }
{
    finished.status == run.status
        && finished.output.as_slice() == run.output.as_slice()
        && counts_of(finished) == run.counts
}

/// Whether the image's run on the fast flat machine, on the line's input and with its counts on as many windows, gives
/// what the line has.
pub fn runs_on_engine(alloc: Global, accepted: &Accepted, run: &Run) -> Result<bool, AllocError>
    ensures { IfOk result (λ same. IsTrue same → EngineRunsSo accepted.now run.now) }
{
    if run.windows < 2 {
        return Ok(false);
    }
    let finished = run_flat(alloc, accepted, run.windows, run.input.as_slice())?;
    Ok(is_run(&finished, run))
}
