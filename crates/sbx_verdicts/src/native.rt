//! Runs of the program that an accepted image is translated to, beside a line's run.
use crate::runs::{Counts, Run};
use native_flow::translate;
use native_lang::{ProgramRun, ProgramStep, run_program};
use sbx_run::Accepted;
use std::alloc::{AllocError, Global};

/// The counts of a run that has ended.
fn counts_of(ran: &ProgramRun<'_>) -> Counts {
    Counts {
        turns: ran.machine.traffic.turns,
        overflows: ran.machine.traffic.overflows,
        underflows: ran.machine.traffic.underflows,
    }
}

/// Whether a run is over, and gave what the line has.
fn is_run(ran: &ProgramRun<'_>, run: &Run) -> bool {
    match ran.stepped {
        ProgramStep::Over(word) => {
            word == run.status
                && ran.machine.output.as_slice() == run.output.as_slice()
                && counts_of(ran) == run.counts
        }
        ProgramStep::On | ProgramStep::Lost => false,
    }
}

/// Whether the run of the image's program, on the line's input and with its counts on as many windows, gives what the line
/// has, by the language's interpreter.
pub fn runs_as_program(alloc: Global, accepted: &Accepted, run: &Run) -> Result<bool, AllocError> {
    if run.windows < 2 {
        return Ok(false);
    }
    let program = translate(alloc, accepted)?;
    let input = run.input.as_slice();
    let ran = run_program(alloc, &program, run.windows, input, u32::MAX)?;
    Ok(is_run(&ran, run))
}
