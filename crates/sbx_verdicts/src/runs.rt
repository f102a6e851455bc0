//! Runs, as lines have them.
ghost use Rattle.std.specs.Prelude.{IfOk};

use crate::faults::LineFault;
use crate::fields::{bytes, count, fields, word};
use std::alloc::Global;

/// Turns, and how often there was no window to save to or to restore from.
#[derive(Clone, Copy, PartialEq, Eq)]
pub struct Counts {
    pub turns: u64,
    pub overflows: u64,
    pub underflows: u64,
}

/// A run as a line has it: on how many windows, on which input, and what it gives.
#[derive(Drop)]
pub struct Run {
    pub windows: u32,
    pub input: Vec<u8>,
    pub status: u32,
    pub output: Vec<u8>,
    pub counts: Counts,
}

/// The counts of three fields.
fn counts_in(turns: &str, overflows: &str, underflows: &str) -> Result<Counts, LineFault> {
    match (count(turns), count(overflows), count(underflows)) {
        (Ok(turns), Ok(overflows), Ok(underflows)) => Ok(Counts {
            turns,
            overflows,
            underflows,
        }),
        _ => Err(LineFault::NotRead),
    }
}

/// The run of its numbers, and of the fields of its bytes.
fn run_with(
    alloc: Global,
    windows: u32,
    input: &str,
    status: u32,
    output: &str,
    counts: Counts,
) -> Result<Run, LineFault> {
    let input = bytes(alloc, input)?;
    let output = bytes(alloc, output)?;
    Ok(Run {
        windows,
        input,
        status,
        output,
        counts,
    })
}

/// The run of these fields.
fn run_of(alloc: Global, fields: &[&str]) -> Result<Run, LineFault> {
    let [windows, input, status, output, turns, overflows, underflows] = fields else {
        return Err(LineFault::NotRead);
    };
    let counts = counts_in(turns, overflows, underflows)?;
    match (word(windows, 10), word(status, 16)) {
        (Ok(windows), Ok(status)) => run_with(alloc, windows, input, status, output, counts),
        _ => Err(LineFault::NotRead),
    }
}

/// The run that stands in a text: `WINDOWS INPUT STATUS OUTPUT TURNS OVERFLOWS UNDERFLOWS`.
pub fn run_in(alloc: Global, text: &str) -> Result<Run, LineFault> {
    let fields = fields(alloc, text)?;
    run_of(alloc, &fields)
}
