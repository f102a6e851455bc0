//! Runs on the engine whose output goes into room of the caller's. Here alone a run to its end is made on it.
ghost use Rattle.std.specs.Prelude.{◌≡◌, ◌≢◌, ◌<◌, ◌≤◌, length};
ghost use Rattle.geyserpan.specs.EngineReports.{HasReport, HasRun, Tells};

use crate::room::hand_on;
use crate::running::Report;
use crate::statuses::{HANDLE, MEMORY, OK, OUTPUT, ROOM, WINDOWS};
use crate::terms::{LEAST_WINDOWS, Terms};
use engine_runs::{FlatFinished, Opened, run_opened};
use std::alloc::Global;

/// The report of a run on the engine, which has no pages.
fn report_of(finished: &FlatFinished) -> Report
    ensures { Tells finished.now result }
{
    Report {
        turns: finished.turns,
        overflows: finished.overflows,
        underflows: finished.underflows,
        output: finished.output.len() as u64,
        referenced: [0; 3],
        modified: [0; 3],
        exit: finished.status,
        zero: 0,
    }
}

/// Runs an image to its end, counts on the terms' windows, and writes its output to the front of the room.
pub fn run_engine_into(
    alloc: Global,
    opened: &Opened,
    terms: &Terms,
    input: &[u8],
    room: &mut [u8],
    report: &mut Report,
) -> u32
    ensures ran { result ≡ OK → HasRun opened.now terms.now.windows input.now room.old room.new report.new }
    ensures stays { result ≢ OK → room.new ≡ room.old }
    ensures granted { result ≡ OK → report.new.output ≤ terms.now.output }
    ensures untold { result ≢ OK → result ≢ ROOM → result ≢ OUTPUT → report.new ≡ report.old }
    ensures longer { result ≡ OUTPUT → HasReport opened.now terms.now.windows input.now report.new
        × (terms.now.output < report.new.output) }
    ensures small { result ≡ ROOM → HasReport opened.now terms.now.windows input.now report.new
        × (length room.old < report.new.output) }
    ensures holds { result ≢ HANDLE }
{
    if terms.windows < LEAST_WINDOWS {
        return WINDOWS;
    }
    match run_opened(alloc, opened, terms.windows, input) {
        Err(_refused) => MEMORY,
        Ok(finished) => {
            *report = report_of(&finished);
            hand_on(finished.output.as_slice(), terms.output, room)
        }
    }
}
