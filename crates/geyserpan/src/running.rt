//! Runs whose output goes into room of the caller's. Here alone a run to its end is made.
ghost use Rattle.std.specs.Prelude.{◌≡◌, ◌≢◌, ◌<◌, ◌≤◌, ℕ, List, length};
ghost use Rattle.geyserpan.specs.Denials.{HasWindows, IsDenial};
ghost use Rattle.geyserpan.specs.Reports.{HasReport, HasRun, Tells};
ghost use Rattle.geyserpan.specs.declared.terms.Terms.{Terms};
ghost use Rattle.geyserpan.specs.declared.terms.Why.{Why};

use crate::room::hand_on;
use crate::statuses::{HANDLE, MEMORY, OK, OUTPUT, ROOM, WINDOWS};
use crate::terms::{Terms, Why};
use sbx_run::{Accepted, Finished, run_windows};
use std::alloc::Global;

/// What a run gave: the turns, how often there was no window to save to or to restore from, the length of the output,
/// which pages of code, data and stack were referenced and modified, and the exit word.
#[repr(C)]
#[derive(Clone, Copy)]
pub struct Report {
    pub turns: u64,
    pub overflows: u64,
    pub underflows: u64,
    pub output: u64,
    pub referenced: [u64; 3],
    pub modified: [u64; 3],
    pub exit: u32,
    pub zero: u32,
}

/// The report of a run.
fn report_of(finished: &Finished) -> Report
    ensures { Tells finished.now result }
{
    Report {
        turns: finished.turns,
        overflows: finished.overflows,
        underflows: finished.underflows,
        output: finished.output.len() as u64,
        referenced: finished.pages.referenced,
        modified: finished.pages.modified,
        exit: finished.status,
        zero: 0,
    }
}

/// Runs an accepted image to its end on the terms' windows, and writes its output to the front of the room.
pub fn run_into(
    alloc: Global,
    accepted: &Accepted,
    terms: &Terms,
    input: &[u8],
    room: &mut [u8],
    report: &mut Report,
) -> u32
    ensures ran { result ≡ OK → HasRun accepted.now terms.now.windows input.now room.old room.new report.new }
    ensures stays { result ≢ OK → room.new ≡ room.old }
    ensures granted { result ≡ OK → report.new.output ≤ terms.now.output }
    ensures untold { result ≢ OK → result ≢ ROOM → result ≢ OUTPUT → report.new ≡ report.old }
    ensures longer { result ≡ OUTPUT → HasReport accepted.now terms.now.windows input.now report.new
        × (terms.now.output < report.new.output) }
    ensures small { result ≡ ROOM → HasReport accepted.now terms.now.windows input.now report.new
        × (length room.old < report.new.output) }
    ensures holds { result ≢ HANDLE }
    ensures denies_not { HasWindows terms.now → (bytes : List ℕ) → (of : Terms) → (why : Why) →
        IsDenial bytes of result why }
{
    match run_windows(alloc, terms.windows, accepted, input) {
        None => WINDOWS,
        Some(Err(_fault)) => MEMORY,
        Some(Ok(finished)) => {
            *report = report_of(&finished);
            hand_on(finished.output.as_slice(), terms.output, room)
        }
    }
}
