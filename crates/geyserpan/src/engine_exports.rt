//! The calls of runs on the engine.
ghost use Rattle.std.specs.Prelude.{◌≡◌, ◌≢◌, ◌<◌, length, None, Some};
ghost use Rattle.geyserpan.specs.Denials.{HasWindows};
ghost use Rattle.geyserpan.specs.Engines.{BeginsOf, BeginsOn, StepsSo};
ghost use Rattle.geyserpan.specs.EngineReports.{HasReportOf, HasRunOf, IsTooMuchOf};
ghost use Rattle.geyserpan.specs.Images.{RunDenialOf};
ghost use Rattle.geyserpan.specs.declared.engine_slot.EngineRun.{EngineRun};

use crate::engine_handle::EngineHandle;
use crate::engine_running::run_engine_into;
use crate::engine_slot::EngineSlot;
use crate::image_handle::ImageHandle;
use crate::run_slot::Done;
use crate::running::Report;
use crate::statuses::{HANDLE, MEMORY, OK, OUTPUT, ROOM, WINDOWS};
use crate::terms::Terms;
use std::alloc::Global;

/// Makes the handle of a run on the engine, which holds none.
#[unsafe(no_mangle)]
pub extern "C" fn geyserpan_engine_new(alloc: Global, handle: &mut *mut u8) -> u32
    ensures stays { result ≢ OK → handle.new ≡ handle.old }
{
    match Box::new(alloc, EngineSlot { run: None }) {
        Ok(slot) => {
            let (at, _alloc) = Box::into_raw_with_allocator(slot);
            *handle = at as *mut u8;
            OK
        }
        Err(_failed) => MEMORY,
    }
}

/// Lets a handle go, with its run.
#[unsafe(no_mangle)]
pub extern "C" fn geyserpan_engine_free(handle: EngineHandle) {
    drop(handle.loosen().into_box());
}

/// Begins a run of the image that a handle holds, in the place of the one that the other holds.
#[unsafe(no_mangle)]
pub extern "C" fn geyserpan_engine_begin(
    alloc: Global,
    engine: &mut EngineHandle,
    image: &mut ImageHandle,
) -> u32
    ensures begun { result ≡ OK → BeginsOf image.old.value engine.new.value }
    ensures stays { result ≢ OK → engine.new.value ≡ engine.old.value }
    ensures image { image.new.value ≡ image.old.value }
    ensures empty { result ≡ HANDLE → image.old.value.kept ≡ None }
{
    match &image.lent().kept {
        Some(kept) => engine.lent().begin(alloc, kept, &kept.terms),
        None => HANDLE,
    }
}

/// The same on terms of the run's own.
#[unsafe(no_mangle)]
pub extern "C" fn geyserpan_engine_begin_with(
    alloc: Global,
    engine: &mut EngineHandle,
    image: &mut ImageHandle,
    terms: &Terms,
) -> u32
    ensures begun { result ≡ OK → BeginsOn image.old.value terms.now engine.new.value }
    ensures stays { result ≢ OK → engine.new.value ≡ engine.old.value }
    ensures image { image.new.value ≡ image.old.value }
    ensures windows { result ≡ WINDOWS → HasWindows terms.now → ⊥ }
    ensures denied { RunDenialOf image.old.value terms.now result }
    ensures empty { result ≡ HANDLE → image.old.value.kept ≡ None }
{
    match &image.lent().kept {
        Some(kept) => engine.lent().begin_with(alloc, kept, terms),
        None => HANDLE,
    }
}

/// Goes on with a run, at most so many turns: reads of the piece, behind which there is no input where `last` isn't 0,
/// and writes to the front of the room.
#[unsafe(no_mangle)]
pub extern "C" fn geyserpan_engine_step(
    engine: &mut EngineHandle,
    turns: u64,
    input: &[u8],
    last: u32,
    room: &mut [u8],
    done: &mut Done,
) -> u32
    ensures steps { (run : EngineRun) → engine.old.value.run ≡ Some run →
        StepsSo run engine.new.value turns input.now last room.old room.new done.new result }
    ensures empty { engine.old.value.run ≡ None → (result ≡ HANDLE) × (room.new ≡ room.old) × (done.new ≡ done.old)
        × (engine.new.value ≡ engine.old.value) }
{
    match &mut engine.lent().run {
        Some(run) => run.step(turns, input, last != 0, room, done),
        None => HANDLE,
    }
}

/// Lets the run go, and keeps the handle.
#[unsafe(no_mangle)]
pub extern "C" fn geyserpan_engine_end(engine: &mut EngineHandle)
    ensures { engine.new.value.run ≡ None }
{
    engine.lent().run = None;
}

/// Runs the image that a handle holds to its end on the engine, on the terms that it was opened with.
#[unsafe(no_mangle)]
pub extern "C" fn geyserpan_engine_run(
    alloc: Global,
    handle: &mut ImageHandle,
    input: &[u8],
    room: &mut [u8],
    report: &mut Report,
) -> u32
    ensures ran { result ≡ OK → HasRunOf handle.old.value input.now room.old room.new report.new }
    ensures stays { result ≢ OK → room.new ≡ room.old }
    ensures longer { result ≡ OUTPUT → IsTooMuchOf handle.old.value input.now report.new }
    ensures small { result ≡ ROOM →
        HasReportOf handle.old.value input.now report.new × (length room.old < report.new.output) }
    ensures untold { result ≢ OK → result ≢ ROOM → result ≢ OUTPUT → report.new ≡ report.old }
    ensures empty { handle.old.value.kept ≡ None → result ≡ HANDLE }
    ensures holds { result ≡ HANDLE → handle.old.value.kept ≡ None }
    ensures kept { handle.new.value ≡ handle.old.value }
{
    match &handle.lent().kept {
        Some(kept) => run_engine_into(alloc, kept.opened(), &kept.terms, input, room, report),
        None => HANDLE,
    }
}
