//! The calls of runs in pieces.
ghost use Rattle.std.specs.Prelude.{◌≡◌, ◌≢◌, None};
ghost use Rattle.geyserpan.specs.Images.{RunDenialOf};
ghost use Rattle.geyserpan.specs.Runs.{BeginsOf, BeginsOn, IsForOthers, IsLacking, StepsSo, met_of};

use crate::image_handle::ImageHandle;
use crate::run_handle::RunHandle;
use crate::run_slot::{Done, RunSlot};
use crate::statuses::{HANDLE, MEMORY, OK, WINDOWS};
use crate::terms::Terms;
use std::alloc::Global;

/// Makes the handle of a run, which holds none.
#[unsafe(no_mangle)]
pub extern "C" fn geyserpan_run_new(alloc: Global, handle: &mut *mut u8) -> u32
    ensures stays { result ≢ OK → handle.new ≡ handle.old }
{
    match Box::new(alloc, RunSlot { going: None }) {
        Ok(slot) => {
            let (at, _alloc) = Box::into_raw_with_allocator(slot);
            *handle = at as *mut u8;
            OK
        }
        Err(_failed) => MEMORY,
    }
}

/// Lets a handle go, with its board.
#[unsafe(no_mangle)]
pub extern "C" fn geyserpan_run_free(handle: RunHandle) {
    drop(handle.loosen().into_box());
}

/// Begins a run of the image that a handle holds, on the board that the other one holds, else on a new one.
#[unsafe(no_mangle)]
pub extern "C" fn geyserpan_begin(
    alloc: Global,
    run: &mut RunHandle,
    image: &mut ImageHandle,
) -> u32
    ensures begun { result ≡ OK → BeginsOf image.old.value run.new.value }
    ensures stays { result ≢ OK → run.new.value ≡ run.old.value }
    ensures image { image.new.value ≡ image.old.value }
    ensures windows { result ≡ WINDOWS → IsForOthers image.old.value }
    ensures empty { result ≡ HANDLE → image.old.value.kept ≡ None }
{
    match &image.lent().kept {
        Some(kept) => run.lent().begin(alloc, kept, &kept.terms),
        None => HANDLE,
    }
}

/// The same on terms of the run's own.
#[unsafe(no_mangle)]
pub extern "C" fn geyserpan_begin_with(
    alloc: Global,
    run: &mut RunHandle,
    image: &mut ImageHandle,
    terms: &Terms,
) -> u32
    ensures begun { result ≡ OK → BeginsOn image.old.value terms.now run.new.value }
    ensures stays { result ≢ OK → run.new.value ≡ run.old.value }
    ensures image { image.new.value ≡ image.old.value }
    ensures windows { result ≡ WINDOWS → terms.now.windows ≢ 8 }
    ensures denied { RunDenialOf image.old.value terms.now result }
    ensures empty { result ≡ HANDLE → image.old.value.kept ≡ None }
{
    match &image.lent().kept {
        Some(kept) => run.lent().begin_with(alloc, kept, terms),
        None => HANDLE,
    }
}

/// Begins a run of the image that a handle holds, on the board that the other one holds.
#[unsafe(no_mangle)]
pub extern "C" fn geyserpan_restart(run: &mut RunHandle, image: &mut ImageHandle) -> u32
    ensures begun { result ≡ OK → BeginsOf image.old.value run.new.value }
    ensures stays { result ≢ OK → run.new.value ≡ run.old.value }
    ensures image { image.new.value ≡ image.old.value }
    ensures windows { result ≡ WINDOWS → IsForOthers image.old.value }
    ensures empty { result ≡ HANDLE → IsLacking image.old.value run.old.value }
{
    match &image.lent().kept {
        Some(kept) => run.lent().restart(kept, &kept.terms),
        None => HANDLE,
    }
}

/// Goes on with a run, at most so many turns: reads of the piece, behind which there is no input where `last` isn't 0,
/// and writes to the front of the room.
#[unsafe(no_mangle)]
pub extern "C" fn geyserpan_step(
    run: &mut RunHandle,
    turns: u64,
    input: &[u8],
    last: u32,
    room: &mut [u8],
    done: &mut Done,
) -> u32
    ensures steps { StepsSo run.old.value run.new.value turns input.now last room.old room.new done.new result }
    ensures empty { result ≡ HANDLE → (done.new ≡ done.old) × (run.new.value ≡ run.old.value) }
    ensures met { last ≡ 0 → met_of run.new.value ≡ met_of run.old.value }
{
    match &mut run.lent().going {
        Some(going) => going.step(turns, input, last != 0, room, done),
        None => HANDLE,
    }
}

/// Lets the run and the board go, and keeps the handle.
#[unsafe(no_mangle)]
pub extern "C" fn geyserpan_end(run: &mut RunHandle)
    ensures { run.new.value.going ≡ None }
{
    run.lent().going = None;
}
