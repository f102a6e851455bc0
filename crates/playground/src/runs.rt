//! The calls of runs: of any image, on so many windows, to an end, but at most so many turns.
ghost use Rattle.std.specs.Prelude.{◌≡◌, ◌≢◌, ◌<◌, ◌≤◌, ℕ, IfErr, IfOk, List, false, true};
ghost use Rattle.playground.specs.Denials.{IsOfImage};
ghost use Rattle.playground.specs.Rooms.{Handed, NeedsMore};
ghost use Rattle.playground.specs.Told.{IsRunLine, IsStatesText, IsTraceText, SpellNone};

use crate::denied::{Denied, MEMORY, NO_IMAGE, OK, ROOM, WINDOWS, status_of};
use crate::images::image_in;
use crate::room::hand_on;
use inspect_json::run_line;
use inspect_run::{Progress, run_windows, watch_windows};
use inspect_states::state_windows;
use sbx_raw::RunFault;
use std::alloc::Global;

/// Nobody is told how far a run has come.
#[derive(Clone, Copy)]
struct Untold;

impl Progress for Untold {
    fn made(&mut self, _turns: u64) {}
}

/// Why a run has no text, whose input is a slice, and whose text is written to a vector.
pub fn denied_by(fault: RunFault) -> Denied
    ensures { (bytes : List ℕ) → IsOfImage bytes result }
{
    match fault {
        RunFault::Memory(want) => Denied::Memory(want),
        RunFault::Reader | RunFault::Writer => Denied::Unwritten,
    }
}

/// Whether there is a machine of so many windows.
pub fn is_count(windows: u32) -> bool
    ensures yes { result ≡ true → (4 ≤ windows) × (windows ≤ 32) }
    ensures no { result ≡ false → 4 ≤ windows → 32 < windows }
{
    4 <= windows && windows <= 32
}

/// The turns of a run.
#[tactic(auto, using(crate::proofs::Written::wrote_all))]
fn traced(
    alloc: Global,
    bytes: &[u8],
    windows: u32,
    limit: u64,
    input: &[u8],
) -> Result<Vec<u8>, Denied>
    requires { (4 ≤ windows) × (windows ≤ 32) }
    ensures told { IfOk result (λ text. IsTraceText bytes.now windows limit input.now text.items) }
    ensures none { IfErr result (IsOfImage bytes.now) }
{
    let image = image_in(alloc, bytes)?;
    let mut out = Vec::new(alloc);
    let mut untold = Untold;
    match watch_windows(alloc, windows, &image, input, limit, &mut out, &mut untold) {
        Ok(()) => Ok(out),
        Err(fault) => Err(denied_by(fault)),
    }
}

/// The states of a run.
#[tactic(auto, using(crate::proofs::Written::wrote_all))]
fn stated(
    alloc: Global,
    bytes: &[u8],
    windows: u32,
    limit: u64,
    input: &[u8],
) -> Result<Vec<u8>, Denied>
    requires { (4 ≤ windows) × (windows ≤ 32) }
    ensures told { IfOk result (λ text. IsStatesText bytes.now windows limit input.now text.items) }
    ensures none { IfErr result (IsOfImage bytes.now) }
{
    let image = image_in(alloc, bytes)?;
    let mut out = Vec::new(alloc);
    match state_windows(alloc, windows, &image, input, limit, &mut out) {
        Ok(()) => Ok(out),
        Err(fault) => Err(denied_by(fault)),
    }
}

/// What a run gave, as a line of JSON.
fn ran(
    alloc: Global,
    bytes: &[u8],
    windows: u32,
    limit: u64,
    input: &[u8],
) -> Result<Vec<u8>, Denied>
    requires { (4 ≤ windows) × (windows ≤ 32) }
    ensures told { IfOk result (λ text. IsRunLine bytes.now windows limit input.now text.items) }
    ensures none { IfErr result (IsOfImage bytes.now) }
{
    let image = image_in(alloc, bytes)?;
    let mut untold = Untold;
    match run_windows(alloc, windows, &image, input, limit, &mut untold) {
        Ok(run) => Ok(run_line(alloc, windows, limit, &run)?),
        Err(fault) => Err(denied_by(fault)),
    }
}

/// The turns of a run: the text of `inspect trace`. Answers OK; ROOM, with the length that is needed; WINDOWS, of a
/// count below 4 or above 32; NO_IMAGE; or MEMORY.
#[tactic(auto, using(crate::proofs::Denials::spell_none, crate::proofs::Denials::never_source))]
#[unsafe(no_mangle)]
pub extern "C" fn play_trace(
    alloc: Global,
    image: &[u8],
    windows: u32,
    limit: u64,
    input: &[u8],
    room: &mut [u8],
    needed: &mut u64,
) -> u32
    ensures told { result ≡ OK → Handed (IsTraceText image.now windows limit input.now) room.old room.new needed.new }
    ensures small { result ≡ ROOM → NeedsMore (IsTraceText image.now windows limit input.now) room.old needed.new }
    ensures none { result ≡ NO_IMAGE → SpellNone image.now }
    ensures memory { result ≢ OK → result ≢ ROOM → result ≢ WINDOWS → result ≢ NO_IMAGE → result ≡ MEMORY }
    ensures count { result ≡ WINDOWS → 4 ≤ windows → 32 < windows }
    ensures few { windows < 4 → result ≡ WINDOWS }
    ensures many { 32 < windows → result ≡ WINDOWS }
    ensures stays { result ≢ OK → room.new ≡ room.old }
    ensures unneeded { result ≢ OK → result ≢ ROOM → needed.new ≡ needed.old }
{
    if !is_count(windows) {
        return WINDOWS;
    }
    match traced(alloc, image, windows, limit, input) {
        Ok(text) => hand_on(text.as_slice(), room, needed),
        Err(denied) => status_of(denied),
    }
}

/// The states of a run: the text of `inspect states`. Answers as `play_trace`.
#[tactic(auto, using(crate::proofs::Denials::spell_none, crate::proofs::Denials::never_source))]
#[unsafe(no_mangle)]
pub extern "C" fn play_states(
    alloc: Global,
    image: &[u8],
    windows: u32,
    limit: u64,
    input: &[u8],
    room: &mut [u8],
    needed: &mut u64,
) -> u32
    ensures told { result ≡ OK → Handed (IsStatesText image.now windows limit input.now) room.old room.new needed.new }
    ensures small { result ≡ ROOM → NeedsMore (IsStatesText image.now windows limit input.now) room.old needed.new }
    ensures none { result ≡ NO_IMAGE → SpellNone image.now }
    ensures memory { result ≢ OK → result ≢ ROOM → result ≢ WINDOWS → result ≢ NO_IMAGE → result ≡ MEMORY }
    ensures count { result ≡ WINDOWS → 4 ≤ windows → 32 < windows }
    ensures few { windows < 4 → result ≡ WINDOWS }
    ensures many { 32 < windows → result ≡ WINDOWS }
    ensures stays { result ≢ OK → room.new ≡ room.old }
    ensures unneeded { result ≢ OK → result ≢ ROOM → needed.new ≡ needed.old }
{
    if !is_count(windows) {
        return WINDOWS;
    }
    match stated(alloc, image, windows, limit, input) {
        Ok(text) => hand_on(text.as_slice(), room, needed),
        Err(denied) => status_of(denied),
    }
}

/// What a run gave, as a line of JSON: that of `inspect run --json`. Answers as `play_trace`.
#[tactic(auto, using(crate::proofs::Denials::spell_none, crate::proofs::Denials::never_source))]
#[unsafe(no_mangle)]
pub extern "C" fn play_run(
    alloc: Global,
    image: &[u8],
    windows: u32,
    limit: u64,
    input: &[u8],
    room: &mut [u8],
    needed: &mut u64,
) -> u32
    ensures told { result ≡ OK → Handed (IsRunLine image.now windows limit input.now) room.old room.new needed.new }
    ensures small { result ≡ ROOM → NeedsMore (IsRunLine image.now windows limit input.now) room.old needed.new }
    ensures none { result ≡ NO_IMAGE → SpellNone image.now }
    ensures memory { result ≢ OK → result ≢ ROOM → result ≢ WINDOWS → result ≢ NO_IMAGE → result ≡ MEMORY }
    ensures count { result ≡ WINDOWS → 4 ≤ windows → 32 < windows }
    ensures few { windows < 4 → result ≡ WINDOWS }
    ensures many { 32 < windows → result ≡ WINDOWS }
    ensures stays { result ≢ OK → room.new ≡ room.old }
    ensures unneeded { result ≢ OK → result ≢ ROOM → needed.new ≡ needed.old }
{
    if !is_count(windows) {
        return WINDOWS;
    }
    match ran(alloc, image, windows, limit, input) {
        Ok(text) => hand_on(text.as_slice(), room, needed),
        Err(denied) => status_of(denied),
    }
}
