//! The call of a run's page: its data, which tell the image, the verdict on it, its source, and each turn.
ghost use Rattle.std.specs.Prelude.{◌≡◌, ◌≢◌, ◌<◌, ◌≤◌, IfErr, IfOk};
ghost use Rattle.playground.specs.Denials.{IsOfImage};
ghost use Rattle.playground.specs.Rooms.{Handed, NeedsMore};
ghost use Rattle.playground.specs.Told.{IsPageText, SpellNone};

use crate::denied::{Denied, MEMORY, NO_IMAGE, OK, ROOM, WINDOWS, status_of};
use crate::images::image_in;
use crate::room::hand_on;
use crate::runs::{denied_by, is_count};
use inspect_page::page_windows;
use std::alloc::Global;

/// A source, or nothing where it is empty.
fn source_of(source: &[u8]) -> Option<&[u8]> {
    if source.is_empty() {
        None
    } else {
        Some(source)
    }
}

/// The data of a run's page.
fn paged(
    alloc: Global,
    bytes: &[u8],
    windows: u32,
    limit: u64,
    input: &[u8],
    source: &[u8],
) -> Result<Vec<u8>, Denied>
    requires { (4 ≤ windows) × (windows ≤ 32) }
    ensures told { IfOk result (λ text. IsPageText bytes.now text.items) }
    ensures none { IfErr result (IsOfImage bytes.now) }
{
    let image = image_in(alloc, bytes)?;
    match page_windows(alloc, windows, image, source_of(source), input, limit) {
        Ok(text) => Ok(text),
        Err(fault) => Err(denied_by(fault)),
    }
}

/// The data of the page of a run, of any image, with the lines of its source, where one is given that isn't empty: the
/// text of `inspect data`. Answers OK; ROOM, with the length that is needed; WINDOWS, of a count below 4 or above 32;
/// NO_IMAGE; or MEMORY.
#[tactic(auto, using(crate::proofs::Denials::spell_none, crate::proofs::Denials::never_source))]
#[unsafe(no_mangle)]
pub extern "C" fn play_page(
    alloc: Global,
    image: &[u8],
    windows: u32,
    limit: u64,
    input: &[u8],
    source: &[u8],
    room: &mut [u8],
    needed: &mut u64,
) -> u32
    ensures told { result ≡ OK → Handed (IsPageText image.now) room.old room.new needed.new }
    ensures small { result ≡ ROOM → NeedsMore (IsPageText image.now) room.old needed.new }
    ensures none { result ≡ NO_IMAGE → SpellNone image.now }
    ensures memory { result ≢ OK → result ≢ ROOM → result ≢ WINDOWS → result ≢ NO_IMAGE → result ≡ MEMORY }
    ensures count { result ≡ WINDOWS → 4 ≤ windows → 32 < windows }
    ensures few { windows < 4 → result ≡ WINDOWS }
    ensures many { 32 < windows → result ≡ WINDOWS }
    ensures stays { result ≢ OK → room.new ≡ room.old }
    ensures unneeded { result ≢ OK → result ≢ ROOM → needed.new ≡ needed.old }
{
    if !is_count(windows) {
        return WINDOWS;
    }
    match paged(alloc, image, windows, limit, input, source) {
        Ok(text) => hand_on(text.as_slice(), room, needed),
        Err(denied) => status_of(denied),
    }
}
