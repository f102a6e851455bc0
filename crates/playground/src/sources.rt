//! The calls of sources.
ghost use Rattle.std.specs.Prelude.{◌≡◌, ◌≢◌, IfErr, IfOk};
ghost use Rattle.playground.specs.Denials.{IsOfSource, of_source};
ghost use Rattle.playground.specs.Rooms.{Handed, NeedsMore};
ghost use Rattle.playground.specs.Told.{IsCheckLine, IsImageOf, IsMapOf, MeansNone};

use crate::denied::{Denied, MEMORY, OK, ROOM, SOURCE, status_of};
use crate::room::hand_on;
use inspect_json::check_line;
use inspect_names::{check_source, push_map};
use sbx_asm::{AsmFault, Cause, assemble};
use sbx_image::write;
use std::alloc::{AllocError, Global};

/// What a source is called in what is told of it.
const NAME: &str = "program";

/// What is wrong with a source, as a line of JSON.
fn check(alloc: Global, source: &[u8]) -> Result<Vec<u8>, AllocError>
    ensures { IfOk result (λ line. IsCheckLine source.now line.items) }
{
    let check = check_source(alloc, NAME, source)?;
    check_line(alloc, check.findings.as_slice(), check.text.as_str())
}

/// Why a source with this fault has no text.
fn denied_by(fault: AsmFault) -> Denied
    ensures { result ≡ of_source fault.cause }
{
    match fault.cause {
        Cause::Memory(want) => Denied::Memory(want),
        _ => Denied::Source,
    }
}

/// The bytes of the image that a source means.
#[tactic(auto, using(crate::proofs::Denials::fault_denied))]
pub fn image_of(alloc: Global, source: &[u8]) -> Result<Vec<u8>, Denied>
    ensures image { IfOk result (λ bytes. IsImageOf source.now bytes.items) }
    ensures none { IfErr result (IsOfSource source.now) }
{
    match assemble(alloc, source) {
        Ok(image) => Ok(write(&image, alloc)?),
        Err(fault) => Err(denied_by(fault)),
    }
}

/// Where the lines and the labels of a source stand, if it means an image.
fn map_of(alloc: Global, source: &[u8]) -> Result<Vec<u8>, Denied>
    ensures image { IfOk result (λ text. IsMapOf source.now text.items) }
    ensures none { IfErr result (IsOfSource source.now) }
{
    let _image = image_of(alloc, source)?;
    let mut text = String::new(alloc);
    push_map(alloc, &mut text, source, "")?;
    Ok(text.into_bytes())
}

/// What is wrong with a source, as a line of JSON: that of `inspect check --json` of a file of the name `program`.
/// Answers OK; ROOM, with the length that is needed; or MEMORY.
#[unsafe(no_mangle)]
pub extern "C" fn play_check(alloc: Global, source: &[u8], room: &mut [u8], needed: &mut u64) -> u32
    ensures told { result ≡ OK → Handed (IsCheckLine source.now) room.old room.new needed.new }
    ensures small { result ≡ ROOM → NeedsMore (IsCheckLine source.now) room.old needed.new }
    ensures stays { result ≢ OK → room.new ≡ room.old }
    ensures unneeded { result ≢ OK → result ≢ ROOM → (result ≡ MEMORY) × (needed.new ≡ needed.old) }
{
    match check(alloc, source) {
        Ok(line) => hand_on(line.as_slice(), room, needed),
        Err(_refused) => MEMORY,
    }
}

/// The image that a source means. Answers OK; ROOM, with the length that is needed; SOURCE, where it means none; or
/// MEMORY.
#[tactic(auto, using(crate::proofs::Denials::means_none, crate::proofs::Denials::never_image))]
#[unsafe(no_mangle)]
pub extern "C" fn play_assemble(
    alloc: Global,
    source: &[u8],
    room: &mut [u8],
    needed: &mut u64,
) -> u32
    ensures told { result ≡ OK → Handed (IsImageOf source.now) room.old room.new needed.new }
    ensures small { result ≡ ROOM → NeedsMore (IsImageOf source.now) room.old needed.new }
    ensures none { result ≡ SOURCE → MeansNone source.now }
    ensures memory { result ≢ OK → result ≢ ROOM → result ≢ SOURCE → result ≡ MEMORY }
    ensures stays { result ≢ OK → room.new ≡ room.old }
    ensures unneeded { result ≢ OK → result ≢ ROOM → needed.new ≡ needed.old }
{
    match image_of(alloc, source) {
        Ok(bytes) => hand_on(bytes.as_slice(), room, needed),
        Err(denied) => status_of(denied),
    }
}

/// Where the lines and the labels of a source stand, which means an image: the text of `inspect map`, but for the
/// image's digest, which isn't told. Answers as `play_assemble`.
#[tactic(auto, using(crate::proofs::Denials::means_none, crate::proofs::Denials::never_image))]
#[unsafe(no_mangle)]
pub extern "C" fn play_map(alloc: Global, source: &[u8], room: &mut [u8], needed: &mut u64) -> u32
    ensures told { result ≡ OK → Handed (IsMapOf source.now) room.old room.new needed.new }
    ensures small { result ≡ ROOM → NeedsMore (IsMapOf source.now) room.old needed.new }
    ensures none { result ≡ SOURCE → MeansNone source.now }
    ensures memory { result ≢ OK → result ≢ ROOM → result ≢ SOURCE → result ≡ MEMORY }
    ensures stays { result ≢ OK → room.new ≡ room.old }
    ensures unneeded { result ≢ OK → result ≢ ROOM → needed.new ≡ needed.old }
{
    match map_of(alloc, source) {
        Ok(text) => hand_on(text.as_slice(), room, needed),
        Err(denied) => status_of(denied),
    }
}
