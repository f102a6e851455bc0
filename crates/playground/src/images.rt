//! The calls of images.
ghost use Rattle.std.specs.Prelude.{◌≡◌, ◌≢◌, IfErr, IfOk, Ok};
ghost use Rattle.sbx_image.specs.Reading.{reading};
ghost use Rattle.playground.specs.Denials.{IsOfImage, of_image};
ghost use Rattle.playground.specs.Rooms.{Handed, NeedsMore};
ghost use Rattle.playground.specs.Told.{IsImageText, IsListing, IsWhyText, SpellNone};

use crate::denied::{Denied, MEMORY, NO_IMAGE, OK, ROOM, status_of};
use crate::room::hand_on;
use cmd_listing::put_listing;
use inspect_image::push_image;
use inspect_refusal::push_why;
use sbx_image::{Image, ImageFault, parse};
use std::alloc::Global;

/// Why bytes with this fault have no text.
fn denied_by(fault: ImageFault) -> Denied
    ensures { result ≡ of_image fault }
{
    match fault {
        ImageFault::Memory(want) => Denied::Memory(want),
        _ => Denied::NoImage,
    }
}

/// The image that bytes spell.
#[tactic(auto, using(crate::proofs::Denials::image_denied))]
pub fn image_in(alloc: Global, bytes: &[u8]) -> Result<Image, Denied>
    ensures read { IfOk result (λ image. reading bytes.now ≡ Ok image) }
    ensures none { IfErr result (IsOfImage bytes.now) }
{
    match parse(alloc, bytes) {
        Ok(image) => Ok(image),
        Err(fault) => Err(denied_by(fault)),
    }
}

/// What an image declares.
fn declared(alloc: Global, bytes: &[u8]) -> Result<Vec<u8>, Denied>
    ensures told { IfOk result (λ text. IsImageText bytes.now text.items) }
    ensures none { IfErr result (IsOfImage bytes.now) }
{
    let image = image_in(alloc, bytes)?;
    let mut text = String::new(alloc);
    push_image(&mut text, &image)?;
    Ok(text.into_bytes())
}

/// Why an image is refused, or that it is accepted.
fn why(alloc: Global, bytes: &[u8]) -> Result<Vec<u8>, Denied>
    ensures told { IfOk result (λ text. IsWhyText bytes.now text.items) }
    ensures none { IfErr result (IsOfImage bytes.now) }
{
    let image = image_in(alloc, bytes)?;
    let mut text = String::new(alloc);
    let _found = push_why(alloc, &mut text, image)?;
    Ok(text.into_bytes())
}

/// The listing of an image's code.
fn listed(alloc: Global, bytes: &[u8]) -> Result<Vec<u8>, Denied>
    ensures told { IfOk result (λ text. IsListing bytes.now text.items) }
    ensures none { IfErr result (IsOfImage bytes.now) }
{
    let image = image_in(alloc, bytes)?;
    let mut out = Vec::new(alloc);
    let _count = image.word_count();
    match put_listing(image.words(), &mut out) {
        Ok(()) => Ok(out),
        Err(_refused) => Err(Denied::Unwritten),
    }
}

/// What an image declares: the text of `inspect image`. Answers OK; ROOM, with the length that is needed; NO_IMAGE; or
/// MEMORY.
#[tactic(auto, using(crate::proofs::Denials::spell_none, crate::proofs::Denials::never_source))]
#[unsafe(no_mangle)]
pub extern "C" fn play_image(alloc: Global, image: &[u8], room: &mut [u8], needed: &mut u64) -> u32
    ensures told { result ≡ OK → Handed (IsImageText image.now) room.old room.new needed.new }
    ensures small { result ≡ ROOM → NeedsMore (IsImageText image.now) room.old needed.new }
    ensures none { result ≡ NO_IMAGE → SpellNone image.now }
    ensures memory { result ≢ OK → result ≢ ROOM → result ≢ NO_IMAGE → result ≡ MEMORY }
    ensures stays { result ≢ OK → room.new ≡ room.old }
    ensures unneeded { result ≢ OK → result ≢ ROOM → needed.new ≡ needed.old }
{
    match declared(alloc, image) {
        Ok(text) => hand_on(text.as_slice(), room, needed),
        Err(denied) => status_of(denied),
    }
}

/// Why an image is refused, or that it is accepted: the text of `inspect why`. Answers as `play_image`.
#[tactic(auto, using(crate::proofs::Denials::spell_none, crate::proofs::Denials::never_source))]
#[unsafe(no_mangle)]
pub extern "C" fn play_why(alloc: Global, image: &[u8], room: &mut [u8], needed: &mut u64) -> u32
    ensures told { result ≡ OK → Handed (IsWhyText image.now) room.old room.new needed.new }
    ensures small { result ≡ ROOM → NeedsMore (IsWhyText image.now) room.old needed.new }
    ensures none { result ≡ NO_IMAGE → SpellNone image.now }
    ensures memory { result ≢ OK → result ≢ ROOM → result ≢ NO_IMAGE → result ≡ MEMORY }
    ensures stays { result ≢ OK → room.new ≡ room.old }
    ensures unneeded { result ≢ OK → result ≢ ROOM → needed.new ≡ needed.old }
{
    match why(alloc, image) {
        Ok(text) => hand_on(text.as_slice(), room, needed),
        Err(denied) => status_of(denied),
    }
}

/// Address, word and text of each word of an image's code: the text of `sandbox list`. Answers as `play_image`.
#[tactic(auto, using(crate::proofs::Denials::spell_none, crate::proofs::Denials::never_source))]
#[unsafe(no_mangle)]
pub extern "C" fn play_list(alloc: Global, image: &[u8], room: &mut [u8], needed: &mut u64) -> u32
    ensures told { result ≡ OK → Handed (IsListing image.now) room.old room.new needed.new }
    ensures small { result ≡ ROOM → NeedsMore (IsListing image.now) room.old needed.new }
    ensures none { result ≡ NO_IMAGE → SpellNone image.now }
    ensures memory { result ≢ OK → result ≢ ROOM → result ≢ NO_IMAGE → result ≡ MEMORY }
    ensures stays { result ≢ OK → room.new ≡ room.old }
    ensures unneeded { result ≢ OK → result ≢ ROOM → needed.new ≡ needed.old }
{
    match listed(alloc, image) {
        Ok(text) => hand_on(text.as_slice(), room, needed),
        Err(denied) => status_of(denied),
    }
}
