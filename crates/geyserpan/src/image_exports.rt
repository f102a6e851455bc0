//! The calls of images.
ghost use Rattle.std.specs.Prelude.{◌≡◌, ◌≢◌, ◌<◌, ◌≤◌, Ok, Some, None, length};
ghost use Rattle.sbx_image.specs.Parts.{Parts};
ghost use Rattle.sbx_image.specs.Reading.{reading};
ghost use Rattle.sbx_flat.specs.Runs.{FlatSafe};
ghost use Rattle.geyserpan.specs.Denials.{IsAdmitted, IsDenial};
ghost use Rattle.geyserpan.specs.Facts.{HasFacts};
ghost use Rattle.geyserpan.specs.Images.{HasFactsOf, HasReportOf, HasRunOf, Holds, IsTooMuchOf, Shares};
ghost use Rattle.geyserpan.specs.Reports.{HasRunOn, IsTooLongOn, IsTooMuchOn};
ghost use Rattle.geyserpan.specs.declared.terms.Terms.{Terms};

use crate::admitting::{admit, judge};
use crate::facts::{Facts, facts_of};
use crate::image_handle::ImageHandle;
use crate::image_slot::ImageSlot;
use crate::numbers::tell;
use crate::running::{Report, run_into};
use crate::statuses::{HANDLE, MEMORY, NO_IMAGE, OK, OUTPUT, REFUSED, ROOM};
use crate::terms::{Terms, Why};
use std::alloc::Global;

/// Checks an image.
#[unsafe(no_mangle)]
pub extern "C" fn geyserpan_check(
    alloc: Global,
    image: &[u8],
    facts: &mut Facts,
    why: &mut Why,
) -> u32
    ensures accepted { result ≡ OK → (parts : Parts) × (reading image.now ≡ Ok parts) × FlatSafe parts
        × HasFacts parts facts.new }
    ensures denied { (terms : Terms) → IsDenial image.now terms result why.new }
    ensures untold { result ≢ OK → facts.new ≡ facts.old }
    ensures unsaid { result ≢ NO_IMAGE → result ≢ REFUSED → why.new ≡ why.old }
    ensures holds { result ≢ HANDLE }
{
    match judge(alloc, image) {
        Ok(accepted) => {
            *facts = facts_of(accepted.image());
            OK
        }
        Err(denial) => tell(denial, why),
    }
}

/// Checks an image and runs it on the terms.
#[unsafe(no_mangle)]
pub extern "C" fn geyserpan_once(
    alloc: Global,
    image: &[u8],
    terms: &Terms,
    input: &[u8],
    room: &mut [u8],
    report: &mut Report,
    why: &mut Why,
) -> u32
    ensures ran { result ≡ OK → HasRunOn image.now terms.now input.now room.old room.new report.new }
    ensures granted { result ≡ OK → report.new.output ≤ terms.now.output }
    ensures stays { result ≢ OK → room.new ≡ room.old }
    ensures longer { result ≡ OUTPUT → IsTooMuchOn image.now terms.now input.now report.new }
    ensures small { result ≡ ROOM → IsTooLongOn image.now terms.now input.now room.old report.new }
    ensures denied { IsDenial image.now terms.now result why.new }
    ensures untold { result ≢ OK → result ≢ ROOM → result ≢ OUTPUT → report.new ≡ report.old }
    ensures unsaid { result ≢ NO_IMAGE → result ≢ REFUSED → why.new ≡ why.old }
    ensures holds { result ≢ HANDLE }
{
    match admit(alloc, image, terms) {
        Ok(accepted) => run_into(alloc, &accepted, terms, input, room, report),
        Err(denial) => tell(denial, why),
    }
}

/// Makes the handle of an image, which holds none.
#[unsafe(no_mangle)]
pub extern "C" fn geyserpan_image_new(alloc: Global, handle: &mut *mut u8) -> u32
    ensures stays { result ≢ OK → handle.new ≡ handle.old }
{
    match Box::new(alloc, ImageSlot { kept: None }) {
        Ok(slot) => {
            let (at, _alloc) = Box::into_raw_with_allocator(slot);
            *handle = at as *mut u8;
            OK
        }
        Err(_failed) => MEMORY,
    }
}

/// Lets a handle go, with what it holds.
#[unsafe(no_mangle)]
pub extern "C" fn geyserpan_image_free(handle: ImageHandle) {
    drop(handle.loosen().into_box());
}

/// Checks an image, compares it with the terms and keeps both.
#[unsafe(no_mangle)]
pub extern "C" fn geyserpan_open(
    alloc: Global,
    handle: &mut ImageHandle,
    image: &[u8],
    terms: &Terms,
    why: &mut Why,
) -> u32
    ensures opened { result ≡ OK →
        (parts : Parts) × IsAdmitted image.now terms.now parts × Holds handle.new.value parts terms.now }
    ensures stays { result ≢ OK → handle.new.value ≡ handle.old.value }
    ensures denied { IsDenial image.now terms.now result why.new }
    ensures unsaid { result ≢ NO_IMAGE → result ≢ REFUSED → why.new ≡ why.old }
    ensures holds { result ≢ HANDLE }
{
    match admit(alloc, image, terms) {
        Ok(accepted) => handle.lent().keep(alloc, accepted, terms),
        Err(denial) => tell(denial, why),
    }
}

/// Has another handle hold the image that a handle holds, on the same terms.
#[unsafe(no_mangle)]
pub extern "C" fn geyserpan_image_share(image: &mut ImageHandle, other: &mut ImageHandle) -> u32
    ensures shared { result ≡ OK → Shares image.old.value other.new.value }
    ensures stays { result ≢ OK → other.new.value ≡ other.old.value }
    ensures image { image.new.value ≡ image.old.value }
    ensures empty { result ≡ HANDLE → image.old.value.kept ≡ None }
{
    match &image.lent().kept {
        Some(kept) => other.lent().share(kept),
        None => HANDLE,
    }
}

/// Tells of the image that a handle holds.
#[unsafe(no_mangle)]
pub extern "C" fn geyserpan_facts_of(handle: &mut ImageHandle, facts: &mut Facts) -> u32
    ensures told { result ≡ OK → HasFactsOf handle.old.value facts.new }
    ensures empty { result ≢ OK → (result ≡ HANDLE) × (handle.old.value.kept ≡ None) × (facts.new ≡ facts.old) }
    ensures kept { handle.new.value ≡ handle.old.value }
{
    match &handle.lent().kept {
        Some(kept) => {
            *facts = facts_of(kept.held().image());
            OK
        }
        None => HANDLE,
    }
}

/// Runs the image that a handle holds, on the terms that it was opened with.
#[unsafe(no_mangle)]
pub extern "C" fn geyserpan_run_image(
    alloc: Global,
    handle: &mut ImageHandle,
    input: &[u8],
    room: &mut [u8],
    report: &mut Report,
) -> u32
    ensures ran { result ≡ OK → HasRunOf handle.old.value input.now room.old room.new report.new }
    ensures stays { result ≢ OK → room.new ≡ room.old }
    ensures longer { result ≡ OUTPUT → IsTooMuchOf handle.old.value input.now report.new }
    ensures small { result ≡ ROOM →
        HasReportOf handle.old.value input.now report.new × (length room.old < report.new.output) }
    ensures untold { result ≢ OK → result ≢ ROOM → result ≢ OUTPUT → report.new ≡ report.old }
    ensures empty { handle.old.value.kept ≡ None → result ≡ HANDLE }
    ensures holds { result ≡ HANDLE → handle.old.value.kept ≡ None }
    ensures kept { handle.new.value ≡ handle.old.value }
{
    match &handle.lent().kept {
        Some(kept) => run_into(alloc, kept.held(), &kept.terms, input, room, report),
        None => HANDLE,
    }
}

/// Lets the image go that a handle holds, and keeps the handle.
#[unsafe(no_mangle)]
pub extern "C" fn geyserpan_close(handle: &mut ImageHandle)
    ensures { handle.new.value.kept ≡ None }
{
    handle.lent().kept = None;
}
