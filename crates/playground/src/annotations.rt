//! The calls of annotations: a source gets those that it hasn't got, and what isn't shown of it is told.
ghost use Rattle.std.specs.Prelude.{◌≡◌, ◌≢◌, IfErr, IfOk, IfSome};
ghost use Rattle.playground.specs.Denials.{IsOfSource};
ghost use Rattle.playground.specs.Rooms.{Handed, NeedsMore};
ghost use Rattle.playground.specs.Told.{IsAnnotatedOf, MeansNone};

use crate::denied::{Denied, MEMORY, NO_PROGRAM, OK, ROOM, SOURCE, status_of};
use crate::room::hand_on;
use crate::sources::image_of;
use fit_annotate::{Note, find};
use fit_code::{Fault, Reason};
use fit_kept::{AnnotationRefusal, annotate};
use fit_text::FaultWords;
use sbx_asm::Cause;
use std::alloc::{AllocError, Global};
use want::Want;

/// The want of memory, where it is what refuses annotations.
fn want_of(refusal: &AnnotationRefusal) -> Option<Want> {
    match refusal {
        AnnotationRefusal::Source(fault) | AnnotationRefusal::Made(fault) => match fault.cause {
            Cause::Memory(want) => Some(want),
            _ => None,
        },
        AnnotationRefusal::Program(fault) => match fault.reason {
            Reason::Memory(want) => Some(want),
            _ => None,
        },
    }
}

/// A source with what is found of its program.
fn with_found(alloc: Global, source: &[u8]) -> Result<Vec<u8>, AnnotationRefusal>
    ensures { IfOk result (λ text. IsAnnotatedOf source.now text.items) }
{
    let found = find(alloc, source)?;
    let (additions, totals) = (found.additions.as_slice(), found.totals.as_slice());
    annotate(alloc, source, additions, totals)
}

/// A source with the annotations that it hasn't got; none of one that means an image that is no program, or has too
/// many.
fn annotated(alloc: Global, source: &[u8]) -> Result<Option<Vec<u8>>, Denied>
    ensures told { IfOk result (λ made. IfSome made (λ text. IsAnnotatedOf source.now text.items)) }
    ensures none { IfErr result (IsOfSource source.now) }
{
    let _image = image_of(alloc, source)?;
    match with_found(alloc, source) {
        Ok(text) => Ok(Some(text)),
        Err(refusal) => match want_of(&refusal) {
            Some(want) => Err(Denied::Memory(want)),
            None => Ok(None),
        },
    }
}

/// Pushes each note: the number of its line, and what isn't shown there.
fn push_notes(out: &mut String, notes: &[Note]) -> Result<(), AllocError> {
    for Note { line, asked } in notes {
        writeln!(out, "{line} {asked}")?;
    }
    Ok(())
}

/// Pushes why a source's image is no program, behind the number of the line; nothing of a source that has a fault.
fn push_refusal(out: &mut String, refusal: &AnnotationRefusal) -> Result<(), AllocError> {
    if let Some(want) = want_of(refusal) {
        return Err(AllocError::from(want));
    }
    match refusal {
        AnnotationRefusal::Program(Fault { line, reason }) => {
            let (number, words) = (line.number, FaultWords(reason));
            writeln!(out, "{number} {words}")
        }
        AnnotationRefusal::Source(_) | AnnotationRefusal::Made(_) => Ok(()),
    }
}

/// What isn't shown of a source.
fn noted(alloc: Global, source: &[u8]) -> Result<Vec<u8>, AllocError> {
    let mut text = String::new(alloc);
    match find(alloc, source) {
        Ok(found) => push_notes(&mut text, found.notes.as_slice())?,
        Err(refusal) => push_refusal(&mut text, &refusal)?,
    }
    Ok(text.into_bytes())
}

/// A source with the annotations that it hasn't got: the text of `fit annotate`. Nothing else of it changes. Answers
/// OK; ROOM, with the length that is needed; SOURCE, where it means no image; NO_PROGRAM, where a word of it has no
/// place in a program, or its annotations would be too many; or MEMORY.
#[tactic(auto, using(crate::proofs::Denials::means_none, crate::proofs::Denials::never_image))]
#[unsafe(no_mangle)]
pub extern "C" fn play_annotate(
    alloc: Global,
    source: &[u8],
    room: &mut [u8],
    needed: &mut u64,
) -> u32
    ensures told { result ≡ OK → Handed (IsAnnotatedOf source.now) room.old room.new needed.new }
    ensures small { result ≡ ROOM → NeedsMore (IsAnnotatedOf source.now) room.old needed.new }
    ensures none { result ≡ SOURCE → MeansNone source.now }
    ensures memory { result ≢ OK → result ≢ ROOM → result ≢ SOURCE → result ≢ NO_PROGRAM → result ≡ MEMORY }
    ensures stays { result ≢ OK → room.new ≡ room.old }
    ensures unneeded { result ≢ OK → result ≢ ROOM → needed.new ≡ needed.old }
{
    match annotated(alloc, source) {
        Ok(Some(text)) => hand_on(text.as_slice(), room, needed),
        Ok(None) => NO_PROGRAM,
        Err(denied) => status_of(denied),
    }
}

/// What isn't shown of a source, or why its image is no program: lines, each with the number of a line of the source, a
/// blank, and words. Of a source that means no image there are none. Answers OK; ROOM, with the length that is needed;
/// or MEMORY.
#[unsafe(no_mangle)]
pub extern "C" fn play_notes(alloc: Global, source: &[u8], room: &mut [u8], needed: &mut u64) -> u32
    ensures stays { result ≢ OK → room.new ≡ room.old }
    ensures unneeded { result ≢ OK → result ≢ ROOM → (result ≡ MEMORY) × (needed.new ≡ needed.old) }
{
    match noted(alloc, source) {
        Ok(text) => hand_on(text.as_slice(), room, needed),
        Err(_refused) => MEMORY,
    }
}
