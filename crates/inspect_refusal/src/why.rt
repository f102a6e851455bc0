//! Why an image is refused.
ghost use Rattle.std.specs.Prelude.{◌≡◌, ◌++◌, IfOk, IfSome, None, OnOk, Some, codes, string_bytes};
ghost use Rattle.sbx_rules.specs.Verdicts.{Checked, IsFirst};
ghost use Rattle.sbx_known.specs.Spots.{IsSpot};
ghost use Rattle.inspect_known.specs.Sights.{IsSeen};
ghost use Rattle.sbx_verify.specs.Refusals.{IsRefusal};
ghost use Rattle.inspect_refusal.specs.Refusals.{IsTold, Tells, head_text};

use crate::arrivals::push_arrivals;
use crate::depths::push_depths;
use crate::folded::push_lines;
use crate::fuel::push_fuel;
use crate::room::push_room;
use crate::rules::rule_text;
use crate::sights::push_sight;
use arrayvec::ArrayString;
use inspect_image::{push_depth, push_function_head, push_numbered, push_params, push_results};
use inspect_known::{NotKnown, Sight, known_at};
use inspect_reasons::push_reason;
use sbx_image::Image;
use sbx_known::{Spot, block_at, function_at};
use sbx_rules::{Cause, Refusal};
use sbx_verify::verify;
use std::alloc::{AllocError, Global};
use v8_formats::decode;
use v8_forms::print_instr;
use v8_map::CODE_START;

/// The refusal as `verify` tells it, and the rule in words.
fn push_head(out: &mut String, refusal: Refusal) -> Result<(), AllocError>
    ensures { OnOk result (string_bytes out.new ≡ string_bytes out.old ++ head_text refusal) }
{
    let rule = rule_text(refusal.cause);
    writeln!(out, "{refusal}\n{rule}")
}

/// The word's function and block, as the image declares them.
fn push_place(out: &mut String, image: &Image, spot: &Spot) -> Result<(), AllocError>
    requires { IsSpot image.now spot.now }
{
    let function = function_at(image, spot.function);
    push_function_head(out, spot.function, function)?;
    push_depth(out, image.version(), function.depth)?;
    push_params(out, function.params.as_slice())?;
    push_results(out, function.results.as_slice())?;
    push_numbered(
        out,
        spot.function,
        spot.block,
        block_at(image, spot.function, spot.block),
    )
}

/// Address, word and text of a word.
fn push_word(out: &mut String, address: u32, word: u32) -> Result<(), AllocError> {
    let mut text = ArrayString::<64>::new();
    print_instr(&decode(word), &mut text);
    writeln!(out, "{address:08X} {word:08X} {text}")
}

/// The word at an address of the code, under the one before it.
fn push_words(out: &mut String, image: &Image, address: u32, word: u32) -> Result<(), AllocError> {
    out.push_str("\n")?;
    let before = address.wrapping_sub(4);
    let place = before.wrapping_sub(CODE_START) / 4;
    if let Some(above) = image.words().get(place as usize) {
        push_word(out, before, *above)?;
    }
    push_word(out, address, word)
}

/// What the rule asks for at the word, beside what there is.
fn push_asked(
    alloc: Global,
    out: &mut String,
    image: &Image,
    cause: Cause,
    sight: Sight,
) -> Result<(), AllocError>
    requires { IsSeen image.now sight }
{
    match cause {
        Cause::UnkeptCells | Cause::UnkeptResults => push_arrivals(out, image, sight),
        Cause::OutOfFuel => push_fuel(alloc, out, image, sight),
        Cause::OutOfStack => push_room(out, image, &sight),
        Cause::TooDeep => push_depths(out, image, &sight),
        _ => Ok(()),
    }
}

/// The word with its function and its block, and what is known on its ways.
fn push_seen(out: &mut String, image: &Image, address: u32, sight: &Sight) -> Result<(), AllocError>
    requires { IsSeen image.now sight.now }
{
    push_place(out, image, &sight.spot)?;
    push_words(out, image, address, sight.spot.word)?;
    push_sight(out, image, sight)
}

/// What the rule asks for in words, with the values of the word, below a blank line where there is something to tell.
fn push_reasoned(
    alloc: Global,
    out: &mut String,
    image: &Image,
    refusal: Refusal,
    sight: &Sight,
) -> Result<(), AllocError>
    requires { IsSeen image.now sight.now }
{
    let mut reason = String::new(alloc);
    push_reason(&mut reason, image, refusal.cause, refusal.address, sight)?;
    if reason.is_empty() {
        return Ok(());
    }
    out.push_str("\n")?;
    out.push_str(reason.as_str())
}

/// What explains a refusal at a word.
fn push_known(
    alloc: Global,
    out: &mut String,
    image: &Image,
    refusal: Refusal,
    sight: Sight,
) -> Result<(), AllocError>
    requires { IsSeen image.now sight }
{
    push_seen(out, image, refusal.address, &sight)?;
    push_reasoned(alloc, out, image, refusal, &sight)?;
    push_asked(alloc, out, image, refusal.cause, sight)
}

/// What explains a refusal, where its function has a word at its address.
fn push_reasons(
    alloc: Global,
    out: &mut String,
    image: &Image,
    refusal: Refusal,
) -> Result<(), AllocError> {
    match known_at(alloc, image, refusal.function, refusal.address) {
        Ok(sight) => push_known(alloc, out, image, refusal, sight),
        Err(NotKnown::NoMemory(want)) => Err(AllocError::from(want)),
        Err(NotKnown::NoFunction | NotKnown::NoWord) => Ok(()),
    }
}

/// What explains a refusal, in lines that fit.
fn reasons_of(alloc: Global, image: &Image, refusal: Refusal) -> Result<String, AllocError> {
    let mut reasons = String::new(alloc);
    push_reasons(alloc, &mut reasons, image, refusal)?;
    let mut lines = String::new(alloc);
    push_lines(&mut lines, reasons.as_str())?;
    Ok(lines)
}

/// A refusal explained.
fn explain(
    alloc: Global,
    out: &mut String,
    image: &Image,
    refusal: Refusal,
) -> Result<(), AllocError>
    ensures { OnOk result (IsTold refusal (string_bytes out.old) (string_bytes out.new)) }
{
    let reasons = reasons_of(alloc, image, refusal)?;
    push_head(out, refusal)?;
    out.push_str(reasons.as_str())?;
    Ok(())
}

/// The line of an accepted image, of which there is no refusal.
fn push_accepted(out: &mut String) -> Result<Option<Refusal>, AllocError>
    ensures none { IfOk result (λ found. found ≡ None) }
    ensures told { OnOk result (string_bytes out.new ≡ string_bytes out.old ++ codes "accepted: no rule is broken\n") }
{
    out.push_str("accepted: no rule is broken\n")?;
    Ok(None)
}

/// A refusal explained, unless it is want of memory, and the refusal.
#[tactic(auto, using(sbx_verify::proofs::Refusals::broken_rule))]
fn push_refused(
    alloc: Global,
    out: &mut String,
    image: &Image,
    refusal: Refusal,
) -> Result<Option<Refusal>, AllocError>
    requires { IsRefusal image.now refusal }
    ensures refused { IfOk result (λ found. (found ≡ Some refusal) × IsFirst image.now refusal) }
    ensures told { OnOk result (IsTold refusal (string_bytes out.old) (string_bytes out.new)) }
{
    match refusal.cause {
        Cause::NoMemory(want) => Err(AllocError::from(want)),
        _ => {
            explain(alloc, out, image, refusal)?;
            Ok(Some(refusal))
        }
    }
}

/// Pushes why an image is refused: the refusal and its rule in words; function, block and word; what is known of each
/// location that the word reads, on each of its ways; and of cells, results, fuel and stack room what is asked for,
/// beside what there is. Of an image that breaks no rule it says so. It gives the refusal, if there is one. It fails
/// where memory is refused.
pub fn push_why(
    alloc: Global,
    out: &mut String,
    image: Image,
) -> Result<Option<Refusal>, AllocError>
    ensures accepted { IfOk result (λ found. found ≡ None → Checked image) }
    ensures refused { IfOk result (λ found. IfSome found (IsFirst image)) }
    ensures told { IfOk result (λ found. Tells found (string_bytes out.old) (string_bytes out.new)) }
{
    match verify(alloc, image) {
        Ok(_accepted) => push_accepted(out),
        Err((image, refusal)) => push_refused(alloc, out, &image, refusal),
    }
}
