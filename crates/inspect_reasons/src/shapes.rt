//! The rule of shape, part by part.
ghost use Rattle.std.specs.Prelude.{◌≡◌, ◌<◌, ◌+◌, ◌&&◌, ◌==◌, nat_le};
ghost use Rattle.sbx_rules.specs.Rules.{is_entry};
ghost use Rattle.sbx_known.specs.Spots.{IsSpot};
ghost use Rattle.inspect_reasons.specs.Shapes.{IsPart};

use sbx_image::{Function, Image, Kind};
use sbx_known::{
    Spot, ends_run, enters_well, function_at, is_call, is_framed, is_framed_return, is_restore,
    is_save, is_transfer, is_trap, suits,
};
use std::alloc::AllocError;
use v8_meaning::Operation;

/// What the rule of shape refuses at a word: one of its alternatives, in the order in which they stand there.
#[derive(Clone, Copy, PartialEq, Eq, Debug)]
pub enum Part {
    /// A framed function's first word isn't the SAVE of its frame, or its frame has another size than frames may have;
    /// or a leaf has a frame.
    Entry,
    /// SAVE stands elsewhere than at a framed function's entry.
    Save,
    /// RESTORE stands elsewhere than in the slot of `ret`, or another word stands there.
    Restore,
    /// A leaf has `ret` or a call, or a framed function `retl`.
    Kind,
    /// A transfer or a trap stands in a slot.
    InSlot,
    /// The slot of a transfer isn't in its block.
    NoSlot,
    /// A word of the same block stands behind the slot of a branch or a return.
    BehindSlot,
    /// A word of the same block stands behind `ta 0`.
    BehindExit,
}

fn is_entry(spot: &Spot) -> bool
    ensures { result ≡ is_entry spot.now.block spot.now.number }
{
    spot.block == 0 && spot.number == 0
}

fn is_last(spot: &Spot) -> bool
    requires { spot.now.number < spot.now.count }
    ensures { result ≡ nat_le spot.now.count (spot.now.number + 1) }
{
    spot.count <= spot.number + 1
}

/// The first part of the rule of shape that a word breaks; none where it keeps the rule.
pub fn broken_part(image: &Image, spot: &Spot) -> Option<Part>
    requires { IsSpot image.now spot.now }
    ensures { IsPart image.now spot.now.function spot.now.block spot.now.number result }
{
    let function = function_at(image, spot.function);
    let (is_entry, is_last, in_slot) = (is_entry(spot), is_last(spot), is_transfer(&spot.before));
    if is_entry && !enters_well(function, &spot.operation) {
        Some(Part::Entry)
    } else if is_save(&spot.operation) && !(is_entry && is_framed(function.kind)) {
        Some(Part::Save)
    } else if is_framed_return(&spot.before) != is_restore(&spot.operation) {
        Some(Part::Restore)
    } else if !suits(function.kind, &spot.operation) {
        Some(Part::Kind)
    } else if in_slot && (is_transfer(&spot.operation) || is_trap(&spot.operation)) {
        Some(Part::InSlot)
    } else if is_transfer(&spot.operation) && is_last {
        Some(Part::NoSlot)
    } else if in_slot && !is_call(&spot.before) && !is_last {
        Some(Part::BehindSlot)
    } else if ends_run(&spot.operation) && !is_last {
        Some(Part::BehindExit)
    } else {
        None
    }
}

/// What a function has to begin with, where it doesn't.
fn push_entry(out: &mut String, function: &Function) -> Result<(), AllocError> {
    let frame = function.frame;
    match function.kind {
        Kind::Leaf => writeln!(
            out,
            "a leaf's frame is 0, and this one declares {frame}: declare 0, or `framed`"
        ),
        Kind::Framed if frame < 64 || frame > 4_096 || frame % 8 != 0 => writeln!(
            out,
            "a frame is a multiple of 8 from 64 to 4096, and {frame} is declared"
        ),
        Kind::Framed => writeln!(
            out,
            "the first word has to be `save %sp,-{frame},%sp`, by the frame that is declared"
        ),
    }
}

/// What a function of a kind returns by, or that a leaf calls nobody.
fn kind_text(kind: Kind, operation: &Operation) -> &'static str {
    match (kind, operation) {
        (_, Operation::Call(_)) => "a leaf calls nobody: declare it `framed`\n",
        (Kind::Leaf, _) => "a leaf returns by `retl`\n",
        (Kind::Framed, _) => "a framed function returns by `ret`, with RESTORE in its slot\n",
    }
}

/// Where RESTORE stands.
fn restore_text(spot: &Spot) -> &'static str {
    if is_framed_return(&spot.before) {
        "RESTORE has to stand in the slot of `ret`, and no other word\n"
    } else {
        "RESTORE stands in the slot of `ret`, and nowhere else\n"
    }
}

/// Pushes what the rule of shape asks for in the place of what a word breaks it by.
pub(crate) fn push_shape(out: &mut String, image: &Image, spot: &Spot) -> Result<(), AllocError>
    requires { IsSpot image.now spot.now }
{
    let function = function_at(image, spot.function);
    let text = match broken_part(image, spot) {
        Some(Part::Entry) => return push_entry(out, function),
        Some(Part::Save) => "SAVE is a framed function's first word, and stands nowhere else\n",
        Some(Part::Restore) => restore_text(spot),
        Some(Part::Kind) => kind_text(function.kind, &spot.operation),
        Some(Part::InSlot) =>
            "a branch, a call, a return or a trap stands in no slot: `nop` here, and this word elsewhere\n",
        Some(Part::NoSlot) =>
            "its slot has to stand in its block: write it, as `nop`, and begin the next block behind it\n",
        Some(Part::BehindSlot) =>
            "the slot of a branch or a return ends its block: begin one behind it\n",
        Some(Part::BehindExit) =>
            "`ta 0` ends its block: begin one behind it, or leave out what stands there\n",
        None => "",
    };
    out.push_str(text)
}
