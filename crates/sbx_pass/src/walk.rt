//! The first fault of an image: functions and blocks in the order of their addresses.
ghost use Rattle.std.specs.Prelude.{◌≡◌, ◌<◌, length, IfOk, MatchOption, Ok};
ghost use Rattle.sbx_image.specs.Rules.{parts_keep};
ghost use Rattle.sbx_rules.specs.Verdicts.{Checked, IsFirst};
ghost use Rattle.sbx_pass.specs.Walks.{IsFirstOfFunction, IsQuietFunction};

use crate::block::first_fault_in_block;
use sbx_image::Image;
use sbx_known::{address_of, function_at};
use sbx_rules::{Refusal, State};
use std::alloc::{AllocError, Global};

/// The first fault of function `f`; the two states are room to work in.
fn first_in_function(image: &Image, f: u16, here: &mut State, other: &mut State) -> Option<Refusal>
    requires keeps { parts_keep image.now ≡ Ok tt }
    requires function { f < length image.now.functions }
    ensures { MatchOption result (IsQuietFunction image.now f) (λ refusal. IsFirstOfFunction image.now f refusal) }
{
    let function = usize::from(f);
    for block in 0..function_at(image, function).blocks.len() {
        if let Some((word, cause)) = first_fault_in_block(image, function, block, here, other) {
            return Some(Refusal {
                function: f,
                address: address_of(image, function, block, word),
                cause,
            });
        }
    }
    None
}

/// The first fault of all functions.
fn first_in_functions(image: &Image, here: &mut State, other: &mut State) -> Option<Refusal>
    requires keeps { parts_keep image.now ≡ Ok tt }
    ensures { MatchOption result (Checked image.now) (λ refusal. IsFirst image.now refusal) }
{
    for f in 0..image.function_count() {
        if let Some(refusal) = first_in_function(image, f, here, other) {
            return Some(refusal);
        }
    }
    None
}

/// The refusal of an image: of the rules that it breaks, the one of least number at the least address. None where it
/// breaks none. It fails where memory is refused.
pub fn first_fault(alloc: Global, image: &Image) -> Result<Option<Refusal>, AllocError>
    ensures { IfOk result (λ told. MatchOption told (Checked image.now) (λ refusal. IsFirst image.now refusal)) }
{
    image.keeps_its_format();
    let mut here = State::new(alloc)?;
    let mut other = State::new(alloc)?;
    Ok(first_in_functions(image, &mut here, &mut other))
}
