//! The pass over one block.
ghost use Rattle.std.specs.Prelude.{◌≡◌, MatchOption, Ok};
ghost use Rattle.sbx_image.specs.Rules.{parts_keep};
ghost use Rattle.sbx_pass.specs.Firsts.{IsFirstOfBlock, IsQuiet};
ghost use Rattle.sbx_known.specs.Spots.{IsBlock};

use crate::step::fault_at;
use sbx_image::Image;
use sbx_known::{spot_at, start, weight_of_spot, words_in};
use sbx_rules::{Cause, State};
use v8_meaning::Operation;

/// The first word of a block that breaks a rule, by its number in the block, and of the rules that it breaks the one of
/// least number. The states are room to work in.
pub fn first_fault_in_block(
    image: &Image,
    function: usize,
    block: usize,
    here: &mut State,
    other: &mut State,
) -> Option<(usize, Cause)>
    requires keeps { parts_keep image.now ≡ Ok tt }
    requires block { IsBlock image.now function block }
    ensures { MatchOption result (IsQuiet image.now function block)
        (λ found. IsFirstOfBlock image.now function block found.0 found.1) }
{
    start(image, function, block, here);
    let count = words_in(image, function, block);
    let mut before = Operation::Nothing;
    let mut called = None;
    let mut weight = 0u64;
    for number in 0..count {
        let spot = spot_at(image, (function, block, number), count, before, called);
        weight += weight_of_spot(image, &spot);
        if let Some(cause) = fault_at(image, &spot, weight, here, other) {
            return Some((number, cause));
        }
        before = spot.operation;
        called = spot.callee;
    }
    None
}
