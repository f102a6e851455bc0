//! From a block's first word to one of its words, whatever rules are broken on the way.
ghost use Rattle.std.specs.Prelude.{◌≡◌, ◌&&◌, Ok, if◌then◌else◌, suc};
ghost use Rattle.sbx_domain.specs.Known.{known};
ghost use Rattle.sbx_image.specs.Rules.{parts_keep};
ghost use Rattle.sbx_known.specs.Courses.{is_branch};
ghost use Rattle.sbx_known.specs.Spots.{IsSpot};
ghost use Rattle.sbx_rules.specs.Places.{IsPlace};
ghost use Rattle.sbx_rules.specs.Ways.{after_word, weight_to};
ghost use Rattle.inspect_known.specs.Sights.{entered};

use sbx_domain::State;
use sbx_image::Image;
use sbx_known::{Spot, function_at, return_to, spot_at, start, weight_of_spot, words_in};
use v8_meaning::Operation;

/// What is known goes on to after a word.
fn pass(image: &Image, spot: &Spot, state: &mut State)
    requires { IsSpot image.now spot.now }
    ensures { known state.new ≡
        after_word image.now spot.now.function spot.now.block spot.now.number (known state.old) }
{
    let frame = function_at(image, spot.function).frame;
    state.perform(frame, &spot.operation);
    return_to(image, spot, state);
}

fn is_branch(operation: &Operation) -> bool
    ensures { result ≡ is_branch operation.now }
{
    matches!(operation, Operation::BranchOnCondition(_))
}

/// What is known goes on to after a word, but not past a branch in whose slot it is to end.
fn pass_to_slot(image: &Image, spot: &Spot, is_last: bool, state: &mut State)
    requires { IsSpot image.now spot.now }
    ensures { known state.new ≡
        (if is_last && is_branch spot.now.operation then known state.old
        else after_word image.now spot.now.function spot.now.block spot.now.number (known state.old)) }
{
    if !(is_last && is_branch(&spot.operation)) {
        pass(image, spot, state);
    }
}

/// A word of a block, by the numbers of function, block and word; the turns of its block's words up to its own end; and
/// in the state what its ways begin with.
pub fn enter(
    image: &Image,
    function: usize,
    block: usize,
    end: usize,
    state: &mut State,
) -> (Spot, u64)
    requires keeps { parts_keep image.now ≡ Ok tt }
    requires place { IsPlace image.now function block end }
    ensures spot { IsSpot image.now result.0 }
    ensures place { (result.0.function ≡ function) × (result.0.block ≡ block) × (result.0.number ≡ end) }
    ensures weight { result.1 ≡ weight_to image.now function block (suc end) }
    ensures known { known state.new ≡ entered image.now function block end }
{
    start(image, function, block, state);
    let count = words_in(image, function, block);
    let mut before = Operation::Nothing;
    let mut called = None;
    let mut weight = 0u64;
    for number in 0..end {
        let spot = spot_at(image, (function, block, number), count, before, called);
        weight += weight_of_spot(image, &spot);
        pass_to_slot(image, &spot, number + 1 == end, state);
        before = spot.operation;
        called = spot.callee;
    }
    let spot = spot_at(image, (function, block, end), count, before, called);
    weight += weight_of_spot(image, &spot);
    (spot, weight)
}
