//! One word of a block.
ghost use Rattle.std.specs.Prelude.{◌≡◌, ◌<◌, ◌+◌, ◌≤◌, IfSome, Ok, length};
ghost use Rattle.sbx_image.specs.Rules.{parts_keep};
ghost use Rattle.sbx_image.specs.Order.{words_in};
ghost use Rattle.sbx_rules.specs.Places.{IsPlace, callee_before, op_before};
ghost use Rattle.sbx_rules.specs.Ways.{budget_of_callee, weight_of_place};
ghost use Rattle.sbx_known.specs.Spots.{IsSpot};

use crate::places::{address_of, callee_of, function_at, word_of};
use sbx_faults::is_no_instruction;
use sbx_image::Image;
use sbx_rules::weight_of;
use v8_formats::decode;
use v8_meaning::{Operation, operation_of};

/// A word of a block, what it asks for, and what the word before it does.
#[derive(Clone, Copy)]
pub struct Spot {
    /// The function, its block and the block's word, by number.
    pub function: usize,
    pub block: usize,
    pub number: usize,
    /// How many words the block has.
    pub count: usize,
    pub word: u32,
    /// Whether the word is undefined or has an unused bit set.
    pub is_no_instruction: bool,
    pub operation: Operation,
    /// Nothing stands before a block's first word.
    pub before: Operation,
    /// The function that this word calls.
    pub callee: Option<usize>,
    /// The function that the word before this one has called.
    pub called: Option<usize>,
}

/// A word of a block of so many words, where this is what the word before it asks for and which function that has
/// called.
#[tactic(auto, unfolding(sbx_rules::specs::Places::callee_at))]
pub fn spot_at(
    image: &Image,
    place: (usize, usize, usize),
    count: usize,
    before: Operation,
    called: Option<usize>,
) -> Spot
    requires keeps { parts_keep image.now ≡ Ok tt }
    requires place { IsPlace image.now place.0 place.1 place.2 }
    requires count { count ≡ words_in image.now place.0 place.1 }
    requires before { before ≡ op_before image.now place.0 place.1 place.2 }
    requires called { called ≡ callee_before image.now place.0 place.1 place.2 }
    requires called_is { IfSome called (λ g. g < length image.now.functions) }
    ensures spot { IsSpot image.now result }
    ensures place { (result.function ≡ place.0) × (result.block ≡ place.1) × (result.number ≡ place.2) }
{
    let (function, block, number) = place;
    let word = word_of(image, function, block, number);
    let instr = decode(word);
    let operation = operation_of(&instr);
    let address = address_of(image, function, block, number);
    Spot {
        function,
        block,
        number,
        count,
        word,
        is_no_instruction: is_no_instruction(&instr, word),
        operation,
        before,
        callee: callee_of(image, address, &operation),
        called,
    }
}

/// The budget of the function that was called right before a word's slot, in turns.
fn budget_of_called(image: &Image, spot: &Spot) -> u64
    requires { IsSpot image.now spot.now }
    ensures value { result ≡ budget_of_callee image.now spot.now.called }
    ensures bound { result ≤ 1099511627775 }
{
    match spot.called {
        Some(callee) => function_at(image, callee).budget,
        None => 0,
    }
}

/// The turns that a word counts, with the budget of the call whose slot it is.
pub fn weight_of_spot(image: &Image, spot: &Spot) -> u64
    requires { IsSpot image.now spot.now }
    ensures value { result ≡ weight_of_place image.now spot.now.function spot.now.block spot.now.number }
    ensures bound { result ≤ 1099511627800 }
{
    weight_of(&spot.operation) + budget_of_called(image, spot)
}
