//! Functions, blocks and words by number, and by address.
ghost use Rattle.std.specs.Prelude.{◌≡◌, ◌<◌, ◌≤◌, IfSome, Ok, length};
ghost use Rattle.sbx_image.specs.Rules.{parts_keep};
ghost use Rattle.sbx_image.specs.Spelling.{IsCountedFunction};
ghost use Rattle.sbx_image.specs.Order.{address_of, block_at, block_end, function_at, function_end, words_in};
ghost use Rattle.sbx_rules.specs.Places.{IsPlace, callee_of, find_block, find_entry, word_of_place};
ghost use Rattle.sbx_known.specs.Sorted.{Ascend};
ghost use Rattle.sbx_known.specs.Spots.{IsBlock};

use sbx_image::{Block, Function, Image};
use v8_map::CODE_START;
use v8_meaning::{Operation, target};

/// The function of a number.
pub fn function_at(image: &Image, number: usize) -> &Function
    requires { number < length image.now.functions }
    ensures value { result.now ≡ function_at image.now number }
    ensures counted { IsCountedFunction result.now }
{
    &image.functions()[number]
}

/// The block of a number in a function.
pub fn block_at(image: &Image, function: usize, block: usize) -> &Block
    requires { IsBlock image.now function block }
    ensures { result.now ≡ block_at image.now function block }
{
    &function_at(image, function).blocks.as_slice()[block]
}

/// The address after a function's last word, in bytes.
fn function_end(image: &Image, function: usize) -> u32
    requires { function < length image.now.functions }
    ensures { result ≡ function_end image.now function }
{
    match image.functions().get(function + 1) {
        Some(next) => next.entry,
        None => CODE_START + 4 * image.word_count(),
    }
}

fn block_end(image: &Image, function: usize, block: usize) -> u32
    requires { IsBlock image.now function block }
    ensures { result ≡ block_end image.now function block }
{
    match function_at(image, function)
        .blocks
        .as_slice()
        .get(block + 1)
    {
        Some(next) => next.address,
        None => function_end(image, function),
    }
}

/// How many words a block has.
#[tactic(auto, unfolding(sbx_parts::specs::Order::words_in))]
pub fn words_in(image: &Image, function: usize, block: usize) -> usize
    requires { IsBlock image.now function block }
    ensures { result ≡ words_in image.now function block }
{
    let bytes = block_end(image, function, block).saturating_sub(
        block_at(image, function, block).address,
    );
    (bytes / 4) as usize
}

/// The address of a word, in bytes.
#[tactic(auto, unfolding(sbx_parts::specs::Order::address_of))]
pub fn address_of(image: &Image, function: usize, block: usize, number: usize) -> u32
    requires keeps { parts_keep image.now ≡ Ok tt }
    requires place { IsPlace image.now function block number }
    ensures value { result ≡ address_of image.now function block number }
    ensures low { CODE_START ≤ result }
{
    block_at(image, function, block).address + 4 * number as u32
}

/// A word of the code.
#[tactic(auto, unfolding(sbx_rules::specs::Places::word_of_place))]
pub fn word_of(image: &Image, function: usize, block: usize, number: usize) -> u32
    requires keeps { parts_keep image.now ≡ Ok tt }
    requires place { IsPlace image.now function block number }
    ensures { result ≡ word_of_place image.now function block number }
{
    let place = (address_of(image, function, block, number) - CODE_START) / 4;
    image.words()[place as usize]
}

/// The function that begins at an address, by number.
fn find_entry(functions: &[Function], address: u32) -> Option<usize>
    requires { Ascend (λ f. f.entry) functions.now }
    ensures value { result ≡ find_entry 0 address functions.now }
    ensures bound { IfSome result (λ number. number < length functions.now) }
{
    let count = functions.partition_point(|function| function.entry <= address);
    if count > 0 && functions[count - 1].entry == address {
        Some(count - 1)
    } else {
        None
    }
}

/// The block that begins at an address, by number.
pub fn find_block(blocks: &[Block], address: u32) -> Option<usize>
    requires { Ascend (λ b. b.address) blocks.now }
    ensures value { result ≡ find_block 0 address blocks.now }
    ensures bound { IfSome result (λ number. number < length blocks.now) }
{
    let count = blocks.partition_point(|block| block.address <= address);
    if count > 0 && blocks[count - 1].address == address {
        Some(count - 1)
    } else {
        None
    }
}

/// The function that an operation at an address calls, by number.
pub fn callee_of(image: &Image, address: u32, operation: &Operation) -> Option<usize>
    requires { parts_keep image.now ≡ Ok tt }
    ensures value { result ≡ callee_of image.now address operation.now }
    ensures bound { IfSome result (λ number. number < length image.now.functions) }
{
    match operation {
        Operation::Call(displacement) => {
            find_entry(image.functions(), target(address, *displacement))
        }
        _ => None,
    }
}
