//! The word at an address.
ghost use Rattle.std.specs.Prelude.{◌≡◌, ◌<◌, ◌≤◌, MatchOption, Ok, length};
ghost use Rattle.std.specs.List.Sorted.{IsPartitionPoint};
ghost use Rattle.sbx_image.specs.Rules.{parts_keep};
ghost use Rattle.sbx_known.specs.Sorted.{Ascend};
ghost use Rattle.inspect_known.specs.Places.{HasNone, IsAt};

use sbx_image::{Block, Image};
use sbx_known::{block_at, function_at, words_in};

/// How many of the blocks begin at an address or below.
fn begun(blocks: &[Block], address: u32) -> usize
    requires { Ascend (λ b. b.address) blocks.now }
    ensures few { result ≤ length blocks.now }
    ensures point { IsPartitionPoint (λ b. b.address ≤ address) (λ b. address < b.address) blocks.now result }
{
    blocks.partition_point(|block| block.address <= address)
}

/// The block of a function that holds the word at an address, and the word there, by number.
pub fn find_word(image: &Image, function: usize, address: u32) -> Option<(usize, usize)>
    requires keeps { parts_keep image.now ≡ Ok tt }
    requires function { function < length image.now.functions }
    ensures { MatchOption result (HasNone image.now function address)
        (λ place. IsAt image.now function address place.0 place.1) }
{
    let count = begun(function_at(image, function).blocks.as_slice(), address);
    if count == 0 {
        return None;
    }
    let block = count - 1;
    let bytes = address - block_at(image, function, block).address;
    let number = (bytes / 4) as usize;
    if bytes % 4 == 0 && number < words_in(image, function, block) {
        Some((block, number))
    } else {
        None
    }
}
