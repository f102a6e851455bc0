//! The blocks of a function once they are made: each reached, each loop with one entry, and each block with what sets
//! the codes, or Y, that it asks for. Where these are set in an earlier block, the compare is repeated, or what it
//! worked on is kept.
mod entries;
mod keeping;
mod planning;
mod pruning;
mod setting;
mod splitting;

use crate::codes::keeping::Spares;
use crate::codes::planning::{asked_of, one_setter, set_at_starts};
use crate::codes::setting::{LastSetter, setters_of, setting_of};
use crate::codes::splitting::copy_for_ways;
use crate::stops::Stops;
pub use entries::give_one_entry;
use fit_code::{Block, Function, Heap, Step};
use fit_graph::predecessors_of;
pub use pruning::prune;
pub use setting::CodesOrY;
use v8_word::Reg;

/// So many blocks are copied at most, for codes of several places.
const SPLITS: u32 = 64;

/// What some steps do with the codes.
pub fn codes_of(steps: &[Step]) -> LastSetter {
    setting_of(CodesOrY::Codes, steps)
}

/// The block to which several ways lead with codes that one block asks for and no one compare sets, nor one word that
/// may be kept, if there is a register for that: that block itself, or one before it from which one way leads there.
fn block_of_several(
    memory: &mut Heap,
    blocks: &[Block],
    before: &[Vec<usize>],
    has_register: bool,
) -> Option<usize> {
    for number in 0..blocks.len() {
        if let Some(asked) = asked_of(&blocks[number]) {
            let setters = setters_of(memory, blocks, before, number, CodesOrY::Codes);
            let is_kept = has_register & setters.is_set & !setters.is_lost;
            if !(is_kept && asked.is_one_word()) && one_setter(&setters, asked).is_none() {
                let found = several_before(blocks, before, number);
                if found.is_some() {
                    return found;
                }
            }
        }
    }
    None
}

/// The block at which several ways come together that lead to a block, without a step that sets codes behind that.
fn several_before(blocks: &[Block], before: &[Vec<usize>], block: usize) -> Option<usize> {
    let mut number = block;
    for _ in 0..blocks.len() {
        match before.get(number)?.as_slice() {
            [one]
                if codes_of(blocks.get(*one)?.steps.as_slice())
                    .setter
                    .is_none() => {
                number = *one;
            }
            [_, _, ..] => return Some(number),
            _ => return None,
        }
    }
    None
}

/// Copies blocks that ask for codes of several places for each way to them, as far as that may be.
fn split_joins(stops: &mut Stops, function: &mut Function, other: Reg) {
    let has_register = Spares::of(function, other).has_room();
    for _ in 0..SPLITS {
        let before = stops.made(predecessors_of(stops.memory.alloc, function));
        let memory = &mut stops.memory;
        let blocks = function.blocks.as_slice();
        let Some(number) = block_of_several(memory, blocks, before.as_slice(), has_register) else {
            break;
        };
        let ways = if number < before.len() {
            before[number].len()
        } else {
            0
        };
        if !copy_for_ways(memory, &mut function.blocks, number, ways) {
            break;
        }
    }
}

/// Sets the codes, and Y, in the blocks that ask for them and don't set them, where other blocks do; `other` is a
/// register that isn't free for that. It is a fault where nothing sets them for sure.
pub fn repeat_compares(stops: &mut Stops, function: &mut Function, other: Reg) {
    split_joins(stops, function, other);
    set_at_starts(stops, function, CodesOrY::Codes, other);
    set_at_starts(stops, function, CodesOrY::Y, other);
}
