//! Which pages were referenced and modified.
ghost use Rattle.std.specs.Prelude.{◌≡◌, ℕ, ◌+◌, ◌*◌, ◌/◌, ◌%◌, ◌^◌, ◌<◌, ◌≤◌};
ghost use Rattle.v8_core.specs.Ram.{entry_of};
ghost use Rattle.v8_board.specs.Marks.{bit_of, marks, page_use_of};

use v8_contained::{Memory, Port};
use v8_map::{CODE_TABLE, DATA_TABLE, STACK_TABLE};

/// Which pages of code, data and stack were referenced and modified: bit i of each word is R or M of the entry i of
/// that table (appendix H).
#[derive(Clone, Copy, PartialEq, Eq)]
pub struct PageUse {
    pub referenced: [u64; 3],
    pub modified: [u64; 3],
}

/// The bit of a table's entry, shifted to the entry's number.
fn bit<P: Port>(memory: &Memory<P>, place: u64, low: u32) -> u64
    requires { low < 32 }
    ensures value { result ≡ bit_of (entry_of memory.now.ram place) low }
    ensures small { result < 2 }
{
    match memory.word(place) {
        Some(word) => u64::from((word >> low) & 1),
        None => 0,
    }
}

/// A number with one bit more above it.
fn with_bit(all: u64, bit: u64, i: u64) -> u64
    requires bound { all < 2 ^ i }
    requires few { bit < 2 }
    requires small { i < 64 }
    ensures value { result ≡ all + bit * 2 ^ i }
    ensures bound { result < 2 ^ (i + 1) }
{
    all + (bit << i)
}

/// The bits of a table's entries.
fn marks<P: Port>(memory: &Memory<P>, table: u64, low: u32) -> u64
    requires low { low < 32 }
    requires table { table < 2 ^ 20 }
    ensures { result ≡ marks memory.now.ram table low 64 }
{
    let mut all = 0u64;
    for i in 0..64u64 {
        all = with_bit(all, bit(memory, table + 4 * i, low), i);
    }
    all
}

/// The pages' use that RAM shows.
#[tactic(auto, unfolding(crate::specs::Marks::page_use_of))]
pub(crate) fn page_use_of<P: Port>(memory: &Memory<P>) -> PageUse
    ensures { result ≡ page_use_of memory.now.ram }
{
    PageUse {
        referenced: [
            marks(memory, CODE_TABLE as u64, 5),
            marks(memory, DATA_TABLE as u64, 5),
            marks(memory, STACK_TABLE as u64, 5),
        ],
        modified: [
            marks(memory, CODE_TABLE as u64, 6),
            marks(memory, DATA_TABLE as u64, 6),
            marks(memory, STACK_TABLE as u64, 6),
        ],
    }
}
