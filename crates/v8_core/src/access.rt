//! How accesses to memory and fetches end.

/// How an access to data ends: the number that came in, of a store 0, and the physical address; or the fault status.
#[derive(Clone, Copy)]
pub enum Moved {
    Done { number: u64, pa: u64 },
    Fault(u32),
}

/// How a fetch ends: the word with what takes its mark away again, the place and the former word of the page's entry;
/// or the fault status.
#[derive(Clone, Copy)]
pub enum Fetched {
    Word { word: u32, place: u64, before: u32 },
    Fault(u32),
}

mod moves;

pub use moves::{fetch, fetch_again, move_bytes};
