//! What is told of a turn.
use v8_formats::{Size, TrapType};
use v8_mmu::Stop;

/// What happened in a turn.
#[derive(Clone, Copy, PartialEq, Eq)]
pub enum Event {
    /// An instruction ran.
    Ran,
    /// An instruction was annulled; it wasn't fetched.
    Annulled,
    Trapped(TrapType),
    /// A trap came while traps were disabled. The machine stays there.
    ErrorMode(TrapType),
    /// The device has stopped the machine.
    Stopped(Stop),
}

/// A data access that completed: virtual and physical address, size, and whether it was of a store kind.
#[derive(Clone, Copy, PartialEq, Eq)]
pub struct DataAccess {
    pub va: u32,
    pub pa: u64,
    pub size: Size,
    pub store: bool,
}

/// A turn: what happened, and the current window, the mode and the place before it. `word` is there where a fetch
/// completed, `access` where a data access did.
#[derive(Clone, Copy, PartialEq, Eq)]
pub struct Turn {
    pub event: Event,
    pub cwp: u8,
    pub user: bool,
    pub pc: u32,
    pub word: Option<u32>,
    pub access: Option<DataAccess>,
}

/// What an attempt to run one instruction tells.
#[derive(Clone, Copy)]
pub struct Outcome {
    pub access: Option<DataAccess>,
    pub trap: Option<TrapType>,
}
