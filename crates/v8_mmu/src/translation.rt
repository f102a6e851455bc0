//! What a walk begins with, and how it ends.
ghost use Rattle.std.specs.Prelude.{◌≡◌, ℕ, ◌%◌, ◌^◌, ◌<◌, ◌≤◌};

/// The registers that name the context table and the context in it: a physical address, a multiple of 4 below 2^36, and
/// a number.
#[derive(Clone, Copy)]
pub struct MmuRegs {
    pub table: u64,
    pub context: u32,
    pub ghost in_reach: { table < 2 ^ 36 },
    pub ghost whole: { table % 4 ≡ 0 },
}

/// A translation: the physical address, the level (0 to 3) of the page's entry, and the places of the path's entries,
/// of which the one of number `level` is the page's and those after it mean nothing.
#[derive(Clone, Copy)]
pub struct Found {
    pub pa: u64,
    pub level: usize,
    pub places: [u64; 4],
    pub ghost in_path: { level ≤ 3 },
}

/// The entry of a page that an access may use: the physical address that is accessed, the entry's level (0 to 3), where
/// the entry lies, and its word.
#[derive(Clone, Copy)]
pub struct PageEntry {
    pub pa: u64,
    pub level: usize,
    pub place: u64,
    pub word: u32,
    pub ghost in_path: { level ≤ 3 },
}

/// Why there is no translation: fault type, level of the entry where the path ended, and access type (appendix H,
/// "fault status register").
#[derive(Clone, Copy, PartialEq, Eq)]
pub struct MmuFault {
    pub ft: u8,
    pub level: usize,
    pub at: u8,
}
