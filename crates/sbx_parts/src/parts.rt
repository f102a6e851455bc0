//! What an image is made of.
use crate::items::Items;
use crate::services::Services;

/// Words that, read as signed, lie from `lo` to `hi` and are multiples of 2 to the power `alignment`.
#[derive(Clone, Copy, PartialEq, Eq)]
pub struct Range {
    pub lo: i32,
    pub hi: i32,
    /// 0 to 3 in an image.
    pub alignment: u8,
}

/// Whether a function has a register window of its own.
#[derive(Clone, Copy, PartialEq, Eq)]
pub enum Kind {
    Leaf,
    Framed,
}

/// The range of one location where a block starts.
#[derive(Clone, Copy)]
pub struct Cell {
    /// 1 to 31 is a register, 32 + k is frame word k, k at most 1,007.
    pub location: u16,
    pub range: Range,
}

/// A multiple of one location in a block's fuel.
#[derive(Clone, Copy)]
pub struct Term {
    /// As in a cell.
    pub location: u16,
    /// Not 0 in an image.
    pub coefficient: i32,
}

/// A block of code with what is known where it starts.
#[derive(Drop)]
pub struct Block {
    /// The address of its first word, in bytes.
    pub address: u32,
    /// The constant of its fuel, in turns; below 2^40 in magnitude in an image.
    pub fuel: i64,
    /// At most 64, by location.
    pub cells: Items<Cell>,
    /// At most 8, by location.
    pub terms: Items<Term>,
}

/// A function: its entry, what it promises, and its blocks by address.
#[derive(Drop)]
pub struct Function {
    pub kind: Kind,
    /// At most 6.
    pub params: Items<Range>,
    /// At most 6.
    pub results: Items<Range>,
    /// The address of its first word, in bytes.
    pub entry: u32,
    /// Bytes of its frame, at most 4,096.
    pub frame: u32,
    /// Bytes of stack that it and its callees take, at most 65,536.
    pub stack_room: u32,
    /// Turns, below 2^40.
    pub budget: u64,
    /// How many frames calls of it push at one time: at most 256 in version 3, 0 in versions 1 and 2, which don't tell
    /// it.
    pub depth: u16,
    /// At least 1.
    pub blocks: Items<Block>,
}

/// Data that lie on pages of their own.
#[derive(Drop)]
pub struct Region {
    /// In an image 1 or more, up to 262,144, and a multiple of 8.
    pub bytes: Items<u8>,
    /// Whether the program may write them, and not read them alone.
    pub writable: bool,
}

/// The fields of an image, whatever they hold.
#[derive(Drop)]
pub struct Parts {
    /// The format's version, 1 to 3 in an image.
    pub version: u16,
    pub services: Services,
    /// The code, 1 to 65,536 words.
    pub words: Items<u32>,
    /// The data, from the start of the data's addresses on. Version 1 has no region, or one that is writable; versions
    /// 2 and 3 up to 8.
    pub regions: Items<Region>,
    /// Pages of stack, 1 to 16.
    pub stack_pages: u16,
    /// 1 to 256; the first one is where a run begins.
    pub functions: Items<Function>,
}
