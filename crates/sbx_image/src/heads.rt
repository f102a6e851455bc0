//! The fields that stand before the lists that they count.
use sbx_parts::{Kind, Services};

/// What stands before the words.
#[derive(Clone, Copy)]
pub struct Header {
    pub version: u16,
    pub services: Services,
    pub words: u32,
    /// Bytes of data in version 1, regions in versions 2 and 3.
    pub data_count: u32,
    pub stack_pages: u16,
    pub functions: u16,
}

/// How many bytes a region has, and whether the program may write them.
#[derive(Clone, Copy, Drop)]
pub struct Shape {
    pub bytes: u32,
    pub writable: bool,
}

/// What a function begins with: its kind, and how many ranges follow its head.
#[derive(Clone, Copy)]
pub struct Counts {
    pub kind: Kind,
    pub params: u8,
    pub results: u8,
}

/// What a call of a function takes at most: bytes of frame, bytes of stack, turns.
#[derive(Clone, Copy)]
pub struct Bounds {
    pub frame: u32,
    pub stack_room: u32,
    pub budget: u64,
}

/// What stands before a function's ranges and blocks.
#[derive(Clone, Copy)]
pub struct FunctionHead {
    pub kind: Kind,
    pub params: u8,
    pub results: u8,
    pub entry: u32,
    pub frame: u32,
    pub stack_room: u32,
    pub budget: u64,
    pub depth: u16,
    pub blocks: u16,
}

/// What stands before a block's cells and terms.
#[derive(Clone, Copy)]
pub struct BlockHead {
    pub address: u32,
    pub cells: u16,
    pub terms: u16,
    pub fuel: i64,
}
