//! Annotations of a source's functions and blocks beside their instructions.
use sbx_parts::{Cell, Term};

/// What is said of a block where it begins.
#[derive(Drop)]
pub struct BlockNotes {
    /// By location.
    pub cells: Vec<Cell>,
    /// The constant of its fuel, in turns.
    pub fuel: i64,
    /// By location.
    pub terms: Vec<Term>,
}

/// What is said of a function; its parameters and results stand in the program.
#[derive(Drop)]
pub struct FunctionNotes {
    /// The most turns of a call.
    pub budget: u64,
    /// The bytes of stack that it and its callees take.
    pub room: u64,
    /// How many frames calls push at one time.
    pub depth: u64,
    /// Of each block, by its number.
    pub blocks: Vec<BlockNotes>,
}

/// What is said of each function, by its number.
#[derive(Drop)]
pub struct Annotations {
    pub functions: Vec<FunctionNotes>,
}
