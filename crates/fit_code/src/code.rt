//! Programs between reading and printing.
use crate::instruction::Instruction;
use sbx_parts::Range;
use v8_formats::{Instr, Three};
use v8_word::Cond;

/// A line of one of the program's files.
#[derive(Clone, Copy, PartialEq, Eq)]
pub struct SourceLine {
    /// The number of the file in `Program::files`.
    pub file: usize,
    /// Counted from 1; 0 where no line is known.
    pub number: u32,
}

/// No line is known.
pub const NO_LINE: SourceLine = SourceLine { file: 0, number: 0 };

/// An instruction that isn't a branch, a return, SAVE, RESTORE or `ta 0`: those are ends of blocks, or what a function
/// has.
#[derive(Clone, Copy)]
pub struct Step {
    /// The instruction. Of a call it is CALL with displacement 0.
    pub instruction: Instruction,
    /// The line of C that it comes from; where none is known, the line of assembly.
    pub line: SourceLine,
    /// The number of the function that is called.
    pub callee: Option<usize>,
    /// The number of the object whose address, or an address within which, its number is a part of.
    pub object: Option<usize>,
    /// What a call has in its delay slot; nothing is as NOP.
    pub slot: Option<Instruction>,
}

/// How a block ends. Blocks are named by their numbers in the function.
#[derive(Clone, Copy)]
pub enum End {
    /// Control goes to a block.
    Jump(usize),
    /// Control goes to one block where the condition holds of the codes that the block's steps leave, else to another
    /// one.
    Branch {
        cond: Cond,
        taken: usize,
        next: usize,
    },
    /// The function returns, in a framed one by a RESTORE with these fields; in a leaf they are `%g0`.
    Return(Three),
    /// The run ends by `ta 0`, with the exit word in %o0.
    Exit,
}

/// Steps that run one after the other, and what comes behind them.
#[derive(Drop)]
pub struct Block {
    pub steps: Vec<Step>,
    pub end: End,
    /// What the end has in its delay slot, on each way; nothing is as NOP. None while passes before placing go over it.
    pub slot: Option<Instruction>,
    /// The line of its end.
    pub line: SourceLine,
}

/// A function. Its first block is where calls enter; no block goes there.
#[derive(Drop)]
pub struct Function {
    pub name: String,
    /// Whether it has a window of its own: SAVE stands before its first step then, and is no step.
    pub framed: bool,
    /// Bytes of its frame: 0 in a leaf, else a multiple of 8 from 64 on, which leaves word k of the frame at `%sp + 64
    /// + 4 k`.
    pub frame: u32,
    pub blocks: Vec<Block>,
    /// What %o0, %o1, .. hold at its entry.
    pub params: Vec<Range>,
    /// What %o0, %o1, .. hold for its callers when it has returned.
    pub results: Vec<Range>,
    /// The line that it begins at.
    pub line: SourceLine,
}

/// Bytes of the data that a name of the source stands for.
#[derive(Drop)]
pub struct Object {
    pub name: String,
    pub bytes: Vec<u8>,
    /// The address of the first byte, once the data are laid out.
    pub start: u32,
    /// Addresses outside of it that instructions name by its name, as that behind its last byte.
    pub outside: Vec<u32>,
}

/// A part of the data that lies on pages of its own, as a source's `.region` has it.
#[derive(Clone, Copy)]
pub struct Region {
    pub readonly: bool,
    /// The address of its first byte, which begins a page.
    pub start: u32,
    /// How many bytes it has, a multiple of 8.
    pub length: u32,
}

/// A program whose functions call those of larger numbers alone. The first function is where a run begins.
#[derive(Drop)]
pub struct Program {
    pub functions: Vec<Function>,
    /// By their addresses; each lies in one region.
    pub objects: Vec<Object>,
    /// The regions by their addresses, none of them empty.
    pub regions: Vec<Region>,
    /// The names of the files of lines.
    pub files: Vec<String>,
}

impl Step {
    /// Its instruction.
    pub fn instr(&self) -> Instr {
        self.instruction.instr()
    }
}

impl End {
    ghost use Rattle.std.specs.Prelude.{◌≡◌};
    ghost use Rattle.fit_code.specs.Ways.{ways_of};

    /// The blocks that control may go to: where a branch is taken first.
    pub fn ways(self) -> [Option<usize>; 2]
        ensures { result ≡ ways_of self }
    {
        match self {
            End::Jump(to) => [Some(to), None],
            End::Branch { taken, next, .. } => [Some(taken), Some(next)],
            End::Return(_) | End::Exit => [None, None],
        }
    }
}
