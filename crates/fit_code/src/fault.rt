//! Faults: why there is no program.
use crate::code::{NO_LINE, SourceLine};
use std::alloc::{AllocError, AllocFailed};
use want::Want;

/// Why a name is refused.
#[derive(Clone, Copy)]
pub enum Naming {
    /// A label or another name that is none.
    Label,
    /// A section that isn't known.
    Section,
    /// A directive that isn't known.
    Directive,
    /// A mnemonic that isn't known.
    Instruction,
    /// The operands of a mnemonic can't be read.
    Operands,
    /// The mnemonic is floating point's.
    Floating,
    /// A label at two places.
    DefinedTwice,
    /// A name that stands nowhere.
    NotDefined,
    /// The address of a function as a number.
    AddressOfFunction,
    /// There is no function to begin at.
    NoEntry,
}

/// What is told of a jump through a register that is no return.
pub const JUMP_THROUGH_POINTER: &str = "a jump through a register: compile without tables of jumps";

/// Why a program is refused.
#[derive(Drop)]
pub enum Reason {
    /// Memory was refused.
    Memory(Want),
    /// A line, a name or a number that is too long, or more of something than there may be.
    TooMany {
        what: &'static str,
        most: u64,
    },
    /// A number of something that has to be smaller.
    TooGreat {
        what: &'static str,
        count: u64,
        most: u64,
    },
    /// A function's budget, of so many turns, is 2^40 or more. Where `is_loop`, the fault's line is that of the loop
    /// that may take the most of it.
    Budget {
        turns: u64,
        is_loop: bool,
    },
    /// A line that can't be read, or something else that one text tells.
    Unreadable(&'static str),
    /// A name.
    Named(Naming, String),
    /// Something that a function does and may not, with the function's name.
    Form {
        function: String,
        what: &'static str,
    },
}

/// Why a program is refused, and where.
#[derive(Drop)]
pub struct Fault {
    pub line: SourceLine,
    pub reason: Reason,
}

impl Fault {
    /// A fault at a line.
    pub fn new(line: SourceLine, reason: Reason) -> Fault {
        Fault { line, reason }
    }
}

impl From<AllocError> for Fault {
    fn from(error: AllocError) -> Fault {
        Fault {
            line: NO_LINE,
            reason: Reason::Memory(Want::from(error)),
        }
    }
}

impl<T: Drop> From<AllocFailed<T>> for Fault {
    fn from(failed: AllocFailed<T>) -> Fault {
        Fault {
            line: NO_LINE,
            reason: Reason::Memory(Want::from(failed)),
        }
    }
}
