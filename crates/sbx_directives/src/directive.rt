// What a line asks for behind its labels.
ghost use Rattle.std.specs.Prelude.{◌≡◌};
ghost use Rattle.sbx_directives.specs.Directives.{text_of};

use sbx_image::{Cell, Kind, Range, Services, Term};
use v8_syntax::bytes_between;

/// A name in a line: the bytes from `start` up to `stop`.
#[derive(Clone, Copy)]
pub struct Name {
    pub start: usize,
    pub stop: usize,
}

/// The bytes of a name of the line; none where the line has no such bytes.
pub fn text_of(line: &[u8], name: Name) -> &[u8]
    ensures { result.now ≡ text_of line.now name }
{
    bytes_between(line, name.start, name.stop)
}

/// How many bytes each value of a data directive takes: 1, 2 or 4.
#[derive(Clone, Copy)]
pub enum Width {
    Byte,
    Half,
    Word,
}

/// The name that a directive or an annotation begins with: its own in lower case behind a dot.
#[derive(Clone, Copy)]
pub enum Keyword {
    Text,
    Data,
    Region,
    Services,
    Stack,
    Function,
    Param,
    Result,
    Depth,
    Block,
    Cell,
    Fuel,
    Term,
    Word,
    Half,
    Byte,
    Skip,
    Align,
}

/// A directive or an annotation, its numbers within their bounds.
#[derive(Clone, Copy)]
pub enum Directive {
    /// What follows goes to the code.
    Text,
    /// What follows goes to the data.
    Data,
    /// What follows goes to a new region of the data.
    Region {
        /// Whether the program may write it, and not read it alone.
        writable: bool,
    },
    /// The set of services that are named.
    Services(Services),
    /// Pages of stack, 1 to 16.
    Stack(u16),
    Function {
        name: Name,
        kind: Kind,
        /// Bytes, at most 4,096.
        frame: u32,
        /// Bytes, at most 65,536.
        stack_room: u32,
        /// Turns, below 2^40.
        budget: u64,
    },
    /// `lo` at most `hi`, the alignment at most 3.
    Param(Range),
    /// As a parameter.
    Result(Range),
    /// How many frames calls push at one time, at most 256.
    Depth(u16),
    Block(Name),
    /// The location 1 to 31 or 32 to 1,039, the range as of a parameter.
    Cell(Cell),
    /// Turns, below 2^40 in magnitude.
    Fuel(i64),
    /// The location as in a cell, the coefficient not 0.
    Term(Term),
    /// So many values of that width, at least one.
    Values(Width, usize),
    /// So many zeros, of whatever number.
    Skip(u64),
    /// Zeros up to a multiple of 2, 4 or 8.
    Align(u32),
}

/// What stands behind the labels of a line.
#[derive(Clone, Copy)]
pub enum Statement {
    /// No token.
    Nothing,
    Directive(Directive),
    /// A directive's name, but its operands have another shape, or a number passes its bound. What a `.function` or
    /// `.block` is called stands beside it, where a name is the first token behind it: that is a label all the same.
    Malformed(Keyword, Option<Name>),
    /// Anything else: an instruction, or what is neither.
    Instruction,
}
