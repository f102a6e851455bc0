//! What is wrong with a file of a start.
ghost use Rattle.std.specs.Prelude.{Some};
ghost use Rattle.inspect_start.specs.Faults.{text_of};

use std::fmt::{self, Display, Formatter, Write};
use want::Want;

/// What is wrong with a line. Its text says it to people.
#[derive(Clone, Copy, PartialEq, Eq)]
pub enum StartCause {
    /// It isn't text.
    Text,
    /// Nothing has this name.
    Name,
    /// There is a number too much or too few.
    Count,
    /// What has to be a number is none, or has more bits than it may.
    Number,
    /// No word of RAM lies there.
    Address,
    /// There is no such window.
    Window,
    /// The address of an instruction, or of the context table, is no multiple of 4.
    Place,
    /// The bytes of a binary don't fit into RAM.
    Room,
    /// Memory was refused, whatever the line is.
    Memory(Want),
}

/// What is wrong with the first line that isn't right, which are counted from 1.
#[derive(Clone, Copy)]
pub struct StartFault {
    pub line: u64,
    pub cause: StartCause,
}

impl Display for StartCause {
    ghost output = { λ cause. Some (text_of cause) };

    fn fmt<W: Write>(&self, f: &mut Formatter<W>) -> fmt::Result {
        f.write_str(match self {
            StartCause::Text => "isn't text",
            StartCause::Name => "begins with no name or address that there is",
            StartCause::Count => "a name has one number behind it, and an address one word or more",
            StartCause::Number =>
                "a number is 0x and hexadecimal digits, or decimal digits, of 32 bits at most, of context_table 36",
            StartCause::Address => "a word lies at a multiple of 4 below 0x100000",
            StartCause::Window => "there is no such window",
            StartCause::Place => "pc, npc and context_table are multiples of 4",
            StartCause::Room => "doesn't fit into RAM there",
            StartCause::Memory(_) => "memory",
        })
    }
}
