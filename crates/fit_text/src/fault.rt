//! A fault as a line.
use fit_code::{Fault, Reason, SourceLine};
use std::fmt::{self, Error, Formatter, Write};

/// What stands before a name that is refused, and what behind it, of each `Naming` in their order.
static NAMINGS: [(&str, &str); 10] = [
    ("the name ", " can't be read"),
    ("the section ", " isn't known"),
    ("the directive ", " isn't known"),
    ("the instruction ", " isn't known, or can't be used here"),
    ("the operands of ", " can't be read"),
    ("floating point, ", ": use integers, or fixed point"),
    ("", " is defined twice"),
    ("", " isn't defined"),
    (
        "the address of the function ",
        " is taken: name it, by a switch",
    ),
    ("there is no function ", ""),
];

/// Sums of turns that pass this number stay there.
const STAYS: u64 = 0x7fff_ffff_ffff_ffff;

/// The least budget that is refused.
const BOUND: u64 = 1 << 40;

/// Why a program is refused, in words.
#[derive(Drop)]
pub struct FaultWords<'r>(pub &'r Reason);

impl fmt::Display for FaultWords<'_> {
    fn fmt<W: Write>(&self, f: &mut Formatter<W>) -> Result<(), Error> {
        match self.0 {
            Reason::Memory(_want) => f.write_str("out of memory"),
            Reason::TooMany { what, most } => write!(f, "more than {most} {what}"),
            Reason::TooGreat { what, count, most } => write!(
                f,
                "{what} would be {count}, above {most}"
            ),
            Reason::Budget { turns, .. } => {
                let least = if *turns < STAYS { "" } else { "at least " };
                let limit = if *turns > BOUND { "2^40" } else { "2^40 - 1" };
                write!(f, "the budget would be {least}{turns}, above {limit}")
            }
            Reason::Unreadable(what) => f.write_str(what),
            Reason::Named(naming, name) => {
                let (before, after) = NAMINGS[*naming as usize];
                write!(f, "{before}{name}{after}")
            }
            Reason::Form { function, what } => write!(f, "{function}: {what}"),
        }
    }
}

/// A fault as one line, with the names of its files.
#[derive(Drop)]
pub struct FaultLine<'f> {
    pub fault: &'f Fault,
    pub files: &'f [String],
}

impl fmt::Display for FaultLine<'_> {
    fn fmt<W: Write>(&self, f: &mut Formatter<W>) -> Result<(), Error> {
        let SourceLine { file, number } = self.fault.line;
        let reason = &self.fault.reason;
        let why = FaultWords(reason);
        let is_known = (number > 0) & (file < self.files.len());
        let name = if is_known {
            self.files[file].as_str()
        } else {
            ""
        };
        let refused = if is_known {
            write!(f, "{name}:{number}: refused: {why}")
        } else {
            write!(f, "refused: {why}")
        };
        let Reason::Budget { is_loop, .. } = reason else {
            return refused;
        };
        let dearest = if *is_loop & is_known {
            write!(f, ": the loop at {name}:{number} may take the most of it")
        } else {
            Ok(())
        };
        let remedy = f.write_str(": ask for fewer turns, or let loops have fewer rounds");
        refused.and(dearest).and(remedy)
    }
}
