//! Notes to the author of a source, of what isn't shown of it.
use fit_code::Fault;
use fit_plans::{NotShown, UnshownAccess, needed_alignment};
use fit_text::FaultWords;
use inspect_image::Location;
use sbx_image::Range;
use std::fmt::{self, Error, Formatter, Write};

/// What the verifier asks for, and isn't shown.
#[derive(Drop)]
pub enum Unproved {
    /// Of a step or an end.
    Shown(NotShown),
    /// A counter of the loop that a block begins.
    Counter,
    /// A function's fuel.
    Fuel(Fault),
    /// A number that the source says and that doesn't suffice.
    More { what: &'static str, least: u64 },
    /// What this tells.
    Told(&'static str),
}

/// What isn't shown, and the number of its line.
#[derive(Drop)]
pub struct Note {
    pub line: u32,
    pub asked: Unproved,
}

/// A range in words.
#[derive(Clone, Copy)]
struct RangeWords(Range);

impl fmt::Display for RangeWords {
    fn fmt<W: Write>(&self, f: &mut Formatter<W>) -> Result<(), Error> {
        let (lo, hi) = (self.0.lo, self.0.hi);
        if (lo == i32::MIN) & (hi == i32::MAX) {
            f.write_str("any word")
        } else {
            write!(f, "{lo} to {hi}")
        }
    }
}

/// An address that isn't shown to lie in the data.
fn write_access<W: Write>(f: &mut Formatter<W>, access: &UnshownAccess) -> Result<(), Error> {
    let (words, size) = (RangeWords(access.range), access.size);
    let asked = if access.writes {
        "it isn't shown to lie in data that may be written; compare what it is worked out from with its bounds before"
    } else {
        "it isn't shown to lie in the data; compare what it is worked out from with its bounds before"
    };
    if access.range.alignment < needed_alignment(size) {
        write!(
            f,
            "the address may be {words}, and no multiple of {size}: {asked}"
        )
    } else {
        write!(f, "the address may be {words}: {asked}")
    }
}

/// What is behind a location that may be undefined where a function is called that is given it.
const GIVEN: &str =
    "may be undefined, and the function that is called takes it for granted: give it a value before";

/// What is behind a divisor's range.
const DIVISOR: &str = "compare it with 0 before, and divide in a block where it isn't 0";

const NO_COUNTER: &str =
    "no counter was found for the loop that begins here: count its rounds in a register, by `deccc` and `bne`";

/// What is told of a block to which no way leads.
pub const NO_WAY: &str =
    "no way leads to the block, and nothing is known where it begins: leave it out, or branch there";

/// What is told of a function's fuel, since that of one that it calls isn't known.
pub const NO_CALLEE: &str =
    "no fuel is given, since that of a function that it calls isn't known: see the notes of that one";

impl fmt::Display for Unproved {
    fn fmt<W: Write>(&self, f: &mut Formatter<W>) -> Result<(), Error> {
        match self {
            Unproved::Shown(NotShown::Defined(location)) => {
                let location = Location(*location);
                write!(
                    f,
                    "{location} is read, and may be undefined: give it a value on each way here"
                )
            }
            Unproved::Shown(NotShown::Given(location)) => {
                let location = Location(*location);
                write!(f, "{location} {GIVEN}")
            }
            Unproved::Shown(NotShown::Placed(access)) => write_access(f, access),
            Unproved::Shown(NotShown::Divisible(_, range)) => {
                let words = RangeWords(*range);
                write!(f, "the divisor may be 0: it may be {words}; {DIVISOR}")
            }
            Unproved::Fuel(fault) => {
                let reason = FaultWords(&fault.reason);
                write!(f, "no fuel is given: {reason}")
            }
            Unproved::More { what, least } => write!(f, "{what} has to be at least {least}"),
            Unproved::Counter => f.write_str(NO_COUNTER),
            Unproved::Told(what) => f.write_str(what),
        }
    }
}
