//! Why an image is refused.
ghost use Rattle.std.specs.Prelude.{◌≡◌, Some};
ghost use Rattle.sbx_rules.specs.Causes.{number_of, shown, shown_cause};

use std::fmt;
use want::Want;

/// The rule that an image breaks. It is shown by its number, as `V14`.
#[derive(Clone, Copy, PartialEq, Eq)]
pub enum Cause {
    /// A word is undefined or has an unused bit set.
    NotAnInstruction,
    /// Sandboxed code may not ask for what the word asks for.
    NotAdmitted,
    /// The shape of a function: its frame, its transfers and their delay slots, the word after an exit.
    BadShape,
    /// A branch goes to no block of its function, or to its first one.
    BadBranch,
    /// A call goes to no later function.
    BadCall,
    /// A location, the condition codes or Y are read that may hold anything.
    UndefinedRead,
    /// %sp, %fp, %o7 or %i7 is used, or a function without a window writes a local or an in.
    ReservedRegister,
    /// An address is not shown to be aligned.
    Misaligned,
    /// An address is not shown to lie in the data or in the frame.
    OutOfBounds,
    /// A divisor may be 0.
    ZeroDivisor,
    /// A tagged result may overflow.
    TagOverflow,
    /// A service is not declared.
    UndeclaredService,
    /// A block or a function begins with other values than it declares.
    UnkeptCells,
    /// The fuel or the budget may not last.
    OutOfFuel,
    /// The stack may not last.
    OutOfStack,
    /// Control may go past the function's last word.
    RunsPastEnd,
    /// A function's results are not those that it declares.
    UnkeptResults,
    /// The entry function has parameters or returns.
    BadEntry,
    /// A function's declared call depth is less than its calls take.
    TooDeep,
    /// Memory was refused.
    NoMemory(Want),
}

impl Cause {
    /// The rule's number, 1 to 20.
    pub fn number(self) -> u8
        ensures { result ≡ number_of self }
    {
        match self {
            Cause::NotAnInstruction => 1,
            Cause::NotAdmitted => 2,
            Cause::BadShape => 3,
            Cause::BadBranch => 4,
            Cause::BadCall => 5,
            Cause::UndefinedRead => 6,
            Cause::ReservedRegister => 7,
            Cause::Misaligned => 8,
            Cause::OutOfBounds => 9,
            Cause::ZeroDivisor => 10,
            Cause::TagOverflow => 11,
            Cause::UndeclaredService => 12,
            Cause::UnkeptCells => 13,
            Cause::OutOfFuel => 14,
            Cause::OutOfStack => 15,
            Cause::RunsPastEnd => 16,
            Cause::UnkeptResults => 17,
            Cause::BadEntry => 18,
            Cause::TooDeep => 20,
            Cause::NoMemory(_) => 19,
        }
    }
}

impl fmt::Display for Cause {
    ghost output = { λ c. Some (shown_cause c) };

    fn fmt<W: fmt::Write>(&self, f: &mut fmt::Formatter<W>) -> fmt::Result {
        f.write_str(match self {
            Cause::NotAnInstruction => "V1",
            Cause::NotAdmitted => "V2",
            Cause::BadShape => "V3",
            Cause::BadBranch => "V4",
            Cause::BadCall => "V5",
            Cause::UndefinedRead => "V6",
            Cause::ReservedRegister => "V7",
            Cause::Misaligned => "V8",
            Cause::OutOfBounds => "V9",
            Cause::ZeroDivisor => "V10",
            Cause::TagOverflow => "V11",
            Cause::UndeclaredService => "V12",
            Cause::UnkeptCells => "V13",
            Cause::OutOfFuel => "V14",
            Cause::OutOfStack => "V15",
            Cause::RunsPastEnd => "V16",
            Cause::UnkeptResults => "V17",
            Cause::BadEntry => "V18",
            Cause::TooDeep => "V20",
            Cause::NoMemory(_) => "V19",
        })
    }
}

/// The first fault of an image: the function that holds it, the address of its word in bytes, and the rule.
#[derive(Clone, Copy, PartialEq, Eq)]
pub struct Refusal {
    pub function: u16,
    pub address: u32,
    pub cause: Cause,
}

impl fmt::Display for Refusal {
    ghost output = { λ r. Some (shown r) };

    fn fmt<W: fmt::Write>(&self, f: &mut fmt::Formatter<W>) -> fmt::Result {
        write!(
            f,
            "refused {} in function {} at {:08X}",
            self.cause, self.function, self.address
        )
    }
}
