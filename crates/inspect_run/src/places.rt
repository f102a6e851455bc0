//! Places of code by their names.
ghost use Rattle.std.specs.Prelude.{◌≡◌, Some};
ghost use Rattle.inspect_run.specs.Places.{function_from, nearer, place_of, place_text};

use sbx_image::Function;
use std::fmt::{self, Display, Formatter, Write};
use v8_map::{CODE_END, CODE_START, HANDLERS, PAGE, TRAP_TABLE};

/// Where an instruction stands, by its byte offset in a part of the code. It is shown as `f2+1C`, `vector 82+4`,
/// `overflow+0`, `underflow+0`, or `-` where no code is.
#[derive(Clone, Copy)]
pub enum CodePlace {
    /// In a function of the image, counted from 0.
    Function { number: usize, offset: u32 },
    /// In the vector of a trap type.
    Vector { trap: u32, offset: u32 },
    /// In the handler of window overflow.
    Overflow { offset: u32 },
    /// In the handler of window underflow.
    Underflow { offset: u32 },
    /// Elsewhere.
    Elsewhere,
}

/// A function by its number, where it begins at or before an address; else the place found before.
fn nearer(before: CodePlace, number: usize, function: &Function, address: u32) -> CodePlace
    ensures { result ≡ nearer before number function.now address }
{
    if function.entry <= address {
        CodePlace::Function {
            number,
            offset: address - function.entry,
        }
    } else {
        before
    }
}

/// The function that an address of code is in: the last one that begins at or before it. They stand in the order of
/// their addresses.
fn function_from(functions: &[Function], address: u32) -> CodePlace
    ensures { result ≡ function_from functions.now address }
{
    let mut place = CodePlace::Elsewhere;
    let mut number = 0;
    for function in functions {
        place = nearer(place, number, function, address);
        number += 1;
    }
    place
}

/// The place of an address: user code, the trap table with four words a vector, or the page of window handlers, in
/// which the one of underflow begins at byte 80 (hexadecimal).
pub fn place_of(functions: &[Function], address: u32) -> CodePlace
    ensures { result ≡ place_of functions.now address }
{
    if address >= CODE_START && address < CODE_END {
        function_from(functions, address)
    } else if address / PAGE == TRAP_TABLE / PAGE {
        CodePlace::Vector {
            trap: address % PAGE / 16,
            offset: address % 16,
        }
    } else if address / PAGE == HANDLERS / PAGE && address % PAGE < 0x80 {
        CodePlace::Overflow {
            offset: address % PAGE,
        }
    } else if address / PAGE == HANDLERS / PAGE {
        CodePlace::Underflow {
            offset: address % PAGE - 0x80,
        }
    } else {
        CodePlace::Elsewhere
    }
}

impl Display for CodePlace {
    ghost output = { λ p. Some (place_text p) };

    fn fmt<W: Write>(&self, f: &mut Formatter<W>) -> fmt::Result {
        match *self {
            CodePlace::Function { number, offset } => write!(f, "f{number}+{offset:X}"),
            CodePlace::Vector { trap, offset } => write!(f, "vector {trap:02X}+{offset:X}"),
            CodePlace::Overflow { offset } => write!(f, "overflow+{offset:X}"),
            CodePlace::Underflow { offset } => write!(f, "underflow+{offset:X}"),
            CodePlace::Elsewhere => f.write_str("-"),
        }
    }
}
