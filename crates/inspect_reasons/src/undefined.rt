//! What a word reads that may hold anything, and what left it so.
ghost use Rattle.inspect_known.specs.Sights.{IsSeen};
ghost use Rattle.sbx_known.specs.Spots.{IsSpot};

use crate::reads::registers_read;
use crate::words::word_at;
use inspect_image::Location;
use inspect_known::Sight;
use sbx_domain::State;
use sbx_faults::{frame_word_read, reads_codes, reads_y};
use sbx_image::Image;
use sbx_known::{Spot, address_of, callee_of, function_at, runs};
use sbx_rules::asked;
use std::alloc::AllocError;
use v8_meaning::Operation;

/// What is read: a location, the condition codes or Y.
#[derive(Clone, Copy, PartialEq, Eq)]
enum Read {
    Location(u16),
    Codes,
    Y,
}

impl Read {
    /// Whether it stays as it is in a call: locals, ins and the words of the frame do.
    fn outlives_calls(self) -> bool {
        matches!(self, Read::Location(location) if location >= 16)
    }

    fn is_defined(self, state: &State) -> bool {
        match self {
            Read::Location(location) if location < 1_040 => state.range(location).is_some(),
            Read::Location(_) => true,
            Read::Codes => state.icc(),
            Read::Y => state.y().is_some(),
        }
    }

    fn push_name(self, out: &mut String) -> Result<(), AllocError> {
        match self {
            Read::Location(location) => {
                let name = Location(location);
                write!(out, "  {name}")
            }
            Read::Codes => out.push_str("  the condition codes"),
            Read::Y => out.push_str("  Y"),
        }
    }
}

/// The nearest word of a block before one of its words that leaves what was read there undefined.
#[derive(Clone, Copy)]
enum Loss {
    /// None: the block begins without it.
    Beginning,
    Save(u32),
    Call(u32),
}

fn lost_by(image: &Image, spot: &Spot, read: Read) -> Loss
    requires { IsSpot image.now spot.now }
{
    let mut address = address_of(image, spot.function, spot.block, spot.number);
    let mut loss = Loss::Beginning;
    for between in 0..spot.number {
        address = address.wrapping_sub(4);
        match asked(word_at(image, address)) {
            // (the slot of a call runs before the call has its effect)
            Operation::Call(_) if between > 0 && !read.outlives_calls() => {
                loss = Loss::Call(address);
                break;
            }
            Operation::Save(_) => {
                loss = Loss::Save(address);
                break;
            }
            _ => {}
        }
    }
    loss
}

/// Pushes how a function that was called gives back what stands in a register.
fn push_result(
    out: &mut String,
    image: &Image,
    call: u32,
    register: u16,
) -> Result<(), AllocError> {
    image.keeps_its_format();
    let operation = asked(word_at(image, call));
    let Some(number) = callee_of(image, call, &operation) else {
        return out.push_str("\n");
    };
    let declared = match image.functions().get(number) {
        Some(function) => function.results.as_slice().len(),
        None => 0,
    };
    if declared.saturating_add(8) == usize::from(register) {
        writeln!(out, ", or declare a `.result` of function {number} for it")
    } else {
        writeln!(
            out,
            ", or declare each `.result` of function {number} up to it"
        )
    }
}

/// Pushes that a call didn't keep what is read, and what mends it.
fn push_call(out: &mut String, image: &Image, call: u32, read: Read) -> Result<(), AllocError> {
    write!(out, ", since the call at {call:08X}, which keeps ")?;
    match read {
        Read::Location(register) => {
            out.push_str(
                "locals, ins and slots only: hold it in one, or write it behind the call",
            )?;
            match register {
                8..=13 => push_result(out, image, call, register),
                _ => out.push_str("\n"),
            }
        }
        Read::Codes | Read::Y => { out.push_str("neither codes nor Y: set them behind the call\n") }
    }
}

/// Pushes that what is read may hold anything, since when, and what would mend it.
fn push_read(out: &mut String, image: &Image, spot: &Spot, read: Read) -> Result<(), AllocError>
    requires { IsSpot image.now spot.now }
{
    read.push_name(out)?;
    match lost_by(image, spot, read) {
        Loss::Call(address) => push_call(out, image, address, read),
        Loss::Save(address) => writeln!(
            out,
            ", since SAVE at {address:08X}, which leaves the ins alone known: write it first"
        ),
        Loss::Beginning => match (spot.block, read) {
            (0, Read::Location(_)) if spot.function == 0 => {
                out.push_str(", since the function begins: write it first\n")
            }
            (_, Read::Codes) => out.push_str(
                ", since the block begins, which knows none: set them first, by `cmp` or a form with `cc`\n",
            ),
            (_, Read::Y) => out.push_str(
                ", since the block begins, which doesn't know it: write it first\n",
            ),
            (0, _) => out.push_str(
                ", since the function begins: write it first, or declare a parameter\n",
            ),
            _ => out.push_str(
                ", since the block begins, which lists no cell for it: list one, or write it first\n",
            ),
        },
    }
}

/// Whether something is read undefined on a way on which the word runs.
fn is_lost(sight: &Sight, read: Read) -> bool {
    (runs(sight.courses.first) && !read.is_defined(&sight.first))
        || (runs(sight.courses.second) && !read.is_defined(&sight.second))
}

/// Pushes what is read, if it may hold anything.
fn push_lost(out: &mut String, image: &Image, sight: &Sight, read: Read) -> Result<(), AllocError>
    requires { IsSeen image.now sight.now }
{
    if is_lost(sight, read) {
        push_read(out, image, &sight.spot, read)
    } else {
        Ok(())
    }
}

/// Pushes each register that a word reads undefined.
fn push_registers(out: &mut String, image: &Image, sight: &Sight) -> Result<(), AllocError>
    requires { IsSeen image.now sight.now }
{
    let function = function_at(image, sight.spot.function);
    let registers = registers_read(function, &sight.spot.operation);
    for register in registers.as_slice() {
        if !matches!(*register, 0 | 14 | 15 | 30 | 31) {
            push_lost(out, image, sight, Read::Location(u16::from(*register)))?;
        }
    }
    Ok(())
}

/// Pushes each location that a word reads undefined, codes and Y too, with the nearest word before it that left it so.
pub(crate) fn push_undefined(
    out: &mut String,
    image: &Image,
    sight: &Sight,
) -> Result<(), AllocError>
    requires { IsSeen image.now sight.now }
{
    out.push_str("it reads what may hold anything:\n")?;
    push_registers(out, image, sight)?;
    let operation = &sight.spot.operation;
    let function = function_at(image, sight.spot.function);
    if let Some(location) = frame_word_read(function, operation) {
        push_lost(out, image, sight, Read::Location(location))?;
    }
    if reads_codes(operation) {
        push_lost(out, image, sight, Read::Codes)?;
    }
    if reads_y(operation) {
        push_lost(out, image, sight, Read::Y)?;
    }
    Ok(())
}
