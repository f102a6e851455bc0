//! What is known at a word, on each of its ways.
ghost use Rattle.std.specs.Prelude.{◌<◌, IfSome, length};
ghost use Rattle.sbx_known.specs.Courses.{IsWell};
ghost use Rattle.sbx_known.specs.Spots.{IsSpot};
ghost use Rattle.inspect_known.specs.Sights.{IsSeen};

use crate::values::Known;
use inspect_image::Location;
use inspect_known::Sight;
use inspect_reasons::{Registers, registers_read};
use sbx_domain::State;
use sbx_faults::{frame_word_read, reads_codes, reads_y};
use sbx_image::{Image, Range};
use sbx_known::{Course, Going, Spot, block_at, function_at};
use std::alloc::AllocError;

/// The words that begin what is told of a way, with where it leads.
pub(crate) fn push_going(
    out: &mut String,
    image: &Image,
    function: usize,
    going: Going,
) -> Result<(), AllocError>
    requires function { function < length image.now.functions }
    requires well { IsWell image.now function going }
{
    let way = match going {
        Going::Next => "\non the way to the next word",
        Going::To(block) => {
            let address = block_at(image, function, block).address;
            return write!(out, "\non the way to the block at {address:08X}");
        }
        Going::Back => "\non the way back to the caller",
        Going::Over => "\non the way to the end of the run",
        Going::Past => "\non the way past the function's last word",
        Going::Astray => "\non the way to no block of the function",
    };
    out.push_str(way)
}

/// A location, and what is known of it.
pub(crate) fn push_known(
    out: &mut String,
    location: u16,
    range: Option<Range>,
) -> Result<(), AllocError> {
    let (location, known) = (Location(location), Known(range));
    writeln!(out, "  {location} is {known}")
}

/// A register that is read. Those that hold the frames and the ways back have no range.
fn push_register(out: &mut String, register: u8, state: &State) -> Result<(), AllocError> {
    let location = Location(u16::from(register));
    let held = match register {
        0 => return out.push_str("  %g0 is 0\n"),
        14 | 30 => "a frame",
        15 | 31 => "the way back",
        _ => return push_known(out, u16::from(register), state.range(u16::from(register))),
    };
    writeln!(out, "  {location} holds {held}")
}

/// The registers that are read, and the frame word, if one is.
fn push_locations(
    out: &mut String,
    registers: &Registers,
    slot: Option<u16>,
    state: &State,
) -> Result<(), AllocError> {
    for register in registers.as_slice() {
        push_register(out, *register, state)?;
    }
    match slot {
        Some(location) => push_known(out, location, state.range(location)),
        None => Ok(()),
    }
}

/// The line of the condition codes, if they are read.
fn codes_line(are_read: bool, state: &State) -> &'static str {
    if !are_read {
        ""
    } else if state.icc() {
        "  the condition codes are defined\n"
    } else {
        "  the condition codes are undefined\n"
    }
}

/// The condition codes and Y, where they are read.
fn push_flags(out: &mut String, codes: bool, y: bool, state: &State) -> Result<(), AllocError> {
    let codes = codes_line(codes, state);
    if y {
        let known = Known(state.y());
        writeln!(out, "{codes}  Y is {known}")
    } else {
        out.push_str(codes)
    }
}

/// What a word reads, and what is known of it. SAVE, CALL and the returns, which read %sp, %i7 or %o7 alone, read
/// nothing that has a range.
fn push_reads(out: &mut String, image: &Image, spot: &Spot, state: &State) -> Result<(), AllocError>
    requires { IsSpot image.now spot.now }
{
    let function = function_at(image, spot.function);
    let registers = registers_read(function, &spot.operation);
    let slot = frame_word_read(function, &spot.operation);
    let (codes, y) = (reads_codes(&spot.operation), reads_y(&spot.operation));
    let heading = if registers.is_empty() && slot.is_none() && !codes && !y {
        " it reads nothing that has a range\n"
    } else {
        " it reads what is known so:\n"
    };
    out.push_str(heading)?;
    push_locations(out, &registers, slot, state)?;
    push_flags(out, codes, y, state)
}

/// A way on which a word runs, with what is known before the word of what it reads.
fn push_course(
    out: &mut String,
    image: &Image,
    spot: &Spot,
    course: Option<Course>,
    state: &State,
) -> Result<(), AllocError>
    requires spot { IsSpot image.now spot.now }
    requires well { IfSome course (λ c. IsWell image.now spot.now.function c.going) }
{
    let Some(course) = course else {
        return Ok(());
    };
    push_going(out, image, spot.function, course.going)?;
    if course.annulled {
        out.push_str(" the word is annulled\n")
    } else {
        push_reads(out, image, spot, state)
    }
}

/// The ways on which a word runs, with what is known before it on each.
pub(crate) fn push_sight(out: &mut String, image: &Image, sight: &Sight) -> Result<(), AllocError>
    requires { IsSeen image.now sight.now }
{
    push_course(out, image, &sight.spot, sight.courses.first, &sight.first)?;
    push_course(out, image, &sight.spot, sight.courses.second, &sight.second)
}
