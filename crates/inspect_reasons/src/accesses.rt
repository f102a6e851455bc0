//! Where a load or a store reaches, beside where it may.
ghost use Rattle.std.specs.Prelude.{◌≡◌};
ghost use Rattle.sbx_rules.specs.Known.{known};
ghost use Rattle.sbx_rules.specs.Results.{address_of, operand_entry, register_entry};
ghost use Rattle.inspect_known.specs.Sights.{IsSeen};

use inspect_known::Sight;
use sbx_domain::State;
use sbx_faults::frame_offset;
use sbx_image::{Function, Image};
use sbx_known::{Course, function_at, runs};
use sbx_range::{Range, range_of_address};
use std::alloc::AllocError;
use std::fmt::{self, Display, Formatter, Write};
use v8_meaning::{MemoryOperand, Operation, Transfer, bytes_in};

/// What the access asks for.
#[derive(Clone, Copy, PartialEq, Eq)]
pub(crate) enum Asked {
    /// An address that is a multiple of its size.
    Alignment,
    /// A place in the data or in the frame.
    Place,
}

/// An address as eight hexadecimal digits, one below 0 behind a minus sign.
#[derive(Clone, Copy)]
struct Address(i64);

impl Display for Address {
    fn fmt<W: Write>(&self, f: &mut Formatter<W>) -> fmt::Result {
        let magnitude = self.0.unsigned_abs();
        if self.0 < 0 {
            write!(f, "-{magnitude:08X}")
        } else {
            write!(f, "{magnitude:08X}")
        }
    }
}

/// The addresses that an operand can have, where both of its parts are defined.
fn address_of(state: &State, operand: &MemoryOperand) -> Option<Range>
    ensures { result ≡
        address_of (register_entry (known state.now) operand.now.rs1)
        (operand_entry (known state.now) operand.now.operand2) }
{
    match (
        state.register_entry(operand.rs1),
        state.operand_entry(operand.operand2),
    ) {
        (Some(base), Some(offset)) => Some(range_of_address(base.range, offset.range)),
        _ => None,
    }
}

/// Pushes the addresses that an access can have on a way, and by which they are known to be divided.
fn push_addresses(out: &mut String, range: Option<Range>) -> Result<(), AllocError> {
    match range {
        Some(Range { lo, hi, alignment }) => {
            let (low, high) = (Address(i64::from(lo)), Address(i64::from(hi)));
            let unit = 1u32 << alignment.min(3);
            writeln!(out, "its address is {low} to {high}, a multiple of {unit}")
        }
        None => out.push_str("its address may be any\n"),
    }
}

/// Pushes the regions of the data, with their rights.
fn push_regions(out: &mut String, image: &Image) -> Result<(), AllocError> {
    if image.regions().is_empty() {
        return out.push_str("there is no data: declare some behind `.region rw` or `.region ro`\n");
    }
    out.push_str("the regions of data are\n")?;
    for (number, region) in image.regions().iter().enumerate() {
        let right = if region.writable { "rw" } else { "ro" };
        let start = i64::from(image.region_start(number).unwrap_or(0));
        let last = Address(
            start
                .saturating_add(region.bytes.len() as i64)
                .saturating_sub(1),
        );
        let first = Address(start);
        writeln!(out, "  {first} to {last}, {right}")?;
    }
    Ok(())
}

/// Pushes how many bytes an access moves, and where they may lie.
fn push_place(out: &mut String, image: &Image, size: u32, writes: bool) -> Result<(), AllocError> {
    let (moves, right) = if writes {
        ("writes", " that is rw")
    } else {
        ("reads", "")
    };
    writeln!(
        out,
        "it {moves} {size} bytes from there on, which have to lie in one region{right}"
    )?;
    push_regions(out, image)
}

/// Pushes what the access asks for of an address that is worked out.
fn push_wanted(
    out: &mut String,
    image: &Image,
    transfer: Transfer,
    asked: Asked,
) -> Result<(), AllocError> {
    let size = bytes_in(transfer.size());
    match asked {
        Asked::Alignment => writeln!(
            out,
            "and has to be a multiple of {size}: `.align` before its label, a cell of such multiples, or a shift or mask"
        ),
        Asked::Place => push_place(out, image, size, transfer.writes_memory()),
    }
}

/// Pushes what there is and what is asked for of a word of the frame.
fn push_frame(
    out: &mut String,
    function: &Function,
    offset: i64,
    asked: Asked,
) -> Result<(), AllocError> {
    match asked {
        Asked::Alignment => writeln!(
            out,
            "its offset from %sp is {offset}, and has to be a multiple of 4"
        ),
        Asked::Place if function.frame < 68 => writeln!(
            out,
            "its offset from %sp is {offset}, and a frame of 64 bytes has no words: declare a larger one"
        ),
        Asked::Place => {
            let last = function.frame - 4;
            writeln!(
                out,
                "its offset from %sp is {offset}, and the words of the frame are at 64 to {last}"
            )
        }
    }
}

/// Pushes the addresses on a way, where the word runs on it.
fn push_way(
    out: &mut String,
    course: Option<Course>,
    operand: &MemoryOperand,
    state: &State,
) -> Result<(), AllocError> {
    if runs(course) {
        push_addresses(out, address_of(state, operand))
    } else {
        Ok(())
    }
}

/// Pushes where a load or a store reaches on each way on which it runs, and what it is asked for.
pub(crate) fn push_access(
    out: &mut String,
    image: &Image,
    sight: &Sight,
    asked: Asked,
) -> Result<(), AllocError>
    requires { IsSeen image.now sight.now }
{
    let Operation::Transfer(transfer, operand) = &sight.spot.operation else {
        return Ok(());
    };
    let function = function_at(image, sight.spot.function);
    if let Some(offset) = frame_offset(function, *transfer, operand) {
        return push_frame(out, function, offset, asked);
    }
    push_way(out, sight.courses.first, operand, &sight.first)?;
    push_way(out, sight.courses.second, operand, &sight.second)?;
    push_wanted(out, image, *transfer, asked)
}
