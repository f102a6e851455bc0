//! Where an operation reaches memory, and what it asks of its operands' ranges.
ghost use Rattle.std.specs.Prelude.{◌≡◌, ◌≤◌};
ghost use Rattle.sbx_rules.specs.Known.{known};
ghost use Rattle.sbx_rules.specs.Results.{address_of, operand_entry, register_entry};
ghost use Rattle.sbx_rules.specs.Operations.{access_of};
ghost use Rattle.sbx_rules.specs.Rules.{holds_zero, is_aligned_access, is_aligned_range, is_in_data, is_in_frame};
ghost use Rattle.sbx_rules.specs.Rules.{is_multiple_of_4, is_placed_access, may_divide_by_zero, may_overflow};
ghost use Rattle.sbx_rules.specs.Rules.{needed_alignment, tagged_ranges_fit};

use crate::reads::frame_offset;
use sbx_image::{Function, Image};
use sbx_range::{Range, excludes_zero, range_of_address, tagged_fits};
use sbx_rules::{Entry, State};
use v8_alu::TaggedOp;
use v8_meaning::{MemoryOperand, Operation, bytes_in};

/// The addresses that an operand can have, where both of its parts are defined.
fn address_of(state: &State, operand: &MemoryOperand) -> Option<Range>
    ensures { result ≡
        address_of (register_entry (known state.now) operand.now.rs1)
        (operand_entry (known state.now) operand.now.operand2) }
{
    match (
        state.register_entry(operand.rs1),
        state.operand_entry(operand.operand2),
    ) {
        (Some(a), Some(b)) => Some(range_of_address(a.range, b.range)),
        _ => None,
    }
}

/// How many low bits of an address of a number of so many bytes are 0.
fn needed_alignment(size: u32) -> u8
    ensures { result ≡ needed_alignment size }
{
    match size {
        8 => 3,
        4 => 2,
        2 => 1,
        _ => 0,
    }
}

fn is_aligned_range(size: u32, range: Option<Range>) -> bool
    ensures { result ≡ is_aligned_range size range }
{
    match range {
        Some(range) => needed_alignment(size) <= range.alignment,
        None => false,
    }
}

fn is_multiple_of_4(offset: i64) -> bool
    ensures { result ≡ is_multiple_of_4 offset }
{
    offset.unsigned_abs() % 4 == 0
}

/// Whether what an operation reaches is shown to lie at a multiple of its size.
#[tactic(auto, unfolding(sbx_rules::specs::Operations::access_of))]
pub fn is_aligned(function: &Function, operation: &Operation, state: &State) -> bool
    ensures { result ≡ is_aligned_access (access_of function.now operation.now (known state.now)) }
{
    match operation {
        Operation::Transfer(transfer, operand) => match frame_offset(function, *transfer, operand) {
            Some(offset) => is_multiple_of_4(offset),
            None => is_aligned_range(bytes_in(transfer.size()), address_of(state, operand)),
        },
        _ => true,
    }
}

/// From `%sp + 64` to the end of a frame of so many bytes.
fn is_in_frame(frame: u32, offset: i64) -> bool
    ensures { result ≡ is_in_frame frame offset }
{
    !(offset < 64) && !(i64::from(frame) - 4 < offset)
}

/// Whether so many bytes from each address of the range lie in one region, which may be written where they are.
fn is_in_data(image: &Image, size: u32, writes: bool, range: Option<Range>) -> bool
    requires { size ≤ 8 }
    ensures { result ≡ is_in_data image.now size writes range }
{
    match range {
        Some(range) => {
            let end = i64::from(range.hi) + i64::from(size);
            image.holds(i64::from(range.lo), end, writes)
        }
        None => false,
    }
}

/// Whether what an operation reaches is shown to lie in one region of the data or in the frame.
#[tactic(auto, unfolding(sbx_rules::specs::Operations::access_of))]
pub fn is_placed(image: &Image, function: &Function, operation: &Operation, state: &State) -> bool
    ensures { result ≡
        is_placed_access image.now function.now.frame (access_of function.now operation.now (known state.now)) }
{
    match operation {
        Operation::Transfer(transfer, operand) => match frame_offset(function, *transfer, operand) {
            Some(offset) => is_in_frame(function.frame, offset),
            None => {
                let size = bytes_in(transfer.size());
                is_in_data(
                    image,
                    size,
                    transfer.writes_memory(),
                    address_of(state, operand),
                )
            }
        },
        _ => true,
    }
}

fn holds_zero(divisor: Option<Entry>) -> bool
    ensures { result ≡ holds_zero divisor }
{
    match divisor {
        Some(entry) => !(0 < entry.range.lo) && !(entry.range.hi < 0),
        None => true,
    }
}

/// Whether a divisor's range holds 0.
pub fn may_divide_by_zero(operation: &Operation, state: &State) -> bool
    ensures { result ≡ may_divide_by_zero operation.now (known state.now) }
{
    match operation {
        Operation::Divide(_, fields) => holds_zero(state.operand_entry(fields.operand2)),
        _ => false,
    }
}

fn tagged_ranges_fit(op: TaggedOp, a: Option<Entry>, b: Option<Entry>) -> bool
    ensures { result ≡ tagged_ranges_fit op a b }
{
    match (a, b) {
        (Some(a), Some(b)) => tagged_fits(op, a.range, b.range),
        _ => false,
    }
}

/// Whether a tagged operation that traps isn't shown not to.
pub fn may_overflow(operation: &Operation, state: &State) -> bool
    ensures { result ≡ may_overflow operation.now (known state.now) }
{
    match operation {
        Operation::TaggedTrap(op, fields) => !tagged_ranges_fit(
            *op,
            state.register_entry(fields.rs1),
            state.operand_entry(fields.operand2),
        ),
        _ => false,
    }
}
