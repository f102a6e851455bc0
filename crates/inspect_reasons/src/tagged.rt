//! What of a tagged operation that traps isn't shown: that an operand is a multiple of 4, or that the result is a word.
ghost use Rattle.std.specs.Prelude.{◌≡◌};
ghost use Rattle.sbx_rules.specs.Known.{known, range_of_entry};
ghost use Rattle.sbx_rules.specs.Results.{operand_entry};
ghost use Rattle.inspect_reasons.specs.Tagged.{IsUnshown, is_uneven, is_wide, results_fit};

use inspect_image::Location;
use inspect_known::Sight;
use sbx_domain::State;
use sbx_known::{Course, runs};
use sbx_range::{Range, differences_fit, sums_fit};
use std::alloc::AllocError;
use v8_alu::TaggedOp;
use v8_formats::Operand;
use v8_meaning::{Operation, Three};

/// Which parts of the rule a tagged operation breaks.
#[derive(Clone, Copy)]
pub(crate) struct Unshown {
    /// The first operand may be no multiple of 4.
    pub(crate) first: bool,
    /// So may the second one.
    pub(crate) second: bool,
    /// The result may be no word.
    pub(crate) wide: bool,
}

fn is_uneven(range: Option<Range>) -> bool
    ensures { result ≡ is_uneven range }
{
    match range {
        Some(range) => !(range.alignment >= 2),
        None => true,
    }
}

fn results_fit(op: TaggedOp, first: Range, second: Range) -> bool
    ensures { result ≡ results_fit op first second }
{
    match op {
        TaggedOp::TaggedAdd => sums_fit(first, second),
        TaggedOp::TaggedSub => differences_fit(first, second),
    }
}

fn is_wide(op: TaggedOp, first: Option<Range>, second: Option<Range>) -> bool
    ensures { result ≡ is_wide op first second }
{
    match (first, second) {
        (Some(first), Some(second)) => !results_fit(op, first, second),
        _ => false,
    }
}

/// What isn't shown of two operands.
fn unshown_of(op: TaggedOp, first: Option<Range>, second: Option<Range>) -> Unshown
    ensures { IsUnshown op first second result }
{
    Unshown {
        first: is_uneven(first),
        second: is_uneven(second),
        wide: is_wide(op, first, second),
    }
}

/// What is known of an operand.
fn range_of(state: &State, operand: Operand) -> Option<Range>
    ensures { result ≡ range_of_entry (operand_entry (known state.now) operand) }
{
    match state.operand_entry(operand) {
        Some(entry) => Some(entry.range),
        None => None,
    }
}

/// Pushes an operand that isn't shown to be a multiple of 4: a register by its name, or a number.
fn push_uneven(out: &mut String, operand: Operand) -> Result<(), AllocError> {
    match operand {
        Operand::Register(register) => {
            let name = Location(u16::from(register.number()));
            writeln!(out, "{name} isn't shown to be a multiple of 4")
        }
        Operand::Immediate(word) => {
            let number = word.cast_signed();
            writeln!(out, "{number} is no multiple of 4")
        }
    }
}

/// The least and the greatest result.
fn results_of(op: TaggedOp, first: Range, second: Range) -> (i64, i64) {
    let (low, high) = (i64::from(first.lo), i64::from(first.hi));
    let (least, greatest) = (i64::from(second.lo), i64::from(second.hi));
    match op {
        TaggedOp::TaggedAdd => (low + least, high + greatest),
        TaggedOp::TaggedSub => (low - greatest, high - least),
    }
}

/// Pushes the results that there may be, one of which is no word.
fn push_wide(
    out: &mut String,
    op: TaggedOp,
    first: Option<Range>,
    second: Option<Range>,
) -> Result<(), AllocError> {
    let (Some(first), Some(second)) = (first, second) else {
        return Ok(());
    };
    let (low, high) = results_of(op, first, second);
    writeln!(
        out,
        "the result may be {low} to {high}, and a word is -2147483648 to 2147483647"
    )
}

/// Pushes what isn't shown on a way, where the word runs on it.
fn push_way(
    out: &mut String,
    course: Option<Course>,
    op: TaggedOp,
    fields: &Three,
    state: &State,
) -> Result<(), AllocError> {
    if !runs(course) {
        return Ok(());
    }
    let first = range_of(state, Operand::Register(fields.rs1));
    let second = range_of(state, fields.operand2);
    let unshown = unshown_of(op, first, second);
    if unshown.first {
        push_uneven(out, Operand::Register(fields.rs1))?;
    }
    if unshown.second {
        push_uneven(out, fields.operand2)?;
    }
    if unshown.wide {
        push_wide(out, op, first, second)
    } else {
        Ok(())
    }
}

/// Pushes which operands of a tagged operation that traps aren't shown to be multiples of 4 on each way on which it
/// runs, and the results that there may be, where one is no word; and what mends it.
pub(crate) fn push_tagged(out: &mut String, sight: &Sight) -> Result<(), AllocError> {
    if let Operation::TaggedTrap(op, fields) = &sight.spot.operation {
        push_way(out, sight.courses.first, *op, fields, &sight.first)?;
        push_way(out, sight.courses.second, *op, fields, &sight.second)?;
    }
    out.push_str(
        "the operands have to be multiples of 4, the result a word: narrower cells, or the form without `tv`\n",
    )
}
