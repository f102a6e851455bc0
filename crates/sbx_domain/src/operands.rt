//! What is known of operands, and of results whose form can only be a constant.
ghost use Rattle.std.specs.Prelude.{◌≡◌};
ghost use Rattle.sbx_domain.specs.Results.{constant_entry, entry_of_result, entry_of_y, quotient_of, tagged_of};
ghost use Rattle.sbx_domain.specs.Results.{written_y};

use crate::entry::Entry;
use crate::lin::Lin;
use sbx_range::{Range, is_single, known, range_of_division, range_of_tagged, range_of_written_y};
use v8_alu::TaggedOp;

/// A known word.
pub(crate) fn constant_entry(word: u32) -> Entry
    ensures { result ≡ constant_entry word }
{
    Entry {
        range: known(word),
        form: Some(Lin::of_constant(word.cast_signed())),
    }
}

/// A result: a constant where it is one number, else of this form.
pub(crate) fn entry_of_result(range: Range, form: Option<Lin>) -> Entry
    ensures { result ≡ entry_of_result range form }
{
    Entry {
        range,
        form: if is_single(range) {
            Some(Lin::of_constant(range.lo))
        } else {
            form
        },
    }
}

pub(crate) fn entry_of_y(y: Option<Range>) -> Option<Entry>
    ensures { result ≡ entry_of_y y }
{
    match y {
        Some(range) => Some(entry_of_result(range, None)),
        None => None,
    }
}

/// The quotient of the first operand's word below Y; which division it is doesn't matter.
pub(crate) fn quotient_of(y: Option<Range>, a: Option<Entry>, b: Option<Entry>) -> Option<Entry>
    ensures { result ≡ quotient_of y a b }
{
    match (y, a, b) {
        (Some(y), Some(a), Some(b)) => {
            Some(entry_of_result(range_of_division(y, a.range, b.range), None))
        }
        _ => None,
    }
}

pub(crate) fn tagged_of(op: TaggedOp, a: Option<Entry>, b: Option<Entry>) -> Option<Entry>
    ensures { result ≡ tagged_of op a b }
{
    match (a, b) {
        (Some(a), Some(b)) => Some(entry_of_result(range_of_tagged(op, a.range, b.range), None)),
        _ => None,
    }
}

/// The range of Y after WRY.
pub(crate) fn written_y(a: Option<Entry>, b: Option<Entry>) -> Option<Range>
    ensures { result ≡ written_y a b }
{
    match (a, b) {
        (Some(a), Some(b)) => Some(range_of_written_y(a.range, b.range)),
        _ => None,
    }
}
