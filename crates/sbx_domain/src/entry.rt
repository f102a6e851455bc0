//! What is known of one word.
ghost use Rattle.std.specs.Prelude.{◌≡◌};
ghost use Rattle.sbx_domain.specs.Known.{entry_of_cell, is_empty_range, plain_entry_of, range_of_entry};
ghost use Rattle.sbx_domain.specs.Refining.{with_range_of};

use crate::lin::Lin;
use sbx_range::{Cell, Range};

/// A range, and perhaps a form over the numbers that the block's cells start with.
#[derive(Clone, Copy)]
pub struct Entry {
    pub range: Range,
    pub form: Option<Lin>,
}

/// A range without a form.
pub(crate) fn plain_entry(range: Option<Range>) -> Option<Entry>
    ensures { result ≡ plain_entry_of range }
{
    match range {
        Some(range) => Some(Entry { range, form: None }),
        None => None,
    }
}

/// A range in the place of an entry's, where there is an entry. Its form stays.
pub(crate) fn with_range(range: Range, entry: Option<Entry>) -> Option<Entry>
    ensures { result ≡ with_range_of range entry }
{
    match entry {
        Some(entry) => Some(Entry { range, ..entry }),
        None => None,
    }
}

/// A cell at the start of its block, where it is itself.
pub(crate) fn entry_of_cell(cell: &Cell) -> Entry
    ensures { result ≡ entry_of_cell cell.now }
{
    Entry {
        range: cell.range,
        form: Some(Lin::of_location(cell.location)),
    }
}

/// Whether there is an entry, and its range holds no number.
pub(crate) fn is_empty(entry: &Option<Entry>) -> bool
    ensures { result ≡ is_empty_range (range_of_entry entry.now) }
{
    match entry {
        Some(entry) => entry.range.hi < entry.range.lo,
        None => false,
    }
}
