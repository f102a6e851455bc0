//! Entries that move between windows.
ghost use Rattle.std.specs.Prelude.{◌≡◌, ℕ, ◌+◌, ◌-◌, None, length, slice_index_or, if◌then◌else◌};
ghost use Rattle.sbx_domain.specs.Parts.{AreMarked};
ghost use Rattle.sbx_domain.specs.Transfer.{is_global, is_in, is_kept_by_calls, is_out, result_entry};

use crate::entry::{Entry, plain_entry};
use crate::parts::{PARTS, clear_entries};
use crate::rows::Rows;
use sbx_range::Range;

/// Outs become ins, and nothing else stays.
pub(crate) fn save_entries<T: Copy>(entries: &mut Rows<T>, marks: &[bool; PARTS])
    requires size { length entries.old ≡ 1040 }
    requires marked { AreMarked 0 1040 marks.now entries.old }
    ensures size { length entries.new ≡ length entries.old }
    ensures moved { (k : ℕ) →
        slice_index_or entries.new k None ≡ (if is_in k then slice_index_or entries.old (k - 16) None else None) }
{
    for location in 24..32 {
        let entry = entries.get(location - 16);
        entries.set(location, entry);
    }
    clear_entries(entries, marks, 0, 24);
    clear_entries(entries, marks, 32, 1_040);
}

/// Ins become outs, globals stay, and nothing else does.
pub(crate) fn restore_entries<T: Copy>(entries: &mut Rows<T>, marks: &[bool; PARTS])
    requires size { length entries.old ≡ 1040 }
    requires marked { AreMarked 0 1040 marks.now entries.old }
    ensures size { length entries.new ≡ length entries.old }
    ensures moved { (k : ℕ) →
        slice_index_or entries.new k None ≡
        (if is_global k then slice_index_or entries.old k None
        else (if is_out k then slice_index_or entries.old (k + 16) None else None)) }
{
    for location in 8..16 {
        let entry = entries.get(location + 16);
        entries.set(location, entry);
    }
    clear_entries(entries, marks, 16, 1_040);
}

/// What a callee's results leave in a location.
fn returned_entry(results: &[Range], location: usize) -> Option<Entry>
    ensures { result ≡ result_entry results.now location }
{
    if 8 <= location && location < 16 {
        plain_entry(results.get(location - 8).copied())
    } else {
        None
    }
}

/// Outs get the results, globals nothing; locals, ins and frame words stay.
pub(crate) fn return_entries(entries: &mut Rows<Entry>, results: &[Range])
    requires { length entries.old ≡ 1040 }
    ensures size { length entries.new ≡ length entries.old }
    ensures moved { (k : ℕ) →
        slice_index_or entries.new k None ≡
        (if is_kept_by_calls k then slice_index_or entries.old k None else result_entry results.now k) }
{
    for location in 0..16 {
        entries.set(location, returned_entry(results, location));
    }
}
