//! Entries by parts of sixteen locations, each with a mark where it may have some: a part without a mark is passed by.
ghost use Rattle.std.specs.Prelude.{◌≡◌, ℕ, ◌/◌, ◌<◌, ◌≤◌, ◌&&◌, ◌||◌, true, false, None, length, nat_le, nat_lt};
ghost use Rattle.std.specs.Prelude.{replicate, slice_index_or, slice_set, if◌then◌else◌};
ghost use Rattle.sbx_domain.specs.Known.{is_empty_range, range_of_entry};
ghost use Rattle.sbx_domain.specs.Parts.{AreMarked};

use crate::entry::{Entry, is_empty};
use crate::rows::Rows;
use crate::state::LOCATIONS;

/// Locations in a part: the globals and outs, the locals and ins, or sixteen words of the frame.
pub(crate) const PART: usize = 16;

/// The parts of all locations.
pub(crate) const PARTS: usize = 65;

/// The marks where one part alone has entries.
pub(crate) fn only(part: usize) -> [bool; PARTS]
    requires { part < 65 }
    ensures { result ≡ slice_set (replicate 65 false) part true }
{
    let mut marks = [false; PARTS];
    marks[part] = true;
    marks
}

/// Whether the part of a location has a mark.
fn is_marked(marks: &[bool; PARTS], location: usize) -> bool
    requires { location < 1040 }
    ensures { result ≡ slice_index_or marks.now (location / 16) false }
{
    marks[location / PART]
}

/// Whether it has one among either marks.
fn is_marked_in_either(first: &[bool; PARTS], second: &[bool; PARTS], location: usize) -> bool
    requires { location < 1040 }
    ensures { result ≡
        (slice_index_or first.now (location / 16) false || slice_index_or second.now (location / 16) false) }
{
    is_marked(first, location) || is_marked(second, location)
}

/// The first location of the next part.
fn next_part(location: usize) -> usize
    requires { location < 1040 }
    ensures after { location < result }
    ensures end { result ≤ 1040 }
    ensures part { (k : ℕ) → location ≤ k → k < result → k / 16 ≡ location / 16 }
{
    location / PART * PART + PART
}

/// Nothing stays from one location on and below another.
pub(crate) fn clear_entries<T: Copy>(
    entries: &mut Rows<T>,
    marks: &[bool; PARTS],
    from: usize,
    to: usize,
)
    requires size { length entries.old ≡ 1040 }
    requires within { to ≤ 1040 }
    requires marked { AreMarked from to marks.now entries.old }
    ensures size { length entries.new ≡ length entries.old }
    ensures cleared { (k : ℕ) →
        slice_index_or entries.new k None ≡
        (if nat_le from k && nat_lt k to then None else slice_index_or entries.old k None) }
{
    let end = entries.end_below(to);
    let mut location = from;
    while location < end {
        if is_marked(marks, location) {
            entries.remove(location);
            location += 1;
        } else {
            location = next_part(location);
        }
    }
}

/// Makes entries equal to others, where each has its marks.
pub(crate) fn copy_entries<T: Copy>(
    from: &Rows<T>,
    to: &mut Rows<T>,
    from_marks: &[bool; PARTS],
    to_marks: &[bool; PARTS],
)
    requires from_size { length from.now ≡ 1040 }
    requires to_size { length to.old ≡ 1040 }
    requires from_marked { AreMarked 0 1040 from_marks.now from.now }
    requires to_marked { AreMarked 0 1040 to_marks.now to.old }
    ensures { to.new ≡ from.now }
{
    let end = from.end_below(LOCATIONS).max(to.end_below(LOCATIONS));
    let mut location = 0;
    while location < end {
        if is_marked_in_either(from_marks, to_marks, location) {
            to.set(location, from.get(location));
            location += 1;
        } else {
            location = next_part(location);
        }
    }
}

/// Whether some entry's range holds no number.
pub(crate) fn has_empty(entries: &Rows<Entry>, marks: &[bool; PARTS]) -> bool
    requires size { length entries.now ≡ 1040 }
    requires marked { AreMarked 0 1040 marks.now entries.now }
    ensures some { result ≡ true →
        (l : ℕ) × (is_empty_range (range_of_entry (slice_index_or entries.now l None)) ≡ true) }
    ensures none { result ≡ false → (l : ℕ) →
        is_empty_range (range_of_entry (slice_index_or entries.now l None)) ≡ false }
{
    let end = entries.end_below(LOCATIONS);
    let mut location = 0;
    while location < end {
        if !is_marked(marks, location) {
            location = next_part(location);
        } else if is_empty(&entries.get(location)) {
            return true;
        } else {
            location += 1;
        }
    }
    false
}
