//! Where the regions of data lie, and what they hold.
ghost use Rattle.std.specs.Prelude.{◌≡◌, ◌≤◌, length};
ghost use Rattle.sbx_parts.specs.Regions.{behind, byte_count, holds, page_rights, pages_for, region_holds, start_of};
ghost use Rattle.sbx_parts.specs.Rules.{is_length_behind};

use crate::parts::Region;
use v8_map::{DATA_START, PAGE};

/// How many pages so many bytes take.
pub fn pages_for(count: usize) -> usize
    ensures { result ≡ pages_for count }
{
    count / 4096 + usize::from(count % 4096 > 0)
}

/// Whether a region may have so many bytes, behind regions of so many pages: 1 or more, up to 262,144, whole double
/// words, on 64 pages in all.
pub fn is_length_behind(pages: u16, count: usize) -> bool
    ensures { result ≡ is_length_behind pages count }
{
    0 < count && (count <= 262144 && count % 8 == 0 && usize::from(pages) + pages_for(count) <= 64)
}

/// The address of the page behind the last one of a region that begins at `start`, where the next one begins.
pub fn behind(start: u32, region: &Region) -> u32
    requires start { start ≤ 0xC0000 }
    requires small { pages_for (length region.now.bytes) ≤ 64 }
    ensures { result ≡ behind start region.now }
{
    start + PAGE * pages_for(region.bytes.len()) as u32
}

/// Whether a region that begins at `start` has all bytes from `low` up to but not at `high`, and may be written where
/// `writes` is set.
fn region_holds(start: u32, region: &Region, low: i64, high: i64, writes: bool) -> bool
    requires { pages_for (length region.now.bytes) ≤ 64 }
    ensures { result ≡
        region_holds low high writes
        (record { address = start; bytes = region.now.bytes; writable = region.now.writable }) }
{
    let end = i64::from(start) + region.bytes.len() as i64;
    !(low < i64::from(start)) && !(end < high) && (!writes || region.writable)
}

/// Whether one region has all bytes from the address `low` up to but not at `high`, and may be written where `writes`
/// is set. An address is a whole number.
pub fn holds(regions: &[Region], low: i64, high: i64, writes: bool) -> bool
    requires { length (page_rights regions.now) ≤ 64 }
    ensures { result ≡ holds regions.now low high writes }
{
    let mut start = DATA_START;
    for region in regions {
        if region_holds(start, region, low, high, writes) {
            return true;
        }
        start = behind(start, region);
    }
    false
}

/// The address of the first byte of the region with a number, counted from 0; nothing where there are not so many
/// regions.
pub fn start_of(regions: &[Region], index: usize) -> Option<u32>
    requires { length (page_rights regions.now) ≤ 64 }
    ensures { result ≡ start_of regions.now index }
{
    let mut start = DATA_START;
    let mut before = index;
    for region in regions {
        if before == 0 {
            return Some(start);
        }
        start = behind(start, region);
        before -= 1;
    }
    None
}

/// How many bytes all regions have.
pub fn byte_count(regions: &[Region]) -> u32
    requires { byte_count regions.now ≤ 262144 }
    ensures { result ≡ byte_count regions.now }
{
    let mut count = 0;
    for region in regions {
        count += region.bytes.len() as u32;
    }
    count
}
