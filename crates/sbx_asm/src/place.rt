//! Places of a source: how far the code and the data have come.
ghost use Rattle.std.specs.Prelude.{◌≡◌, ◌+◌, ◌-◌, ◌*◌, ◌≤◌, min, nat_le, List, [], ◌∷◌};
ghost use Rattle.sbx_directives.specs.Data.{bytes_of_width};
ghost use Rattle.sbx_asm.specs.Items.{Item};
ghost use Rattle.sbx_asm.specs.Addresses.{code_offset, data_offset, data_length, in_code, label_address, padding_of};
ghost use Rattle.sbx_asm.specs.Addresses.{section_room, next_start, region_start, start_behind};
ghost use Rattle.sbx_asm.specs.Kept.{place_at};

use crate::kinds::{is_data, is_region, is_text};
use crate::reading::Line;
use sbx_directives::{Directive, Statement, Width, byte_len};
use v8_map::{CODE_START, DATA_START};

/// The bytes that a section has room for, as the code, the data or a region of them.
pub const ROOM: u32 = 0x40000;

/// Where a ninth region, which is too many, begins at the latest.
const LAST_START: u32 = DATA_START + 8 * ROOM;

/// How far the code and the newest region of the data have come.
#[derive(Clone, Copy)]
pub struct LocationCounter {
    /// Whether the code is the current section, what labels and data speak of.
    pub in_code: bool,
    /// The address of what comes next in the code.
    pub next_word: u32,
    /// Whether a region has begun.
    pub has_region: bool,
    /// Where the newest region begins, or the data where there are no regions.
    pub region_start: u32,
    pub region_bytes: u32,
}

/// How many bytes so many values take.
pub fn bytes_of_values(width: Width, count: usize) -> u128
    ensures { result ≡ bytes_of_width width * count }
{
    byte_len(width) as u128 * count as u128
}

/// How many zeros stand up to a multiple of `unit` bytes, behind so many.
pub fn padding(unit: u32, bytes: u32) -> u32
    ensures { result ≡ padding_of unit bytes }
{
    if unit == 0 {
        0
    } else {
        (unit - bytes % unit) % unit
    }
}

/// The page behind a region's last one, where the next region begins.
fn start_behind(start: u32, bytes: u32) -> u32
    ensures { result ≡ start_behind start bytes }
{
    let pages = (u64::from(bytes) + 4095) / 4096;
    let next = u64::from(start) + 4096 * pages;
    if next <= u64::from(LAST_START) {
        next as u32
    } else {
        LAST_START
    }
}

/// How far a section is filled behind so many bytes and some more.
fn up_to_room(offset: u32, more: u128) -> u32
    ensures value { result ≡ min (offset + more) section_room }
    ensures bound { result ≤ section_room }
{
    if offset <= ROOM && more <= u128::from(ROOM - offset) {
        offset + more as u32
    } else {
        ROOM
    }
}

/// Whether so many bytes fit behind others of their section.
fn fits_behind(offset: u32, bytes: u128) -> bool
    ensures { result ≡ nat_le bytes (section_room - offset) }
{
    bytes <= u128::from(ROOM.saturating_sub(offset))
}

/// How many bytes a line adds to so many of the data.
fn data_length(bytes: u32, line: &Line<'_, '_>) -> u128
    ensures { result ≡ data_length bytes line.now.said }
{
    match line.said() {
        Ok(Statement::Directive(Directive::Values(width, count))) => bytes_of_values(width, count),
        Ok(Statement::Directive(Directive::Skip(count))) => u128::from(count),
        Ok(Statement::Directive(Directive::Align(unit))) => u128::from(padding(unit, bytes)),
        _ => 0,
    }
}

/// Whether the code is the current section behind a line.
fn in_code_after(current: bool, line: &Line<'_, '_>) -> bool
    ensures { (before : List Item) → current ≡ in_code before → result ≡ in_code (line.now ∷ before) }
{
    is_text(line) || (current && !is_data(line) && !is_region(line))
}

impl LocationCounter {
    /// Before the first line.
    pub fn start() -> LocationCounter
        ensures { result ≡ place_at [] }
    {
        LocationCounter {
            in_code: true,
            next_word: CODE_START,
            has_region: false,
            region_start: DATA_START,
            region_bytes: 0,
        }
    }

    /// How far the code is filled.
    fn code_offset(self) -> u32
        ensures { (before : List Item) → self ≡ place_at before → result ≡ code_offset before }
    {
        self.next_word.saturating_sub(CODE_START)
    }

    /// Where a region begins: the first one where the data do, each next one behind the one before.
    fn next_start(self) -> u32
        ensures { (before : List Item) → self ≡ place_at before → result ≡ next_start before (region_start before) }
    {
        if self.has_region {
            start_behind(self.region_start, self.region_bytes)
        } else {
            DATA_START
        }
    }

    /// Behind one more line.
    pub fn after(self, line: &Line<'_, '_>) -> LocationCounter
        ensures { (before : List Item) → self ≡ place_at before → result ≡ place_at (line.now ∷ before) }
    {
        let in_code = in_code_after(self.in_code, line);
        let next_word = CODE_START + up_to_room(self.code_offset(), line.code_length());
        if is_region(line) {
            LocationCounter {
                in_code,
                next_word,
                has_region: true,
                region_start: self.next_start(),
                region_bytes: 0,
            }
        } else {
            let more = data_length(self.region_bytes, line);
            LocationCounter {
                in_code,
                next_word,
                has_region: self.has_region,
                region_start: self.region_start,
                region_bytes: up_to_room(self.region_bytes, more),
            }
        }
    }

    /// Where labels point in the current section.
    pub fn address(self) -> u32
        ensures { (before : List Item) → self ≡ place_at before → result ≡ label_address before }
    {
        if self.in_code {
            self.next_word
        } else {
            self.region_start.saturating_add(self.region_bytes)
        }
    }

    /// Whether the code has room for so many bytes more.
    pub fn code_has_room(self, bytes: u128) -> bool
        ensures { (before : List Item) → self ≡ place_at before →
            result ≡ nat_le bytes (section_room - code_offset before) }
    {
        fits_behind(self.code_offset(), bytes)
    }

    /// Whether the data have.
    pub fn data_has_room(self, bytes: u128) -> bool
        ensures { (before : List Item) → self ≡ place_at before →
            result ≡ nat_le bytes (section_room - data_offset before) }
    {
        fits_behind(self.region_bytes, bytes)
    }
}
