//! Bytes as parts, field by field from left to right.
ghost use Rattle.std.specs.Prelude.{◌≡◌, ℕ, ◌+◌, ◌≤◌, List, IfOk};
ghost use Rattle.std.specs.Int.{w8, w16, w32, w64};
ghost use Rattle.sbx_parts.specs.declared.order.Next.{Next};
ghost use Rattle.sbx_parts.specs.Rules.{FunctionsSoFar};
ghost use Rattle.sbx_image.specs.Reading.{Gives, number_at, bytes_at, items_at, range_at, location_at, cell_at};
ghost use Rattle.sbx_image.specs.Reading.{term_at, block_head_at, block_at, kind_at, counts_at, bounds_at, depth_at};
ghost use Rattle.sbx_image.specs.Reading.{function_head_at, function_at, services_at, data_length_at, data_count_at};
ghost use Rattle.sbx_image.specs.Reading.{header_at, shape_at, shape_of, shapes_at, shape_bytes, regions_at, parts_at};
ghost use Rattle.sbx_image.specs.Reading.{reading};
ghost use Rattle.sbx_image.specs.Spelling.{spelling};

use crate::heads::{BlockHead, Bounds, Counts, FunctionHead, Header, Shape};
use crate::image::Image;
use crate::numbers::{i32_at, i64_at, u8_in, u16_at, u16_in, u32_at, u32_in, u64_in};
use sbx_parts::{
    Block, Cell, Function, ImageFault, Items, Kind, Next, Parts, Range, Region, Services, Term,
    admits, is_coefficient, is_fuel, is_length_behind, pages_for, services_of,
};
use std::alloc::{AllocError, Global};
use v8_map::CODE_START;

/// An item of a list, as the format has it.
pub trait Readable: Drop {
    ghost use Rattle.std.specs.Prelude.{◌≡◌, ℕ, List, Result};
    ghost use Rattle.sbx_parts.specs.declared.fault.ImageFault.{ImageFault};
    ghost use Rattle.sbx_image.specs.Reading.{Gives};

    /// What its fields' bounds need of the image, the same for each item: the address behind the code, say.
    type Setting: Copy;

    /// What an item leaves for the next one of its list, as the last location.
    type State: Copy;

    /// What is still to be read, with what goes along.
    ghost Cursor: { Type 0 };

    /// The bytes that are still to be read, behind an item that left a state.
    ghost at: { Self.State → List ℕ → Cursor };

    /// The item at a cursor, and the cursor behind it.
    ghost item_at: { Self.Setting → Cursor → Result (Self × Cursor) ImageFault };

    /// The item at the front; behind it, what it leaves and the bytes that are still to be read.
    fn read(
        alloc: Global,
        setting: Self::Setting,
        state: Self::State,
        bytes: &[u8],
    ) -> Result<(Self, (Self::State, &[u8])), ImageFault>
        ensures { Gives (λ x. (x.0, at x.1.0 x.1.1.now)) result (item_at setting (at state bytes.now)) };
}

/// So many items, one after the other; behind them, what the last one leaves.
fn items_of<T: Readable>(
    alloc: Global,
    setting: T::Setting,
    count: u32,
    first: T::State,
    bytes: &[u8],
) -> Result<(Vec<T>, (T::State, &[u8])), ImageFault>
    ensures { Gives (λ x. (x.0.items, T.at x.1.0 x.1.1.now)) result
        (items_at (T.item_at setting) count (T.at first bytes.now)) }
{
    let mut items = Vec::with_capacity(alloc, count as usize)?;
    let mut state = first;
    let mut rest = bytes;
    for _ in 0..count {
        let (item, (next, after)) = T::read(alloc, setting, state, rest)?;
        items.push(item)?;
        state = next;
        rest = after;
    }
    Ok((items, (state, rest)))
}

impl Readable for u32 {
    type Setting = ();

    type State = ();

    ghost Cursor = { List ℕ };

    ghost at = { λ _ bytes. bytes };

    ghost item_at = { λ _. number_at w32 };

    fn read(
        _alloc: Global,
        _setting: (),
        _state: (),
        bytes: &[u8],
    ) -> Result<(u32, ((), &[u8])), ImageFault> {
        let (word, rest) = u32_at(bytes)?;
        Ok((word, ((), rest)))
    }
}

impl Readable for Range {
    type Setting = ();

    type State = ();

    ghost Cursor = { List ℕ };

    ghost at = { λ _ bytes. bytes };

    ghost item_at = { λ _. range_at };

    fn read(
        _alloc: Global,
        _setting: (),
        _state: (),
        bytes: &[u8],
    ) -> Result<(Range, ((), &[u8])), ImageFault> {
        let (range, rest) = range_of(bytes)?;
        Ok((range, ((), rest)))
    }
}

impl Readable for Cell {
    type Setting = ();

    type State = u16;

    ghost Cursor = { ℕ × List ℕ };

    ghost at = { λ last bytes. (last, bytes) };

    ghost item_at = { λ _. cell_at };

    #[tactic(auto, unfolding(crate::specs::Reading::cell_at))]
    fn read(
        _alloc: Global,
        _setting: (),
        last: u16,
        bytes: &[u8],
    ) -> Result<(Cell, (u16, &[u8])), ImageFault> {
        let (location, rest) = location_of(last, bytes)?;
        let (range, rest) = range_of(rest)?;
        Ok((Cell { location, range }, (location, rest)))
    }
}

impl Readable for Term {
    type Setting = ();

    type State = u16;

    ghost Cursor = { ℕ × List ℕ };

    ghost at = { λ last bytes. (last, bytes) };

    ghost item_at = { λ _. term_at };

    #[tactic(auto, unfolding(crate::specs::Reading::term_at))]
    fn read(
        _alloc: Global,
        _setting: (),
        last: u16,
        bytes: &[u8],
    ) -> Result<(Term, (u16, &[u8])), ImageFault> {
        let (location, rest) = location_of(last, bytes)?;
        let (coefficient, rest) = i32_at(rest)?;
        if !is_coefficient(coefficient) {
            return Err(ImageFault::Limit);
        }
        let term = Term {
            location,
            coefficient,
        };
        Ok((term, (location, rest)))
    }
}

impl Readable for Block {
    type Setting = u32;

    type State = Next;

    ghost Cursor = { Next × List ℕ };

    ghost at = { λ next bytes. (next, bytes) };

    ghost item_at = { block_at };

    fn read(
        alloc: Global,
        end: u32,
        next: Next,
        bytes: &[u8],
    ) -> Result<(Block, (Next, &[u8])), ImageFault> {
        block_of(alloc, end, next, bytes)
    }
}

impl Readable for Function {
    type Setting = (u16, u32);

    type State = (Next, u16);

    ghost Cursor = { FunctionsSoFar × List ℕ };

    ghost at = { λ place bytes. (place, bytes) };

    ghost item_at = { λ setting. function_at setting.0 setting.1 };

    #[tactic(auto, unfolding(crate::specs::Reading::function_at))]
    fn read(
        alloc: Global,
        setting: (u16, u32),
        place: (Next, u16),
        bytes: &[u8],
    ) -> Result<(Function, ((Next, u16), &[u8])), ImageFault> {
        let (version, end) = setting;
        let (head, rest) = function_head_of(version, end, place, bytes)?;
        let (params, rest) = ranges_of(alloc, head.params, rest)?;
        let (results, rest) = ranges_of(alloc, head.results, rest)?;
        let first = Next::Exactly(head.entry);
        let (blocks, (next, rest)) = items_of(alloc, end, head.blocks as u32, first, rest)?;
        let function = Function {
            kind: head.kind,
            params: Items::new(params),
            results: Items::new(results),
            entry: head.entry,
            frame: head.frame,
            stack_room: head.stack_room,
            budget: head.budget,
            depth: head.depth,
            blocks: Items::new(blocks),
        };
        Ok((function, ((next, place.1 + head.blocks), rest)))
    }
}

#[tactic(auto, unfolding(crate::specs::Reading::range_at))]
fn range_of(bytes: &[u8]) -> Result<(Range, &[u8]), ImageFault>
    ensures { Gives (λ x. (x.0, x.1.now)) result (range_at bytes.now) }
{
    let (lo, rest) = i32_at(bytes)?;
    let (hi, rest) = i32_at(rest)?;
    if hi < lo {
        return Err(ImageFault::Range);
    }
    let (alignment, rest) = u8_in(rest, 0, 3, ImageFault::Range)?;
    Ok((Range { lo, hi, alignment }, rest))
}

#[tactic(auto, unfolding(crate::specs::Reading::location_at))]
fn location_of(last: u16, bytes: &[u8]) -> Result<(u16, &[u8]), ImageFault>
    ensures { Gives (λ x. (x.0, x.1.now)) result (location_at last bytes.now) }
{
    let (location, rest) = u16_in(bytes, 1, 1039, ImageFault::Limit)?;
    if location <= last {
        return Err(ImageFault::Order);
    }
    Ok((location, rest))
}

#[tactic(auto, unfolding(crate::specs::Reading::block_head_at))]
fn block_head_of(end: u32, next: Next, bytes: &[u8]) -> Result<(BlockHead, &[u8]), ImageFault>
    ensures { Gives (λ x. (x.0, x.1.now)) result (block_head_at end next bytes.now) }
{
    let (address, rest) = u32_at(bytes)?;
    if !admits(end, next, address) {
        return Err(ImageFault::Order);
    }
    let (cells, rest) = u16_in(rest, 0, 64, ImageFault::Limit)?;
    let (terms, rest) = u16_in(rest, 0, 8, ImageFault::Limit)?;
    let (fuel, rest) = i64_at(rest)?;
    if !is_fuel(fuel) {
        return Err(ImageFault::Limit);
    }
    let head = BlockHead {
        address,
        cells,
        terms,
        fuel,
    };
    Ok((head, rest))
}

/// A block; behind it, where the next one may lie. `end` is the address behind the code.
#[tactic(auto, unfolding(crate::specs::Reading::block_at))]
pub fn block_of(
    alloc: Global,
    end: u32,
    next: Next,
    bytes: &[u8],
) -> Result<(Block, (Next, &[u8])), ImageFault>
    ensures { Gives (λ x. (x.0, (x.1.0, x.1.1.now))) result (block_at end (next, bytes.now)) }
{
    let (head, rest) = block_head_of(end, next, bytes)?;
    let (cells, (_, rest)) = items_of(alloc, (), head.cells as u32, 0, rest)?;
    let (terms, (_, rest)) = items_of(alloc, (), head.terms as u32, 0, rest)?;
    let block = Block {
        address: head.address,
        fuel: head.fuel,
        cells: Items::new(cells),
        terms: Items::new(terms),
    };
    Ok((block, (Next::Above(head.address), rest)))
}

#[tactic(auto, unfolding(crate::specs::Reading::kind_at))]
fn kind_of(bytes: &[u8]) -> Result<(Kind, &[u8]), ImageFault>
    ensures { Gives (λ x. (x.0, x.1.now)) result (kind_at bytes.now) }
{
    let (kind, rest) = u8_in(bytes, 0, 1, ImageFault::Limit)?;
    if kind == 0 {
        Ok((Kind::Leaf, rest))
    } else {
        Ok((Kind::Framed, rest))
    }
}

#[tactic(auto, unfolding(crate::specs::Reading::counts_at))]
fn counts_of(bytes: &[u8]) -> Result<(Counts, &[u8]), ImageFault>
    ensures { Gives (λ x. (x.0, x.1.now)) result (counts_at bytes.now) }
{
    let (kind, rest) = kind_of(bytes)?;
    let (params, rest) = u8_in(rest, 0, 6, ImageFault::Limit)?;
    let (results, rest) = u8_in(rest, 0, 6, ImageFault::Limit)?;
    let (_, rest) = u8_in(rest, 0, 0, ImageFault::Limit)?;
    let counts = Counts {
        kind,
        params,
        results,
    };
    Ok((counts, rest))
}

#[tactic(auto, unfolding(crate::specs::Reading::bounds_at))]
fn bounds_of(bytes: &[u8]) -> Result<(Bounds, &[u8]), ImageFault>
    ensures { Gives (λ x. (x.0, x.1.now)) result (bounds_at bytes.now) }
{
    let (frame, rest) = u32_in(bytes, 0, 4096, ImageFault::Limit)?;
    let (stack_room, rest) = u32_in(rest, 0, 65536, ImageFault::Limit)?;
    let (budget, rest) = u64_in(rest, 0, 0xFF_FFFF_FFFF, ImageFault::Limit)?;
    let bounds = Bounds {
        frame,
        stack_room,
        budget,
    };
    Ok((bounds, rest))
}

/// How many frames calls push at one time, which version 3 alone tells.
fn depth_of(version: u16, bytes: &[u8]) -> Result<(u16, &[u8]), ImageFault>
    ensures { Gives (λ x. (x.0, x.1.now)) result (depth_at version bytes.now) }
{
    if version == 3 {
        u16_in(bytes, 0, 256, ImageFault::Limit)
    } else {
        Ok((0, bytes))
    }
}

/// What stands before a function's ranges. `place` is where it may begin, and how many blocks the functions before it
/// have.
#[tactic(auto, unfolding(crate::specs::Reading::function_head_at))]
pub fn function_head_of(
    version: u16,
    end: u32,
    place: (Next, u16),
    bytes: &[u8],
) -> Result<(FunctionHead, &[u8]), ImageFault>
    ensures reads { Gives (λ x. (x.0, x.1.now)) result (function_head_at version end place bytes.now) }
    ensures bound { IfOk result (λ x. place.1 + x.0.blocks ≤ 4096) }
{
    let (counts, rest) = counts_of(bytes)?;
    let (entry, rest) = u32_at(rest)?;
    if !admits(end, place.0, entry) {
        return Err(ImageFault::Order);
    }
    let (bounds, rest) = bounds_of(rest)?;
    let (depth, rest) = depth_of(version, rest)?;
    let room = 4096u16.saturating_sub(place.1);
    let (blocks, rest) = u16_in(rest, 1, room, ImageFault::Limit)?;
    let head = FunctionHead {
        kind: counts.kind,
        params: counts.params,
        results: counts.results,
        entry,
        frame: bounds.frame,
        stack_room: bounds.stack_room,
        budget: bounds.budget,
        depth,
        blocks,
    };
    Ok((head, rest))
}

/// So many ranges, one after the other.
pub fn ranges_of(alloc: Global, count: u8, bytes: &[u8]) -> Result<(Vec<Range>, &[u8]), ImageFault>
    ensures { Gives (λ x. (x.0.items, x.1.now)) result (items_at range_at count bytes.now) }
{
    let (ranges, ((), rest)) = items_of(alloc, (), count as u32, (), bytes)?;
    Ok((ranges, rest))
}

fn bytes_of(alloc: Global, count: u32, bytes: &[u8]) -> Result<(Vec<u8>, &[u8]), ImageFault>
    ensures { Gives (λ x. (x.0.items, x.1.now)) result (bytes_at count bytes.now) }
{
    let count = count as usize;
    if bytes.len() < count {
        return Err(ImageFault::Short);
    }
    let (front, rest) = bytes.split_at(count);
    Ok((Vec::from_slice(alloc, front)?, rest))
}

/// Version and services, behind what tells an image.
#[tactic(auto, unfolding(crate::specs::Reading::services_at))]
fn services_in(bytes: &[u8]) -> Result<((u16, Services), &[u8]), ImageFault>
    ensures { Gives (λ x. (x.0, x.1.now)) result (services_at bytes.now) }
{
    let (_, rest) = u32_in(bytes, 0x5342_5838, 0x5342_5838, ImageFault::Magic)?;
    let (version, rest) = u16_at(rest)?;
    if !(1 <= version && version <= 3) {
        return Err(ImageFault::Version);
    }
    let (bits, rest) = u16_at(rest)?;
    match services_of(bits) {
        Some(services) => Ok(((version, services), rest)),
        None => Err(ImageFault::Service),
    }
}

#[tactic(auto, unfolding(crate::specs::Reading::data_length_at))]
fn data_length_of(bytes: &[u8]) -> Result<(u32, &[u8]), ImageFault>
    ensures reads { Gives (λ x. (x.0, x.1.now)) result (data_length_at bytes.now) }
    ensures bound { IfOk result (λ x. x.0 ≤ 262144) }
{
    let (data_bytes, rest) = u32_at(bytes)?;
    if !(data_bytes <= 262144 && data_bytes % 8 == 0) {
        return Err(ImageFault::Limit);
    }
    Ok((data_bytes, rest))
}

/// How many bytes of data version 1 has, or how many regions versions 2 and 3 have.
#[tactic(auto, unfolding(crate::specs::Reading::data_count_at))]
fn data_count_of(version: u16, bytes: &[u8]) -> Result<(u32, &[u8]), ImageFault>
    ensures reads { Gives (λ x. (x.0, x.1.now)) result (data_count_at version bytes.now) }
    ensures bound { IfOk result (λ x. x.0 ≤ 262144) }
{
    if version == 1 {
        return data_length_of(bytes);
    }
    let (count, rest) = u16_in(bytes, 0, 8, ImageFault::Limit)?;
    Ok((count as u32, rest))
}

/// What stands before the regions' lengths and the words: the services, behind magic and version, and the counts.
#[tactic(auto, unfolding(crate::specs::Reading::header_at))]
pub fn header_of(bytes: &[u8]) -> Result<(Header, &[u8]), ImageFault>
    ensures reads { Gives (λ x. (x.0, x.1.now)) result (header_at bytes.now) }
    ensures bound { IfOk result (λ x. (x.0.words ≤ 65536) × (x.0.data_count ≤ 262144)) }
{
    let ((version, services), rest) = services_in(bytes)?;
    let (words, rest) = u32_in(rest, 1, 65536, ImageFault::Limit)?;
    let (data_count, rest) = data_count_of(version, rest)?;
    let (stack_pages, rest) = u16_in(rest, 1, 16, ImageFault::Limit)?;
    let (functions, rest) = u16_in(rest, 1, 256, ImageFault::Limit)?;
    let header = Header {
        version,
        services,
        words,
        data_count,
        stack_pages,
        functions,
    };
    Ok((header, rest))
}

impl Readable for Shape {
    type Setting = ();

    type State = u16;

    ghost Cursor = { ℕ × List ℕ };

    ghost at = { λ pages bytes. (pages, bytes) };

    ghost item_at = { λ _. shape_at };

    #[tactic(auto, unfolding(crate::specs::Reading::shape_at))]
    fn read(
        _alloc: Global,
        _setting: (),
        pages: u16,
        bytes: &[u8],
    ) -> Result<(Shape, (u16, &[u8])), ImageFault> {
        let (count, rest) = u32_at(bytes)?;
        if !is_length_behind(pages, count as usize) {
            return Err(ImageFault::Limit);
        }
        let (kind, rest) = u16_in(rest, 0, 1, ImageFault::Limit)?;
        let shape = Shape {
            bytes: count,
            writable: kind == 1,
        };
        Ok((shape, (pages + pages_for(count as usize) as u16, rest)))
    }
}

/// The one region of version 1, which may be written, or none where there are no bytes.
fn shape_of(alloc: Global, count: u32) -> Result<Vec<Shape>, AllocError>
    ensures { IfOk result (λ v. v.items ≡ shape_of count) }
{
    let mut shapes = Vec::new(alloc);
    if count > 0 {
        shapes.push(Shape {
            bytes: count,
            writable: true,
        })?;
    }
    Ok(shapes)
}

/// The regions' lengths and kinds, which versions 2 and 3 have behind the header.
#[tactic(auto, unfolding(crate::specs::Reading::shapes_at))]
pub fn shapes_of(
    alloc: Global,
    header: Header,
    bytes: &[u8],
) -> Result<(Vec<Shape>, &[u8]), ImageFault>
    ensures reads { Gives (λ x. (x.0.items, x.1.now)) result (shapes_at header bytes.now) }
    ensures bound { IfOk result (λ x. header.data_count ≤ 262144 → shape_bytes x.0.items ≤ 262144) }
{
    if header.version == 1 {
        return Ok((shape_of(alloc, header.data_count)?, bytes));
    }
    let (shapes, (_, rest)) = items_of(alloc, (), header.data_count, 0, bytes)?;
    Ok((shapes, rest))
}

/// How many bytes all regions have.
pub fn shape_bytes(shapes: &[Shape]) -> u32
    requires { shape_bytes shapes.now ≤ 262144 }
    ensures { result ≡ shape_bytes shapes.now }
{
    let mut count = 0;
    for shape in shapes {
        count += shape.bytes;
    }
    count
}

/// The bytes of each region.
fn regions_of<'a>(
    alloc: Global,
    shapes: &[Shape],
    bytes: &'a [u8],
) -> Result<(Vec<Region>, &'a [u8]), ImageFault>
    ensures { Gives (λ x. (x.0.items, x.1.now)) result (regions_at shapes.now bytes.now) }
{
    let mut regions = Vec::with_capacity(alloc, shapes.len())?;
    let mut rest = bytes;
    for shape in shapes {
        let (own, after) = bytes_of(alloc, shape.bytes, rest)?;
        regions.push(Region {
            bytes: Items::new(own),
            writable: shape.writable,
        })?;
        rest = after;
    }
    Ok((regions, rest))
}

#[tactic(auto, unfolding(crate::specs::Reading::parts_at))]
fn parts_of(alloc: Global, bytes: &[u8]) -> Result<(Parts, &[u8]), ImageFault>
    ensures { Gives (λ x. (x.0, x.1.now)) result (parts_at bytes.now) }
{
    let (header, rest) = header_of(bytes)?;
    let (shapes, rest) = shapes_of(alloc, header, rest)?;
    let setting = (header.version, CODE_START + 4 * header.words);
    let first = (Next::Exactly(CODE_START), 0);
    let (words, ((), rest)) = items_of(alloc, (), header.words, (), rest)?;
    let (regions, rest) = regions_of(alloc, shapes.as_slice(), rest)?;
    let (functions, (_, rest)) = items_of(alloc, setting, header.functions as u32, first, rest)?;
    let parts = Parts {
        version: header.version,
        services: header.services,
        words: Items::new(words),
        regions: Items::new(regions),
        stack_pages: header.stack_pages,
        functions: Items::new(functions),
    };
    Ok((parts, rest))
}

#[tactic(auto, unfolding(crate::specs::Reading::reading))]
fn whole_of(alloc: Global, bytes: &[u8]) -> Result<Parts, ImageFault>
    ensures { Gives (λ parts. parts) result (reading bytes.now) }
{
    let (parts, rest) = parts_of(alloc, bytes)?;
    if !rest.is_empty() {
        return Err(ImageFault::Trailing);
    }
    Ok(parts)
}

/// The image that all of the bytes spell, or the fault of the first bad field from the left. `Memory` comes in the
/// place of either only where memory was refused.
pub fn parse(alloc: Global, bytes: &[u8]) -> Result<Image, ImageFault>
    ensures read { Gives (λ image. image) result (reading bytes.now) }
    ensures spelled { IfOk result (λ image. bytes.now ≡ spelling image) }
{
    let parts = whole_of(alloc, bytes)?;
    Ok(Image::of(parts))
}
