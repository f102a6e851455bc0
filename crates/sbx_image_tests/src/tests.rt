//! The format's worked images, its bounds, and parts.
use sbx_image::{
    Block, Cell, Function, Image, ImageFault, Items, Kind, Parts, Range, Region, Services, parse,
    write,
};
use std::alloc::{AllocError, Global};
use std::process::Abort;

/// The image that writes `Hi`: exit and put, six words, one leaf with one block.
pub(crate) const HELLO: [u8; 86] = [
    83, 66, 88, 56, 0, 1, 0, 5, 0, 0, 0, 6, 0, 0, 0, 0, 0, 1, 0, 1, 144, 16, 32, 72, 145, 208, 32,
    2, 144, 16, 32, 105, 145, 208, 32, 2, 144, 16, 32, 0, 145, 208, 32, 0, 0, 0, 0, 0, 0, 4, 0, 0,
    0, 0, 0, 0, 0, 0, 0, 0, 0, 0, 0, 0, 0, 0, 0, 16, 0, 1, 0, 4, 0, 0, 0, 0, 0, 0, 0, 0, 0, 0, 0,
    0, 0, 16,
];

/// Two functions, a result, a param, three blocks, cells and terms.
const CALLS: [u8; 212] = [
    83, 66, 88, 56, 0, 1, 0, 7, 0, 0, 0, 8, 0, 0, 0, 8, 0, 16, 0, 2, 1, 0, 0, 0, 1, 0, 0, 0, 1, 0,
    0, 0, 1, 0, 0, 0, 1, 0, 0, 0, 1, 0, 0, 0, 1, 0, 0, 0, 1, 0, 0, 0, 97, 98, 99, 100, 101, 102,
    103, 104, 1, 0, 1, 0, 0, 4, 0, 0, 0, 0, 0, 96, 0, 0, 0, 96, 0, 0, 0, 0, 0, 0, 0, 39, 0, 2, 255,
    255, 255, 251, 0, 0, 0, 5, 0, 0, 4, 0, 0, 0, 0, 0, 0, 0, 0, 0, 0, 0, 0, 0, 39, 0, 4, 0, 8, 0,
    2, 0, 2, 255, 255, 255, 255, 255, 255, 255, 254, 0, 8, 128, 0, 0, 0, 127, 255, 255, 255, 3, 4,
    15, 0, 0, 0, 0, 0, 0, 0, 0, 0, 0, 8, 255, 255, 255, 255, 0, 16, 127, 255, 255, 255, 0, 1, 0, 0,
    0, 4, 0, 16, 0, 0, 0, 0, 0, 0, 0, 0, 0, 0, 0, 0, 0, 0, 0, 2, 0, 1, 0, 0, 0, 0, 0, 0, 0, 254, 2,
    0, 4, 0, 16, 0, 0, 0, 0, 0, 0, 0, 0, 0, 0, 0, 2,
];

/// What is read of bytes. Where a growth was refused, they are read once more.
fn read(alloc: Global, bytes: &[u8]) -> Result<Image, ImageFault> {
    match parse(alloc, bytes) {
        Err(ImageFault::Memory(_)) => parse(alloc, bytes),
        first => first,
    }
}

/// The bytes of an image. Where a growth was refused, they are written once more.
fn written(alloc: Global, image: &Image) -> Result<Vec<u8>, AllocError> {
    match write(image, alloc) {
        Err(AllocError) => write(image, alloc),
        first => first,
    }
}

/// Whether bytes get the fault; none where they are an image.
fn is_told(alloc: Global, bytes: &[u8], wanted: Option<ImageFault>) -> bool {
    match read(alloc, bytes) {
        Ok(_) => wanted.is_none(),
        Err(fault) => wanted == Some(fault),
    }
}

/// Whether an image is written as these bytes.
fn is_written_as(alloc: Global, image: &Image, bytes: &[u8]) -> bool {
    match written(alloc, image) {
        Ok(text) => text.as_slice() == bytes,
        Err(AllocError) => false,
    }
}

/// Whether an image is written as the bytes that it was read from.
fn is_written_back(alloc: Global, bytes: &[u8]) -> bool {
    match read(alloc, bytes) {
        Ok(image) => is_written_as(alloc, &image, bytes),
        Err(_) => false,
    }
}

/// The code of `HELLO`.
const WORDS: [u32; 6] = [
    0x9010_2048,
    0x91D0_2002,
    0x9010_2069,
    0x91D0_2002,
    0x9010_2000,
    0x91D0_2000,
];

/// Whether the one block is that of `HELLO`.
fn are_blocks_of_hello(blocks: &[Block]) -> bool {
    match blocks {
        [block] => block.address == 0x40000 && block.fuel == 16,
        _ => false,
    }
}

/// Whether the one function is that of `HELLO`.
fn are_functions_of_hello(functions: &[Function]) -> bool {
    match functions {
        [function] => {
            function.kind == Kind::Leaf
                && function.entry == 0x40000
                && function.budget == 16
                && function.depth == 0
                && are_blocks_of_hello(function.blocks.as_slice())
        }
        _ => false,
    }
}

/// Whether each reader of an image gives what `HELLO` says.
fn is_hello(image: &Image) -> bool {
    image.services() == Services::EXIT | Services::PUT
        && image.words() == WORDS.as_slice()
        && image.word_count() == 6
        && image.version() == 1
        && image.regions().is_empty()
        && image.byte_count() == 0
        && image.stack_pages() == 1
        && image.function_count() == 1
        && are_functions_of_hello(image.functions())
}

/// Whether `HELLO` is read so.
fn is_hello_read(alloc: Global) -> bool {
    match read(alloc, &HELLO) {
        Ok(image) => is_hello(&image),
        Err(_) => false,
    }
}

#[test]
fn reads_the_fields(rt: HostRuntime) {
    assert!(rt; is_hello_read(rt.alloc()));
}

#[test]
fn writes_what_was_read(rt: HostRuntime) {
    assert!(rt; is_written_back(rt.alloc(), &HELLO), "HELLO");
    assert!(rt; is_written_back(rt.alloc(), &CALLS), "CALLS");
}

/// Whether a byte more than `HELLO` is told.
fn is_trailing_told(alloc: Global) -> bool {
    let mut longer = [0u8; 87];
    longer[..86].copy_from_slice(&HELLO);
    is_told(alloc, &longer, Some(ImageFault::Trailing))
}

#[test]
fn tells_the_end_of_the_bytes(rt: HostRuntime) {
    for end in 0..86usize {
        assert!(rt;
            is_told(rt.alloc(), &HELLO[..end], Some(ImageFault::Short)),
            "at {end}"
        );
    }
    assert!(rt; is_trailing_told(rt.alloc()), "a byte more");
}

/// Bytes of an image that are replaced from a place on, and the fault that they get; none where they are an image.
type Change = (usize, &'static [u8], Option<ImageFault>);

/// Changes of the header.
const OF_HEADER: [Change; 19] = [
    (0, &[82], Some(ImageFault::Magic)),
    (4, &[0, 3], Some(ImageFault::Limit)), // so it has no region, and of its functions the first has 97 results
    (4, &[0, 4], Some(ImageFault::Version)),
    (4, &[0, 0], Some(ImageFault::Version)),
    (6, &[0, 8], Some(ImageFault::Service)),
    (6, &[0, 0], None),
    (8, &[0, 0, 0, 0], Some(ImageFault::Limit)),
    (8, &[0, 1, 0, 1], Some(ImageFault::Limit)),
    (8, &[0, 1, 0, 0], Some(ImageFault::Short)), // the count passes, the words are short
    (12, &[0, 0, 0, 4], Some(ImageFault::Limit)),
    (12, &[0, 4, 0, 8], Some(ImageFault::Limit)),
    (12, &[0, 4, 0, 0], Some(ImageFault::Short)),
    (16, &[0, 0], Some(ImageFault::Limit)),
    (16, &[0, 17], Some(ImageFault::Limit)),
    (16, &[0, 1], None),
    (18, &[0, 0], Some(ImageFault::Limit)),
    (18, &[1, 1], Some(ImageFault::Limit)),
    (18, &[1, 0], Some(ImageFault::Short)),
    (18, &[0, 1], Some(ImageFault::Trailing)),
];

/// Changes of functions' heads and ranges.
const OF_FUNCTIONS: [Change; 24] = [
    (60, &[2], Some(ImageFault::Limit)),
    (60, &[0], None),
    (61, &[7], Some(ImageFault::Limit)),
    (62, &[7], Some(ImageFault::Limit)),
    (63, &[1], Some(ImageFault::Limit)),
    (64, &[0, 4, 0, 4], Some(ImageFault::Order)),
    (68, &[0, 0, 16, 0], None),
    (68, &[0, 0, 16, 1], Some(ImageFault::Limit)),
    (72, &[0, 1, 0, 0], None),
    (72, &[0, 1, 0, 1], Some(ImageFault::Limit)),
    (76, &[0, 0, 0, 255, 255, 255, 255, 255], None),
    (76, &[0, 0, 1, 0, 0, 0, 0, 0], Some(ImageFault::Limit)),
    (84, &[0, 0], Some(ImageFault::Limit)),
    (84, &[16, 1], Some(ImageFault::Limit)),
    (86, &[0, 0, 0, 5], None), // lo is hi
    (86, &[0, 0, 0, 6], Some(ImageFault::Range)),
    (94, &[3], None),
    (94, &[4], Some(ImageFault::Range)),
    (165, &[0, 4, 0, 8], Some(ImageFault::Order)),
    (165, &[0, 4, 0, 32], Some(ImageFault::Order)),
    (196, &[0, 4, 0, 20], Some(ImageFault::Order)),
    (187, &[0, 0, 0, 5, 0, 0, 0, 4], Some(ImageFault::Range)),
    (185, &[15, 254], Some(ImageFault::Short)), // 4,096 blocks in all
    (185, &[15, 255], Some(ImageFault::Limit)),
];

/// Changes of blocks, cells and terms.
const OF_BLOCKS: [Change; 25] = [
    (95, &[0, 4, 0, 4], Some(ImageFault::Order)),
    (99, &[0, 65], Some(ImageFault::Limit)),
    (101, &[0, 9], Some(ImageFault::Limit)),
    (103, &[0, 0, 0, 255, 255, 255, 255, 255], None),
    (103, &[0, 0, 1, 0, 0, 0, 0, 0], Some(ImageFault::Limit)),
    (103, &[255, 255, 255, 0, 0, 0, 0, 1], None),
    (
        103,
        &[255, 255, 255, 0, 0, 0, 0, 0],
        Some(ImageFault::Limit),
    ),
    (111, &[0, 4, 0, 0], Some(ImageFault::Order)),
    (111, &[0, 4, 0, 4], None),
    (111, &[0, 4, 0, 6], Some(ImageFault::Order)),
    (111, &[0, 4, 0, 32], Some(ImageFault::Order)),
    (111, &[0, 4, 0, 28], Some(ImageFault::Order)), // the next entry is not above it
    (127, &[0, 0], Some(ImageFault::Limit)),
    (127, &[0, 1], None),
    (127, &[4, 14], None),
    (127, &[4, 15], Some(ImageFault::Order)),
    (138, &[4, 16], Some(ImageFault::Limit)),
    (138, &[0, 8], Some(ImageFault::Order)),
    (138, &[0, 0], Some(ImageFault::Limit)), // 0 and out of order
    (149, &[0, 0], Some(ImageFault::Limit)),
    (155, &[0, 8], Some(ImageFault::Order)),
    (155, &[0, 9], None),
    (155, &[4, 16], Some(ImageFault::Limit)),
    (151, &[0, 0, 0, 0], Some(ImageFault::Limit)),
    (151, &[0, 0, 0, 1], None),
];

/// Replaces the bytes from a place on.
fn replace(bytes: &mut [u8], place: usize, change: &[u8]) {
    for (old, new) in bytes.iter_mut().skip(place).zip(change) {
        *old = *new;
    }
}

/// Whether bytes, at most 220, get the fault of a change.
fn is_change_told(alloc: Global, bytes: &[u8], change: &Change) -> bool {
    let mut room = [0u8; 220];
    replace(&mut room, 0, bytes);
    replace(&mut room, change.0, change.1);
    match room.get(..bytes.len()) {
        Some(changed) => is_told(alloc, changed, change.2),
        None => false,
    }
}

/// Asserts that bytes get the fault of each change.
fn are_changes_told(rt: &impl Abort, alloc: Global, bytes: &[u8], changes: &[Change]) {
    for number in 0..changes.len() {
        assert!(rt; is_change_told(alloc, bytes, &changes[number]), "{number}");
    }
}

#[test]
fn tells_the_first_bad_field_of_the_header(rt: HostRuntime) {
    are_changes_told(&rt, rt.alloc(), &CALLS, &OF_HEADER);
}

#[test]
fn tells_the_first_bad_field_of_functions(rt: HostRuntime) {
    are_changes_told(&rt, rt.alloc(), &CALLS, &OF_FUNCTIONS);
}

#[test]
fn tells_the_first_bad_field_of_blocks(rt: HostRuntime) {
    are_changes_told(&rt, rt.alloc(), &CALLS, &OF_BLOCKS);
}

/// Whether parts with so many pages and words get the fault, and come back as they are.
fn are_told(parts: Parts, pages: u16, words: usize, wanted: Option<ImageFault>) -> bool {
    match Image::from_parts(parts) {
        Ok(image) => wanted.is_none() && image.stack_pages() == pages,
        Err((back, fault)) => {
            wanted == Some(fault) && back.stack_pages == pages && back.words.len() == words
        }
    }
}

/// The parts of `CALLS` with other services, pages of stack, and another first entry.
fn changed_parts(image: Image, services: u16, pages: u16, entry: u32) -> Parts {
    let Parts {
        version,
        words,
        regions,
        functions,
        ..
    } = image.into_parts();
    let mut functions = functions.into_vec();
    if let Some(first) = functions.first_mut() {
        first.entry = entry;
    }
    Parts {
        version,
        services: Services(services),
        words,
        regions,
        stack_pages: pages,
        functions: Items::new(functions),
    }
}

/// Services, pages of stack, the first entry, and the fault.
const PARTS: [(u16, u16, u32, Option<ImageFault>); 7] = [
    (7, 16, 0x40000, None),
    (8, 16, 0x40000, Some(ImageFault::Service)),
    (7, 0, 0x40000, Some(ImageFault::Limit)),
    (7, 1, 0x40000, None),
    (7, 17, 0x40000, Some(ImageFault::Limit)),
    (7, 16, 0x40004, Some(ImageFault::Order)),
    (8, 17, 0x40004, Some(ImageFault::Service)),
];

/// Whether the parts of `CALLS` get the fault where these are so.
fn are_parts_told(
    alloc: Global,
    services: u16,
    pages: u16,
    entry: u32,
    wanted: Option<ImageFault>,
) -> bool {
    match read(alloc, &CALLS) {
        Ok(image) => are_told(
            changed_parts(image, services, pages, entry),
            pages,
            8,
            wanted,
        ),
        Err(_) => false,
    }
}

#[test]
fn parts(rt: HostRuntime) {
    for &(services, pages, entry, wanted) in &PARTS {
        assert!(rt;
            are_parts_told(rt.alloc(), services, pages, entry, wanted),
            "at {services} {pages} {entry}"
        );
    }
}

const GOOD: Range = Range {
    lo: 5,
    hi: 5,
    alignment: 3,
};

/// Its ends are exchanged.
const BAD: Range = Range {
    lo: 5,
    hi: 4,
    alignment: 0,
};

/// Its alignment is above 3.
const SLANTED: Range = Range {
    lo: 4,
    hi: 5,
    alignment: 4,
};

/// How many params of a range, the frame, how many cells of that range, whether they go up, and the fault.
type Small = (usize, Range, u32, u16, bool, Option<ImageFault>);

static SMALL: [Small; 17] = [
    (0, GOOD, 4096, 0, true, None),
    (6, GOOD, 0, 64, true, None),
    (1, BAD, 0, 0, true, Some(ImageFault::Range)),
    (1, SLANTED, 0, 0, true, Some(ImageFault::Range)),
    (0, BAD, 0, 1, true, Some(ImageFault::Range)),
    (7, GOOD, 0, 0, true, Some(ImageFault::Limit)),
    (257, GOOD, 0, 0, true, Some(ImageFault::Limit)), // its count is one byte
    (256, GOOD, 0, 0, true, Some(ImageFault::Limit)),
    (0, GOOD, 4097, 0, true, Some(ImageFault::Limit)),
    (0, GOOD, 0, 65, true, Some(ImageFault::Limit)),
    (0, GOOD, 0, 2, false, Some(ImageFault::Order)),
    (0, GOOD, 0, 65, false, Some(ImageFault::Limit)), // their number stands before them
    (7, BAD, 0, 0, true, Some(ImageFault::Limit)),
    (1, BAD, 4097, 0, true, Some(ImageFault::Limit)), // the frame stands before the params
    (1, BAD, 0, 65, true, Some(ImageFault::Range)), // and the params before the blocks
    (0, BAD, 0, 65, true, Some(ImageFault::Limit)),
    (0, BAD, 0, 2, false, Some(ImageFault::Range)), // of the first cell, before the second's location
];

/// Parts of one word and one function of one block: their version, services, the bytes of each region and whether it
/// may be written, how many params of a range, the frame, how many cells of that range at the registers from 1 up, or
/// down to 1, and the depth. Then what they get: where the regions begin, if that is told, and the fault; none where
/// they are an image.
#[derive(Clone, Copy)]
struct Made {
    version: u16,
    services: u16,
    sizes: &'static [(usize, bool)],
    params: usize,
    range: Range,
    frame: u32,
    cells: u16,
    up: bool,
    depth: u16,
    starts: Option<&'static [u32]>,
    wanted: Option<ImageFault>,
}

const PLAIN: Made = Made {
    version: 1,
    services: 0,
    sizes: &[],
    params: 0,
    range: GOOD,
    frame: 0,
    cells: 0,
    up: true,
    depth: 0,
    starts: None,
    wanted: None,
};

/// The cells of its block.
fn cells_of(alloc: Global, made: &Made) -> Result<Vec<Cell>, ImageFault> {
    let mut cells = Vec::new(alloc);
    for i in 0..made.cells {
        let location = if made.up {
            i.wrapping_add(1)
        } else {
            made.cells.wrapping_sub(i)
        };
        let range = made.range;
        cells.push(Cell { location, range })?;
    }
    Ok(cells)
}

/// A list of one item.
fn one<T: Drop>(alloc: Global, item: T) -> Result<Items<T>, ImageFault> {
    let mut items = Vec::new(alloc);
    items.push(item)?;
    Ok(Items::new(items))
}

/// Its block.
fn block_of(alloc: Global, made: &Made) -> Result<Items<Block>, ImageFault> {
    let block = Block {
        address: 0x40000,
        fuel: 0,
        cells: Items::new(cells_of(alloc, made)?),
        terms: Items::new(Vec::new(alloc)),
    };
    one(alloc, block)
}

/// Its function.
fn function_of(alloc: Global, made: &Made) -> Result<Items<Function>, ImageFault> {
    let blocks = block_of(alloc, made)?;
    let function = Function {
        kind: Kind::Leaf,
        params: Items::new(vec![in alloc; made.range; made.params]?),
        results: Items::new(Vec::new(alloc)),
        entry: 0x40000,
        frame: made.frame,
        stack_room: 0,
        budget: 0,
        depth: made.depth,
        blocks,
    };
    one(alloc, function)
}

/// Its regions, of zeros.
fn regions_of(alloc: Global, made: &Made) -> Result<Items<Region>, ImageFault> {
    let mut regions = Vec::new(alloc);
    for (count, writable) in made.sizes {
        let bytes = Items::new(vec![in alloc; 0u8; *count]?);
        regions.push(Region {
            bytes,
            writable: *writable,
        })?;
    }
    Ok(Items::new(regions))
}

fn parts_of(alloc: Global, made: &Made) -> Result<Parts, ImageFault> {
    let words = one(alloc, 0)?;
    let regions = regions_of(alloc, made)?;
    let functions = function_of(alloc, made)?;
    Ok(Parts {
        version: made.version,
        services: Services(made.services),
        words,
        regions,
        stack_pages: 1,
        functions,
    })
}

/// The same. Where a growth was refused, they are made once more.
fn made_parts(alloc: Global, made: &Made) -> Result<Parts, ImageFault> {
    match parts_of(alloc, made) {
        Ok(parts) => Ok(parts),
        Err(_) => parts_of(alloc, made),
    }
}

/// Whether a region has this size, and may be written or not.
fn is_sized(region: &Region, size: &(usize, bool)) -> bool {
    region.bytes.len() == size.0 && region.writable == size.1
}

/// Whether these are regions of these sizes.
fn are_sized(regions: &[Region], sizes: &[(usize, bool)]) -> bool {
    for number in 0..regions.len() {
        match sizes.get(number) {
            Some(size) if is_sized(&regions[number], size) => {}
            _ => return false,
        }
    }
    regions.len() == sizes.len()
}

/// Whether the functions of an image have these depths, in turn.
fn has_depths(image: &Image, depths: &[u16]) -> bool {
    let functions = image.functions();
    for number in 0..functions.len() {
        match depths.get(number) {
            Some(depth) if functions[number].depth == *depth => {}
            _ => return false,
        }
    }
    functions.len() == depths.len()
}

/// Whether the regions of an image begin at these addresses, and no region stands behind them.
fn begin_at(image: &Image, starts: &[u32]) -> bool {
    for index in 0..starts.len() {
        if image.region_start(index) != Some(starts[index]) {
            return false;
        }
    }
    image.region_start(starts.len()).is_none() && image.region_start(usize::MAX).is_none()
}

/// Whether the regions of an image begin where this is told.
fn begin_as_told(image: &Image, made: &Made) -> bool {
    match made.starts {
        Some(starts) => begin_at(image, starts),
        None => true,
    }
}

/// Whether an image has its parts.
fn has_parts(image: &Image, made: &Made) -> bool {
    image.stack_pages() == 1
        && are_sized(image.regions(), made.sizes)
        && has_depths(image, &[made.depth])
        && begin_as_told(image, made)
}

/// Whether these bytes are read as its parts, and written back.
fn are_read(alloc: Global, bytes: &[u8], made: &Made) -> bool {
    match read(alloc, bytes) {
        Ok(image) => has_parts(&image, made) && is_written_as(alloc, &image, bytes),
        Err(_) => false,
    }
}

/// Whether an image has its parts, and is written as bytes that are read so.
fn is_kept(alloc: Global, image: &Image, made: &Made) -> bool {
    match written(alloc, image) {
        Ok(text) => has_parts(image, made) && are_read(alloc, text.as_slice(), made),
        Err(AllocError) => false,
    }
}

/// Whether parts that come back are these.
fn are_back(back: &Parts, made: &Made) -> bool {
    back.version == made.version
        && back.stack_pages == 1
        && back.words.len() == 1
        && back.regions.len() == made.sizes.len()
}

/// Whether parts get their fault, and come back; where they are an image, it is kept.
fn are_made_told(alloc: Global, parts: Parts, made: &Made) -> bool {
    match Image::from_parts(parts) {
        Ok(image) => made.wanted.is_none() && is_kept(alloc, &image, made),
        Err((back, fault)) => made.wanted == Some(fault) && are_back(&back, made),
    }
}

/// The same of what is to be made.
fn is_made_told(alloc: Global, made: &Made) -> bool {
    match made_parts(alloc, made) {
        Ok(parts) => are_made_told(alloc, parts, made),
        Err(_) => false,
    }
}

/// Whether the parts of a row of `SMALL` do.
fn is_small_told(alloc: Global, row: &Small) -> bool {
    let (params, range, frame, cells, up, wanted) = *row;
    let made = Made {
        params,
        range,
        frame,
        cells,
        up,
        wanted,
        ..PLAIN
    };
    is_made_told(alloc, &made)
}

#[test]
fn parts_of_functions(rt: HostRuntime) {
    for number in 0..SMALL.len() {
        assert!(rt; is_small_told(rt.alloc(), &SMALL[number]), "{number}");
    }
}

/// Whether the data are one region of these bytes that may be written.
fn is_one_region(regions: &[Region], bytes: &[u8]) -> bool {
    match regions {
        [region] => region.writable && region.bytes.as_slice() == bytes,
        _ => false,
    }
}

/// From an address up to but not at another one, and whether the data of `CALLS` have all of it, as readers and as
/// writers ask.
const HELD: [(i64, i64, bool); 10] = [
    (0x80000, 0x80008, true),
    (0x80000, 0x80001, true),
    (0x80007, 0x80008, true),
    (0x80008, 0x80008, true),
    (0x80000, 0x80009, false),
    (0x80008, 0x80009, false),
    (0x7FFFF, 0x80000, false),
    (-8, 0, false),
    (0x80000, i64::MAX, false),
    (i64::MIN, 0x80000, false),
];

/// Whether an image has each of `HELD`, for readers and for writers.
fn has_held(image: &Image) -> bool {
    for &(low, high, wanted) in &HELD {
        if image.holds(low, high, false) != wanted || image.holds(low, high, true) != wanted {
            return false;
        }
    }
    true
}

/// Whether an image gives what `CALLS` says of its data.
fn has_data_of_calls(image: &Image) -> bool {
    is_one_region(image.regions(), b"abcdefgh") && image.byte_count() == 8 && has_held(image)
}

/// Whether `CALLS` is read so.
fn is_calls_read(alloc: Global) -> bool {
    match read(alloc, &CALLS) {
        Ok(image) => has_data_of_calls(&image),
        Err(_) => false,
    }
}

#[test]
fn reads_the_data(rt: HostRuntime) {
    assert!(rt; is_calls_read(rt.alloc()));
}

/// The version, services, the bytes of each region and whether it may be written, and the fault.
type Data = (u16, u16, &'static [(usize, bool)], Option<ImageFault>);

static DATA: [Data; 33] = [
    (1, 0, &[], None),
    (1, 0, &[(8, true)], None),
    (1, 0, &[(262_136, true)], None),
    (1, 0, &[(262_144, true)], None),
    (1, 0, &[(0, true)], Some(ImageFault::Limit)),
    (1, 0, &[(4, true)], Some(ImageFault::Limit)),
    (1, 0, &[(12, true)], Some(ImageFault::Limit)),
    (1, 0, &[(262_152, true)], Some(ImageFault::Limit)),
    (1, 0, &[(8, false)], Some(ImageFault::Limit)),
    (1, 0, &[(8, true), (8, true)], Some(ImageFault::Limit)),
    (1, 0, &[(8, false), (8, true)], Some(ImageFault::Limit)),
    (0, 0, &[], Some(ImageFault::Version)),
    (4, 0, &[], Some(ImageFault::Version)),
    (4, 0, &[(8, false), (8, true)], Some(ImageFault::Version)),
    (2, 0, &[], None),
    (2, 0, &[(8, false), (8, true)], None),
    (2, 0, &[(262_144, false)], None),
    (2, 0, &[(131_072, true), (131_072, false)], None),
    (
        2,
        0,
        &[
            (8, true),
            (8, true),
            (8, true),
            (8, true),
            (8, false),
            (8, false),
            (8, false),
            (8, false),
        ],
        None,
    ),
    (
        2,
        0,
        &[
            (8, true),
            (8, true),
            (8, true),
            (8, true),
            (8, true),
            (8, true),
            (8, true),
            (8, true),
            (8, true),
        ],
        Some(ImageFault::Limit),
    ),
    (2, 0, &[(0, false)], Some(ImageFault::Limit)),
    (2, 0, &[(8, false), (4, true)], Some(ImageFault::Limit)),
    (2, 0, &[(12, true)], Some(ImageFault::Limit)),
    (2, 0, &[(262_152, true)], Some(ImageFault::Limit)),
    (2, 0, &[(262_144, true), (8, true)], Some(ImageFault::Limit)), // 65 pages
    (65535, 0, &[(8, true)], Some(ImageFault::Version)),
    (4, 8, &[(4, true)], Some(ImageFault::Version)), // the version stands before the services
    (3, 8, &[(4, true)], Some(ImageFault::Service)),
    (3, 0, &[], None),
    (3, 0, &[(8, false), (8, true)], None),
    (3, 0, &[(262_144, false)], None),
    (3, 0, &[(0, false)], Some(ImageFault::Limit)),
    (3, 0, &[(262_144, true), (8, true)], Some(ImageFault::Limit)),
];

/// Whether the parts of a row of `DATA` get its fault.
fn are_data_told(alloc: Global, row: &Data) -> bool {
    let (version, services, sizes, wanted) = *row;
    let made = Made {
        version,
        services,
        sizes,
        wanted,
        ..PLAIN
    };
    is_made_told(alloc, &made)
}

#[test]
fn parts_of_data(rt: HostRuntime) {
    for number in 0..DATA.len() {
        assert!(rt; are_data_told(rt.alloc(), &DATA[number]), "{number}");
    }
}

/// Sizes of regions, and the addresses where they begin: the first with the data, each next one behind the last page
/// before it.
type Start = (&'static [(usize, bool)], &'static [u32]);

static STARTS: [Start; 5] = [
    (&[], &[]),
    (&[(8, false), (8, true)], &[0x80000, 0x81000]),
    (
        &[(4096, true), (4104, false), (8, true)],
        &[0x80000, 0x81000, 0x83000],
    ),
    (&[(258_048, true), (4096, false)], &[0x80000, 0xBF000]),
    (
        &[(32_768, false); 8],
        &[
            0x80000, 0x88000, 0x90000, 0x98000, 0xA0000, 0xA8000, 0xB0000, 0xB8000,
        ],
    ),
];

/// Whether regions of these sizes begin at these addresses.
fn are_begun(alloc: Global, row: &Start) -> bool {
    let made = Made {
        version: 2,
        sizes: row.0,
        starts: Some(row.1),
        ..PLAIN
    };
    is_made_told(alloc, &made)
}

#[test]
fn regions_begin_with_pages(rt: HostRuntime) {
    for number in 0..STARTS.len() {
        assert!(rt; are_begun(rt.alloc(), &STARTS[number]), "{number}");
    }
}

/// Two regions of 8 bytes, of which the first may be read alone.
pub(crate) const REGIONS: [u8; 116] = [
    0x53, 0x42, 0x58, 0x38, 0, 2, 0, 5, 0, 0, 0, 7, 0, 2, 0, 1, 0, 1, // header
    0, 0, 0, 8, 0, 0, 0, 0, 0, 8, 0, 1, // lengths and kinds
    0x03, 0x00, 0x02, 0x00, 0xD0, 0x08, 0x40, 0x00, 0x91, 0xD0, 0x20, 0x02, // words
    0x05, 0x00, 0x02, 0x04, 0xD0, 0x28, 0xA0, 0x07, 0x90, 0x10, 0x20, 0x00, //
    0x91, 0xD0, 0x20, 0x00, //
    72, 105, 0, 0, 0, 0, 0, 0, 0, 0, 0, 0, 0, 0, 0, 0, // the regions' bytes
    0, 0, 0, 0, 0, 4, 0, 0, 0, 0, 0, 0, 0, 0, 0, 0, 0, 0, 0, 0, 0, 0, 0, 13, 0, 1, // a function
    0, 4, 0, 0, 0, 0, 0, 0, 0, 0, 0, 0, 0, 0, 0, 13, // its block
];

const OF_REGIONS: [Change; 13] = [
    (4, &[0, 2], None),
    (4, &[0, 0], Some(ImageFault::Version)),
    (4, &[0, 3], Some(ImageFault::Order)), // its one block is a depth of 1, and four blocks are read
    (4, &[0, 4], Some(ImageFault::Version)),
    (12, &[0, 9], Some(ImageFault::Limit)),
    (18, &[0, 0, 0, 4], Some(ImageFault::Limit)),
    (18, &[0, 0, 0, 0], Some(ImageFault::Limit)),
    (18, &[0, 4, 0, 8], Some(ImageFault::Limit)),
    (18, &[0, 4, 0, 0], Some(ImageFault::Limit)), // the second region passes 64 pages
    (22, &[0, 1], None),
    (22, &[0, 2], Some(ImageFault::Limit)),
    (28, &[0, 2], Some(ImageFault::Limit)),
    (28, &[0, 0], None),
];

#[test]
fn regions_are_read(rt: HostRuntime) {
    are_changes_told(&rt, rt.alloc(), &REGIONS, &OF_REGIONS);
    assert!(rt; is_written_back(rt.alloc(), &REGIONS));
}

/// `CALLS` as an image of version 3: its data are one region, and its functions have the depths 256 and 1.
pub(crate) const DEEP: [u8; 220] = [
    83, 66, 88, 56, 0, 3, 0, 7, 0, 0, 0, 8, 0, 1, 0, 16, 0, 2, 0, 0, 0, 8, 0, 1, 1, 0, 0, 0, 1, 0,
    0, 0, 1, 0, 0, 0, 1, 0, 0, 0, 1, 0, 0, 0, 1, 0, 0, 0, 1, 0, 0, 0, 1, 0, 0, 0, 97, 98, 99, 100,
    101, 102, 103, 104, 1, 0, 1, 0, 0, 4, 0, 0, 0, 0, 0, 96, 0, 0, 0, 96, 0, 0, 0, 0, 0, 0, 0, 39,
    1, 0, 0, 2, 255, 255, 255, 251, 0, 0, 0, 5, 0, 0, 4, 0, 0, 0, 0, 0, 0, 0, 0, 0, 0, 0, 0, 0, 39,
    0, 4, 0, 8, 0, 2, 0, 2, 255, 255, 255, 255, 255, 255, 255, 254, 0, 8, 128, 0, 0, 0, 127, 255,
    255, 255, 3, 4, 15, 0, 0, 0, 0, 0, 0, 0, 0, 0, 0, 8, 255, 255, 255, 255, 0, 16, 127, 255, 255,
    255, 0, 1, 0, 0, 0, 4, 0, 16, 0, 0, 0, 0, 0, 0, 0, 0, 0, 0, 0, 0, 0, 0, 0, 2, 0, 1, 0, 1, 0, 0,
    0, 0, 0, 0, 0, 254, 2, 0, 4, 0, 16, 0, 0, 0, 0, 0, 0, 0, 0, 0, 0, 0, 2,
];

/// The depths of its functions.
const DEPTHS_OF_DEEP: [u16; 2] = [256, 1];

const OF_DEPTHS: [Change; 14] = [
    (4, &[0, 2], Some(ImageFault::Range)), // so the depth is a number of blocks, and a range begins with theirs
    (4, &[0, 4], Some(ImageFault::Version)),
    (88, &[0, 0], None),
    (88, &[0, 255], None),
    (88, &[1, 1], Some(ImageFault::Limit)),
    (88, &[255, 255], Some(ImageFault::Limit)),
    (88, &[1, 1, 0, 2, 0, 0, 0, 6], Some(ImageFault::Limit)), // the depth stands before the ranges
    (88, &[1, 0, 0, 2, 0, 0, 0, 6], Some(ImageFault::Range)),
    (90, &[0, 0], Some(ImageFault::Limit)),
    (90, &[0, 1], Some(ImageFault::Limit)), // the second block is a function: 4 params, and 8 where 0 stands
    (68, &[0, 4, 0, 4], Some(ImageFault::Order)),
    (191, &[0, 0], None),
    (191, &[1, 0], None),
    (191, &[1, 1], Some(ImageFault::Limit)),
];

/// Whether `DEEP` that is cut off within the head of its first function is short.
fn are_cuts_told(alloc: Global) -> bool {
    for end in 80..92usize {
        if !is_told(alloc, &DEEP[..end], Some(ImageFault::Short)) {
            return false;
        }
    }
    true
}

#[test]
fn depths_are_read(rt: HostRuntime) {
    are_changes_told(&rt, rt.alloc(), &DEEP, &OF_DEPTHS);
    assert!(rt; are_cuts_told(rt.alloc()) && is_written_back(rt.alloc(), &DEEP));
}

/// The parts of an image of version 1 as those of one of version 3, with the depths of `DEEP`.
fn deepened(image: Image) -> Parts {
    let mut parts = image.into_parts();
    let mut functions = parts.functions.into_vec();
    for (function, depth) in functions.iter_mut().zip(&DEPTHS_OF_DEEP) {
        function.depth = *depth;
    }
    parts.functions = Items::new(functions);
    parts.version = 3;
    parts
}

/// Whether an image has the depths of `DEEP`, and is written as its bytes.
fn is_deep(alloc: Global, image: &Image) -> bool {
    has_depths(image, &DEPTHS_OF_DEEP) && is_written_as(alloc, image, &DEEP)
}

/// Whether the image of some parts does.
fn are_parts_of_deep(alloc: Global, parts: Parts) -> bool {
    match Image::from_parts(parts) {
        Ok(image) => is_deep(alloc, &image),
        Err((_parts, _fault)) => false,
    }
}

/// Whether `CALLS` with the depths of `DEEP` is written as that.
fn is_deep_written(alloc: Global) -> bool {
    match read(alloc, &CALLS) {
        Ok(image) => are_parts_of_deep(alloc, deepened(image)),
        Err(_) => false,
    }
}

#[test]
fn depths_are_written(rt: HostRuntime) {
    assert!(rt; is_deep_written(rt.alloc()));
}

/// The version, the depth of a function, the range of its one param, and the fault.
type Depth = (u16, u16, Range, Option<ImageFault>);

static DEPTHS: [Depth; 17] = [
    (1, 0, GOOD, None),
    (1, 1, GOOD, Some(ImageFault::Limit)),
    (1, 256, GOOD, Some(ImageFault::Limit)),
    (2, 0, GOOD, None),
    (2, 1, GOOD, Some(ImageFault::Limit)),
    (2, 65535, GOOD, Some(ImageFault::Limit)),
    (3, 0, GOOD, None),
    (3, 1, GOOD, None),
    (3, 256, GOOD, None),
    (3, 257, GOOD, Some(ImageFault::Limit)),
    (3, 65535, GOOD, Some(ImageFault::Limit)),
    (0, 0, GOOD, Some(ImageFault::Version)),
    (4, 0, GOOD, Some(ImageFault::Version)),
    (4, 257, GOOD, Some(ImageFault::Version)),
    (2, 1, BAD, Some(ImageFault::Limit)), // the depth stands before the params
    (3, 257, BAD, Some(ImageFault::Limit)),
    (3, 256, BAD, Some(ImageFault::Range)),
];

/// Whether the parts of a row of `DEPTHS` get its fault; where they are an image, it keeps its depth.
fn is_depth_told(alloc: Global, row: &Depth) -> bool {
    let (version, depth, range, wanted) = *row;
    let made = Made {
        version,
        params: 1,
        range,
        depth,
        wanted,
        ..PLAIN
    };
    is_made_told(alloc, &made)
}

#[test]
fn parts_of_depths(rt: HostRuntime) {
    for number in 0..DEPTHS.len() {
        assert!(rt; is_depth_told(rt.alloc(), &DEPTHS[number]), "{number}");
    }
}
