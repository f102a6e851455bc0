//! What comes next in an image's bytes, behind each whole item that was read.
ghost use Rattle.std.specs.Prelude.{◌≡◌, ◌-◌, ◌<◌, suc, length};
ghost use Rattle.sbx_reader.specs.declared.stages.Stage.TheVariants.{Front, Body, Functions, Blocks};
ghost use Rattle.sbx_reader.specs.Stages.{IsWhole, IsItem};

use sbx_image::{
    ImageFault, Next, block_of, function_head_of, header_of, ranges_of, shape_bytes, shapes_of,
};
use std::alloc::Global;
use v8_map::CODE_START;

/// What comes next. `version` is the image's, `end` the address behind the code, `left` how many functions come behind
/// the one that is read, and `total` how many blocks the functions have up to that one.
#[derive(Clone, Copy)]
pub enum Stage {
    /// Header, and the regions' lengths and kinds.
    Front,
    /// So many bytes of words and data, the first number, behind which functions come, the last number.
    Body(usize, u16, u32, u16),
    /// A function, its head and ranges first; behind the last one the end.
    Functions(u16, u32, u16, Next, u16),
    /// So many blocks of a function, the last number.
    Blocks(u16, u32, u16, Next, u16, u16),
}

/// How far the rest of some bytes lies in them.
fn read_of(bytes: &[u8], rest: &[u8]) -> usize
    ensures { result ≡ length bytes.now - length rest.now }
{
    bytes.len().saturating_sub(rest.len())
}

/// Header, and the regions' lengths and kinds.
fn front_item(alloc: Global, bytes: &[u8]) -> Result<(Stage, usize), ImageFault>
    ensures { IsWhole Front bytes.now result }
{
    let (header, rest) = header_of(bytes)?;
    let (shapes, rest) = shapes_of(alloc, header, rest)?;
    let count = 4 * header.words as usize + shape_bytes(shapes.as_slice()) as usize;
    let end = CODE_START + 4 * header.words;
    let stage = Stage::Body(count, header.version, end, header.functions);
    Ok((stage, read_of(bytes, rest)))
}

/// Words and data: a word or a byte of data has no fault of its own, so all are skipped at once.
fn body_item(
    count: usize,
    version: u16,
    end: u32,
    left: u16,
    bytes: &[u8],
) -> Result<(Stage, usize), ImageFault>
    requires { 0 < count }
    ensures { IsWhole (Body count version end left) bytes.now result }
{
    if bytes.len() < count {
        return Err(ImageFault::Short);
    }
    let stage = Stage::Functions(version, end, left, Next::Exactly(CODE_START), 0);
    Ok((stage, count))
}

/// A function's head and ranges.
fn function_item(
    alloc: Global,
    version: u16,
    end: u32,
    left: u16,
    place: (Next, u16),
    bytes: &[u8],
) -> Result<(Stage, usize), ImageFault>
    ensures { IsWhole (Functions version end (suc left) place.0 place.1) bytes.now result }
{
    let (head, rest) = function_head_of(version, end, place, bytes)?;
    let (_, rest) = ranges_of(alloc, head.params, rest)?;
    let (_, rest) = ranges_of(alloc, head.results, rest)?;
    let first = Next::Exactly(head.entry);
    let stage = Stage::Blocks(
        version,
        end,
        left,
        first,
        place.1 + head.blocks,
        head.blocks,
    );
    Ok((stage, read_of(bytes, rest)))
}

/// The item that comes next, as the stage behind it and its length in bytes. A fault is the item's, `Short` where it
/// isn't whole.
fn whole_item(alloc: Global, stage: Stage, bytes: &[u8]) -> Result<(Stage, usize), ImageFault>
    ensures { IsWhole stage bytes.now result }
{
    match stage {
        Stage::Front => front_item(alloc, bytes),
        Stage::Body(count, version, end, left) => {
            if count > 0 {
                body_item(count, version, end, left, bytes)
            } else {
                function_or_end(
                    alloc,
                    version,
                    end,
                    left,
                    (Next::Exactly(CODE_START), 0),
                    bytes,
                )
            }
        }
        Stage::Functions(version, end, left, next, total) => {
            function_or_end(alloc, version, end, left, (next, total), bytes)
        }
        Stage::Blocks(version, end, left, next, total, blocks) => {
            if blocks > 0 {
                block_item(alloc, version, end, left, (next, total), blocks - 1, bytes)
            } else {
                function_or_end(alloc, version, end, left, (next, total), bytes)
            }
        }
    }
}

/// A function's head and ranges where one is left; else the end.
fn function_or_end(
    alloc: Global,
    version: u16,
    end: u32,
    left: u16,
    place: (Next, u16),
    bytes: &[u8],
) -> Result<(Stage, usize), ImageFault>
    ensures { IsWhole (Functions version end left place.0 place.1) bytes.now result }
{
    if left > 0 {
        return function_item(alloc, version, end, left - 1, place, bytes);
    }
    if bytes.is_empty() {
        Err(ImageFault::Short)
    } else {
        Err(ImageFault::Trailing)
    }
}

/// A block.
fn block_item(
    alloc: Global,
    version: u16,
    end: u32,
    left: u16,
    place: (Next, u16),
    blocks: u16,
    bytes: &[u8],
) -> Result<(Stage, usize), ImageFault>
    ensures { IsWhole (Blocks version end left place.0 place.1 (suc blocks)) bytes.now result }
{
    let (_, (next, rest)) = block_of(alloc, end, place.0, bytes)?;
    Ok((
        Stage::Blocks(version, end, left, next, place.1, blocks),
        read_of(bytes, rest),
    ))
}

/// The item that comes next; none where it isn't whole, which further bytes can mend.
pub fn next_item(
    alloc: Global,
    stage: Stage,
    bytes: &[u8],
) -> Result<Option<(Stage, usize)>, ImageFault>
    ensures { IsItem stage bytes.now result }
{
    match whole_item(alloc, stage, bytes) {
        Ok((next, count)) => Ok(Some((next, count))),
        Err(ImageFault::Short) => Ok(None),
        Err(fault) => Err(fault),
    }
}
