//! Worked images of each version in pieces, cut off, and broken.
use crate::tests::{DEEP, HELLO, REGIONS};
use sbx_image::{Image, ImageFault, write};
use sbx_reader::ImageReader;
use std::alloc::{AllocError, Global};
use std::process::Abort;

/// An image of each version.
const IMAGES: [&'static [u8]; 3] = [&HELLO, &REGIONS, &DEEP];

/// What a reader answers that is fed bytes in pieces of a size.
fn in_pieces(alloc: Global, bytes: &[u8], size: usize) -> Result<Image, ImageFault> {
    let mut reader = ImageReader::new(alloc);
    let mut rest = bytes;
    for _ in 0..bytes.len() {
        let count = if rest.len() < size { rest.len() } else { size };
        let (piece, after) = rest.split_at(count);
        reader.feed(piece)?;
        rest = after;
    }
    reader.finish()
}

/// Whether what is read of bytes in pieces of a size is the image that they spell.
fn is_read_in_pieces(alloc: Global, bytes: &[u8], size: usize) -> bool {
    let read = in_pieces(alloc, bytes, size);
    is_image_of(alloc, bytes, &read)
}

/// Whether an image is the one that bytes spell; where a growth was refused, the answer says so.
fn is_image_of(alloc: Global, bytes: &[u8], read: &Result<Image, ImageFault>) -> bool {
    match read {
        Ok(image) => match write(image, alloc) {
            Ok(text) => text.as_slice() == bytes,
            Err(AllocError) => true,
        },
        Err(fault) => matches!(fault, ImageFault::Memory(_)),
    }
}

/// Whether bytes were taken; where a growth was refused, the answer says so.
fn is_taken(fed: Result<(), ImageFault>) -> bool {
    matches!(&fed, Ok(()) | Err(ImageFault::Memory(_)))
}

/// Whether a fault is told by both calls; where a growth was refused, that is.
fn is_refused(reader: ImageReader, fed: Result<(), ImageFault>, wanted: ImageFault) -> bool {
    let end = match reader.finish() {
        Ok(_) => return false,
        Err(fault) => fault,
    };
    (fed == Err(wanted) || matches!(&fed, Err(ImageFault::Memory(_)))) && fed == Err(end)
}

/// A byte of a worked image, what stands there in its place, the fault, and the byte at which it is told.
#[derive(Clone, Copy)]
struct Row {
    at: usize,
    byte: u8,
    fault: ImageFault,
    told: usize,
}

fn broken(at: usize, byte: u8, fault: ImageFault, told: usize) -> Row {
    Row {
        at,
        byte,
        fault,
        told,
    }
}

/// The byte at which a fault is told where bytes are fed one by one, one of them changed, and the fault, if the next
/// piece gets it too.
fn told_of(alloc: Global, bytes: &[u8], row: &Row) -> Option<(usize, ImageFault)> {
    let mut reader = ImageReader::new(alloc);
    for i in 0..bytes.len() {
        let byte = if i == row.at { row.byte } else { bytes[i] };
        if let Err(fault) = reader.feed(&[byte]) {
            if reader.feed(&[]) == Err(fault) {
                return Some((i, fault));
            }
            return None;
        }
    }
    None
}

/// Whether the fault of a row is told at its byte. Where a growth was refused, the bytes are fed once more.
fn is_told(alloc: Global, bytes: &[u8], row: &Row) -> bool {
    let told = match told_of(alloc, bytes, row) {
        Some((_, ImageFault::Memory(_))) => told_of(alloc, bytes, row),
        first => first,
    };
    match told {
        Some((i, fault)) => i == row.told && fault == row.fault,
        None => false,
    }
}

/// The fault of each row is.
fn are_told<R: Abort>(rt: &R, alloc: Global, bytes: &[u8], rows: &[Row]) {
    for row in rows {
        assert!(rt; is_told(alloc, bytes, row), "{} {}", row.at, row.byte);
    }
}

/// A fault of most fields. The worked image of version 1 has no ranges.
fn rows() -> [Row; 16] {
    [
        broken(0, 0, ImageFault::Magic, 3),
        broken(5, 0, ImageFault::Version, 5),
        broken(5, 3, ImageFault::Limit, 15), // so it has no region, and no page of stack
        broken(5, 4, ImageFault::Version, 5),
        broken(7, 8, ImageFault::Service, 7),
        broken(8, 1, ImageFault::Limit, 11),
        broken(15, 1, ImageFault::Limit, 15),
        broken(17, 0, ImageFault::Limit, 17),
        broken(19, 0, ImageFault::Limit, 19),
        broken(44, 2, ImageFault::Limit, 44),
        broken(51, 4, ImageFault::Order, 51),
        broken(52, 1, ImageFault::Limit, 55),
        broken(69, 0, ImageFault::Limit, 69),
        broken(73, 4, ImageFault::Order, 73),
        broken(75, 65, ImageFault::Limit, 75),
        broken(78, 1, ImageFault::Limit, 85),
    ]
}

/// Faults of the worked image of version 2: of the number of regions, of their lengths and kinds, and behind them.
fn rows_of_regions() -> [Row; 11] {
    [
        broken(5, 3, ImageFault::Order, 105), // its one block is a depth of 1, and four blocks are read
        broken(5, 4, ImageFault::Version, 5),
        broken(13, 9, ImageFault::Limit, 13),
        broken(15, 0, ImageFault::Limit, 15),
        broken(21, 0, ImageFault::Limit, 21),
        broken(21, 4, ImageFault::Limit, 21),
        broken(19, 4, ImageFault::Limit, 21),
        broken(23, 2, ImageFault::Limit, 23),
        broken(27, 4, ImageFault::Limit, 27),
        broken(29, 2, ImageFault::Limit, 29),
        broken(81, 4, ImageFault::Order, 81),
    ]
}

/// Faults of the image of version 3: of the depths, and behind them.
fn rows_of_depths() -> [Row; 7] {
    [
        broken(5, 2, ImageFault::Range, 97), // its depth is a number of blocks, and a range begins with theirs
        broken(5, 4, ImageFault::Version, 5),
        broken(88, 2, ImageFault::Limit, 89),
        broken(89, 1, ImageFault::Limit, 89),
        broken(91, 0, ImageFault::Limit, 91),
        broken(191, 2, ImageFault::Limit, 192),
        broken(194, 0, ImageFault::Limit, 194),
    ]
}

#[test]
fn pieces_of_any_size_are_the_image(rt: HostRuntime) {
    for bytes in IMAGES {
        for size in 1..120usize {
            assert!(rt; is_read_in_pieces(rt.alloc(), bytes, size), "{size}");
        }
    }
}

/// What a reader answers that is fed bytes as two pieces, with empty ones before, between and behind.
fn in_two(alloc: Global, bytes: &[u8], cut: usize) -> Result<Image, ImageFault> {
    let count = if cut < bytes.len() { cut } else { bytes.len() };
    let (front, rest) = bytes.split_at(count);
    let none = &bytes[..0];
    let mut reader = ImageReader::new(alloc);
    for piece in [none, front, none, rest, none] {
        reader.feed(piece)?;
    }
    reader.finish()
}

/// Whether what is read of bytes in two pieces is the image that they spell.
fn is_read_in_two(alloc: Global, bytes: &[u8], cut: usize) -> bool {
    let read = in_two(alloc, bytes, cut);
    is_image_of(alloc, bytes, &read)
}

#[test]
fn empty_pieces_change_nothing(rt: HostRuntime) {
    for bytes in IMAGES {
        for cut in [1, bytes.len() / 2, bytes.len().saturating_sub(1)] {
            assert!(rt; is_read_in_two(rt.alloc(), bytes, cut), "{cut}");
        }
    }
}

/// Whether the front of bytes is taken, and is short at its end; where a growth was refused, the answers say so.
fn is_short(alloc: Global, front: &[u8]) -> bool {
    let mut reader = ImageReader::new(alloc);
    let fed = is_taken(reader.feed(front));
    fed && matches!(
        &reader.finish(),
        Err(ImageFault::Short | ImageFault::Memory(_))
    )
}

#[test]
fn each_cut_is_short_at_the_end_alone(rt: HostRuntime) {
    for bytes in IMAGES {
        for count in 0..bytes.len() {
            assert!(rt; is_short(rt.alloc(), &bytes[..count]), "{count}");
        }
    }
}

/// Whether a byte behind an image is told by both calls.
fn is_trailing(alloc: Global, bytes: &[u8]) -> bool {
    let mut reader = ImageReader::new(alloc);
    let _ = reader.feed(bytes);
    let fed = reader.feed(&[0]);
    is_refused(reader, fed, ImageFault::Trailing)
}

#[test]
fn a_further_byte_is_told_by_both_calls(rt: HostRuntime) {
    for bytes in IMAGES {
        assert!(rt; is_trailing(rt.alloc(), bytes));
    }
}

#[test]
fn each_fault_is_told_at_the_end_of_its_field(rt: HostRuntime) {
    are_told(&rt, rt.alloc(), &HELLO, &rows());
    are_told(&rt, rt.alloc(), &REGIONS, &rows_of_regions());
    are_told(&rt, rt.alloc(), &DEEP, &rows_of_depths());
    let ninth_page = broken(27, 8, ImageFault::Limit, 63); // the last region passes 64 pages
    assert!(rt; is_told(rt.alloc(), &EIGHT, &ninth_page));
}

/// The header of the greatest front of version 1: 65,536 words and 262,144 bytes of data.
const ONE: [u8; 20] = [
    83, 66, 88, 56, 0, 1, 0, 5, 0, 1, 0, 0, 0, 4, 0, 0, 0, 1, 0, 1,
];

/// That of version 2: as many words, and as many bytes in eight regions, of eight pages each.
const EIGHT: [u8; 66] = [
    83, 66, 88, 56, 0, 2, 0, 5, 0, 1, 0, 0, 0, 8, 0, 1, 0, 1, // header
    0, 0, 128, 0, 0, 0, 0, 0, 128, 0, 0, 1, 0, 0, 128, 0, 0, 0, 0, 0, 128, 0, 0, 1, // lengths and kinds
    0, 0, 128, 0, 0, 0, 0, 0, 128, 0, 0, 1, 0, 0, 128, 0, 0, 0, 0, 0, 128, 0, 0, 1,
];

/// A greatest front, whose words and data are all zeros, before the function of the worked image of version 1.
fn greatest(alloc: Global, header: &[u8]) -> Result<Vec<u8>, AllocError> {
    let mut bytes = Vec::from_slice(alloc, header)?;
    bytes.resize(header.len() + 2 * 262_144, 0)?;
    bytes.extend_from_slice(&HELLO[44..])?;
    Ok(bytes)
}

/// Whether a greatest front is read by pieces of a size, and spells its bytes again; where a growth was refused, the
/// answer says so.
fn is_greatest_read(alloc: Global, header: &[u8], size: usize) -> bool {
    let Ok(bytes) = greatest(alloc, header) else {
        return true;
    };
    is_read_in_pieces(alloc, bytes.as_slice(), size)
}

/// Pieces of one byte cost no more time than their number, since what was read isn't read again.
#[test]
fn the_greatest_fronts_are_read_by_small_pieces(rt: HostRuntime) {
    for size in [1, 4096] {
        assert!(rt; is_greatest_read(rt.alloc(), &ONE, size));
        assert!(rt; is_greatest_read(rt.alloc(), &EIGHT, size));
    }
}
