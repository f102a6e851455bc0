//! Bounds in which the word of an address's register has to lie.
use crate::origin::Origin;
use fit_code::{Object, Program, Region};
use sbx_range::is_single;

/// The numbers of a register with which an access lies where it has to: from `lo` to `hi`, both as signed words; none
/// where `hi` is below `lo`.
#[derive(Clone, Copy)]
pub struct WordBounds {
    pub lo: i64,
    pub hi: i64,
    /// The object in which the access has to lie; where none is known it has to lie in the data.
    pub object: Option<usize>,
}

/// A pointer's test leaves so many bytes at the beginning of the data, and so many at their end, for what lies beside
/// the field that is asked for.
const HEAD: i64 = 32;

const TAIL: i64 = 128;

/// The address behind an object.
pub fn end_of(object: &Object) -> i64 {
    i64::from(object.start).saturating_add(object.bytes.len().min(0x7fff_ffff) as i64)
}

/// The object that an address belongs to: the one in which it lies, or outside of which, but by whose name,
/// instructions name it, as that behind its last byte. Nothing where that are two.
pub fn object_at(program: &Program, address: i64) -> Option<usize> {
    let word = (address.cast_unsigned() & 0xffff_ffff) as u32;
    let mut found = None;
    for (number, object) in program.objects.as_slice().iter().enumerate() {
        let is_in = (i64::from(object.start) <= address) & (address < end_of(object));
        if is_in || (!object.outside.is_empty() && object.outside.contains(&word)) {
            if found.is_some() {
                return None;
            }
            found = Some(number);
        }
    }
    found
}

/// The address that an origin gives with a word of its register.
fn address_with(origin: &Origin, word: i32) -> i64 {
    origin
        .constant
        .saturating_add(origin.times.saturating_mul(i64::from(word)))
}

/// The object that the least address of an origin lies in, where no other one begins up to the greatest one: else the
/// register may as well point into that.
fn least_object(program: &Program, origin: &Origin) -> Option<usize> {
    let range = origin.range?;
    let number = object_at(program, address_with(origin, range.lo))?;
    let (objects, next) = (program.objects.as_slice(), number.saturating_add(1));
    let greatest = address_with(origin, range.hi);
    if next < objects.len() && i64::from(objects[next].start) <= greatest {
        None
    } else {
        Some(number)
    }
}

/// Whether an object lies among the constants.
fn is_constant(program: &Program, number: usize) -> bool {
    let objects = program.objects.as_slice();
    let mut is_constant = false;
    if number < objects.len() {
        let address = objects[number].start;
        for region in program.regions.as_slice() {
            let is_in = address.wrapping_sub(region.start) < region.length;
            is_constant |= region.readonly & is_in;
        }
    }
    is_constant
}

/// The object that an access has to lie in, if one is known. A store by a pointer that is found among the constants is
/// held to none of them: it ends the run, as any pointer's there does.
fn object_of(program: &Program, origin: &Origin, writes: bool) -> Option<usize> {
    if origin.object.is_some() {
        return origin.object;
    }
    let number = least_object(program, origin)?;
    let are_several = match origin.range {
        Some(range) => !is_single(range),
        None => true,
    };
    if writes & are_several && is_constant(program, number) {
        None
    } else {
        Some(number)
    }
}

/// Where a pointer may go in a region with an offset: from, and to.
fn window(region: Option<&Region>, constant: i64) -> (i64, i64) {
    match region {
        Some(region) => {
            let start = i64::from(region.start);
            let end = start.saturating_add(i64::from(region.length));
            let from = start.saturating_add(HEAD).saturating_add(constant.min(0));
            let to = end.saturating_sub(TAIL).saturating_add(constant.max(0));
            (from.max(start), to.min(end))
        }
        None => (0, 0),
    }
}

/// The bounds of an origin's word with which an access of so many bytes lies between two addresses.
fn bounds_between(
    origin: &Origin,
    size: i64,
    (from, to): (i64, i64),
    object: Option<usize>,
) -> WordBounds {
    let least = from.saturating_sub(origin.constant).saturating_neg();
    let greatest = to.saturating_sub(size).saturating_sub(origin.constant);
    // `times` is above 0, so that each quotient is rounded down
    let below = least.checked_div_euclid(origin.times).unwrap_or(0);
    WordBounds {
        lo: below.saturating_neg(),
        hi: greatest.checked_div_euclid(origin.times).unwrap_or(0),
        object,
    }
}

/// Where the word of an origin's register may lie for an access of so many bytes, which writes or doesn't: that it lies
/// in the object that its base names, else in the data that may be written.
pub fn bounds_of(program: &Program, origin: &Origin, size: i64, writes: bool) -> WordBounds {
    let named = object_of(program, origin, writes);
    let objects = program.objects.as_slice();
    let addresses = match named {
        Some(number) if number < objects.len() => {
            let object = &objects[number];
            (i64::from(object.start), end_of(object))
        }
        _ => window(program.regions.last(), origin.constant),
    };
    bounds_between(origin, size, addresses, named)
}

/// The same of a load from the constants; nothing where the program has none.
pub fn bounds_in_constants(program: &Program, origin: &Origin, size: i64) -> Option<WordBounds> {
    match program.regions.first() {
        Some(region) if region.readonly => {
            let addresses = window(Some(region), origin.constant);
            Some(bounds_between(origin, size, addresses, None))
        }
        _ => None,
    }
}
