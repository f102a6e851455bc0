//! The numbers at which a range that grows may stop.
use fit_code::{Function, Heap, Program};
use sbx_domain::LOCATIONS;
use sbx_range::Range;

/// Ends of bytes and halves, and the ends of all words.
const COMMON: [i32; 15] = [
    i32::MIN,
    -32_768,
    -128,
    -1,
    0,
    1,
    127,
    128,
    255,
    256,
    32_767,
    32_768,
    65_535,
    65_536,
    i32::MAX,
];

/// In the place of a location, for the numbers of all of them: of words that aren't addresses of the data, and of those
/// that are.
const NUMBERS: u16 = 0;

const ADDRESSES: u16 = LOCATIONS as u16;

/// A location that is compared with more numbers than this one hands none on.
const MOST: usize = 100;

/// Where ranges may stop: those of the locations of one function, or of all functions of a program.
#[derive(Drop)]
pub struct Thresholds {
    pub(crate) memory: Heap,
    /// Each number behind its location; once all are there by location, the least number first, and each once.
    numbers: Vec<(u16, i32)>,
    /// Locations that are compared with other ones, whose numbers they get.
    pub(crate) pairs: Vec<(u16, u16)>,
    /// Where the data begin and end, of all functions.
    start: i32,
    end: i32,
}

/// How far the range of a location may grow at once.
#[derive(Clone, Copy)]
pub enum Growth<'t> {
    /// As far as it has to.
    Least,
    /// An end that moves goes to a threshold: one of the function's, or of all functions.
    ToThresholds(&'t Thresholds, &'t Thresholds),
    /// An end that moves goes to that of all words.
    ToAll,
}

impl Growth<'_> {
    /// Where an end of a location's range goes that has to go to a number: there or beyond it, which is above it, or
    /// where `is_below` below it.
    pub(crate) fn end(self, location: u16, number: i32, is_below: bool) -> i32 {
        match self {
            Growth::Least => return number,
            Growth::ToThresholds(own, common) => {
                let is_address = common.is_address(number);
                let all = if is_address { ADDRESSES } else { NUMBERS };
                let of_location = own.next(location, number, is_below);
                let of_all = match own.next(all, number, is_below) {
                    Some(one) => match common.next(all, number, is_below) {
                        Some(other) if is_below => Some(one.max(other)),
                        Some(other) => Some(one.min(other)),
                        None => Some(one),
                    },
                    None => common.next(all, number, is_below),
                };
                if let Some(end) = of_location.or(of_all) {
                    return end;
                }
            }
            Growth::ToAll => {}
        }
        if is_below { i32::MIN } else { i32::MAX }
    }
}

/// Adds the numbers of the second of two locations as those of the first one, unless these are many. So many first
/// numbers are in their order.
fn copy_numbers(
    memory: &mut Heap,
    numbers: &mut Vec<(u16, i32)>,
    ordered: usize,
    (to, from): (u16, u16),
) {
    let count = numbers.len();
    let first = &numbers.as_slice()[..ordered.min(count)];
    let mut place = first.partition_point(|entry| entry.0 < from);
    for _ in 0..count {
        let entries = numbers.as_slice();
        if (place >= count) | (place >= entries.len()) {
            break;
        }
        let (location, number) = entries[place];
        if location == from {
            memory.push(numbers, (to, number));
        } else if place < ordered {
            // those of the location stand together there
            place = ordered;
            continue;
        }
        place = place.saturating_add(1);
    }
    if numbers.len().saturating_sub(count) > MOST {
        numbers.truncate(count);
    }
}

impl Thresholds {
    /// None.
    fn none(memory: &Heap) -> Thresholds {
        Thresholds {
            memory: *memory,
            numbers: Vec::new(memory.alloc),
            pairs: Vec::new(memory.alloc),
            start: i32::MAX,
            end: i32::MIN,
        }
    }

    /// Whether a number is an address of the data, or that behind them.
    fn is_address(&self, number: i32) -> bool {
        (self.start <= number) & (number <= self.end.saturating_add(1))
    }

    /// The number of a location next to one: that itself, or else the first one above it, or where `is_below` below it.
    fn next(&self, location: u16, number: i32, is_below: bool) -> Option<i32> {
        let entries = self.numbers.as_slice();
        let place = match entries.binary_search(&(location, number)) {
            Ok(place) => place,
            Err(above) => above.wrapping_sub(usize::from(is_below)),
        };
        if place < entries.len() && entries[place].0 == location {
            Some(entries[place].1)
        } else {
            None
        }
    }

    /// Adds numbers of a location.
    pub(crate) fn add(&mut self, location: u16, numbers: &[i32]) {
        for number in numbers {
            self.memory.push(&mut self.numbers, (location, *number));
        }
    }

    /// Adds two numbers with those before and behind them.
    fn add_around(&mut self, location: u16, a: i32, b: i32) {
        let numbers = [
            a.saturating_sub(1),
            a,
            a.saturating_add(1),
            b.saturating_sub(1),
            b,
            b.saturating_add(1),
        ];
        self.add(location, &numbers);
    }

    /// Locations get the numbers of those that they are compared with, unless these are many.
    fn hand_on(&mut self) {
        let (memory, numbers) = (&mut self.memory, &mut self.numbers);
        let ordered = numbers.len();
        for pair in self.pairs.as_slice() {
            copy_numbers(memory, numbers, ordered, *pair);
        }
    }

    /// Adds the ends of the program's objects, the last places in them for 2, 4 and 8 bytes, and their lengths.
    fn add_objects(&mut self, program: &Program) {
        for object in program.objects.as_slice() {
            let length = i32::try_from(object.bytes.len()).unwrap_or(i32::MAX);
            let start = object.start.cast_signed();
            let end = start.saturating_add(length);
            self.add(NUMBERS, &[length, length.saturating_sub(1)]);
            let last = [
                end.saturating_sub(8),
                end.saturating_sub(4),
                end.saturating_sub(2),
            ];
            self.add(ADDRESSES, &last);
            self.add_around(ADDRESSES, start, end);
        }
    }

    /// Adds the ends of the program's regions.
    fn add_regions(&mut self, program: &Program) {
        for region in program.regions.as_slice() {
            let start = region.start.cast_signed();
            let end = region.start.saturating_add(region.length).cast_signed();
            self.add_around(ADDRESSES, start, end);
            self.start = self.start.min(start);
            self.end = self.end.max(end);
        }
    }

    /// Puts the numbers in their order.
    fn sort(&mut self) {
        self.numbers.as_mut_slice().sort_unstable();
        self.numbers.dedup();
    }
}

/// The thresholds of all functions of a program.
pub fn common_thresholds(memory: &mut Heap, program: &Program) -> Thresholds {
    let mut thresholds = Thresholds::none(memory);
    thresholds.add(NUMBERS, &COMMON);
    thresholds.add_objects(program);
    thresholds.add_regions(program);
    thresholds.sort();
    *memory = thresholds.memory;
    thresholds
}

/// The thresholds of a function that is called with these params, beside those of all functions.
pub fn thresholds_of(memory: &mut Heap, function: &Function, params: &[Range]) -> Thresholds {
    let mut thresholds = Thresholds::none(memory);
    thresholds.add_compared(function);
    thresholds.sort();
    thresholds.hand_on();
    for range in params {
        thresholds.add_around(NUMBERS, range.lo, range.hi);
        thresholds.add_around(ADDRESSES, range.lo, range.hi);
    }
    thresholds.sort();
    *memory = thresholds.memory;
    thresholds
}
