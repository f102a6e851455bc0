//! The layout of a program's objects in the data.
use crate::points::needed::{Needed, needed_from};
use crate::stops::{Obstacle, Stops};
use fit_code::{Heap, NO_LINE, Naming, Object, Region, SourceLine};
use fit_gas::{
    AddressPart, Assembly, CodeBody, Fix, Linked, SymbolPlace, links_of, owned, word_of,
};

/// Where the data of an image begin.
const DATA: u32 = 0x8_0000;

/// Bytes before the first object, so that an address a little before it is one of the data.
const HEAD: u32 = 64;

/// Bytes before each object, for the same reason.
const PAD: u32 = 16;

/// Bytes behind the last object.
const TAIL: u32 = 256;

/// How many bytes all regions have at most, with what is left of their last pages.
const MOST: u32 = 262_144;

/// Where the last object may end.
const LAST: u32 = DATA + MOST - TAIL;

/// Of so many functions the addresses may be taken: what stands for one is less than 4,096.
const TAKEN: usize = 1_020;

const TOO_MANY: Obstacle = Obstacle::TooMany("bytes of data", 262_144);

/// The bytes of a page; each region begins one.
const PAGE: u32 = 4_096;

/// Objects in two regions, each with its address from when it is added: the constants, and what may be written.
#[derive(Drop)]
pub struct Layout<'l> {
    pub stops: Stops,
    pub source: &'l Assembly,
    pub linked: Linked<'l>,
    pub objects: Vec<Object>,
    /// The regions that ended, by their addresses.
    pub regions: Vec<Region>,
    needed: Needed,
    /// Of each object of the source that is needed its number here.
    numbers: Vec<usize>,
    /// Functions of the source, each with the object of its arguments in memory.
    arguments: Vec<(usize, usize)>,
    /// The functions whose addresses are taken: what stands for one is its place here.
    pub taken: Vec<usize>,
    /// Where the region begins that objects are added to.
    start: u32,
    /// Where the last object ends, and the line that it was added for.
    end: u32,
    line: SourceLine,
}

impl Layout<'_> {
    /// Adds an object, for a line: some bytes, and zeros behind them up to a length. Gives its number. It is a fault at
    /// the line where it would end behind what an image may have.
    pub fn add(
        &mut self,
        name: String,
        align: u32,
        bytes: &[u8],
        length: usize,
        line: SourceLine,
    ) -> usize {
        let number = self.objects.len();
        let padded = self.end.saturating_add(PAD);
        let start = padded.checked_next_multiple_of(align).unwrap_or(u32::MAX);
        self.end = start.saturating_add(length.min(2 * MOST as usize) as u32);
        self.line = line;
        let mut object = Object {
            name,
            bytes: Vec::new(self.stops.memory.alloc),
            start,
            outside: Vec::new(self.stops.memory.alloc),
        };
        if self.end > LAST {
            self.stops.note(line, TOO_MANY);
        } else {
            object.bytes = self.stops.memory.copy(bytes);
            self.stops.memory.take(object.bytes.resize(length, 0));
        }
        self.stops.memory.push(&mut self.objects, object);
        number
    }

    /// Adds the objects of the source that are needed and are constants, or aren't, each for the line where its name
    /// stands first.
    fn add_all(&mut self, readonly: bool) {
        let source = self.source;
        for (place, datum) in source.objects.iter().enumerate() {
            if datum.readonly == readonly
                && self.needed.has_object(place)
                && let Some(symbol) = source.symbols.get(datum.symbol)
            {
                let name = owned(&mut self.stops.memory, symbol.name.as_str());
                let align = datum.align.max(8);
                let bytes = source.bytes_of(place, datum);
                let number = self.add(name, align, bytes, bytes.len(), symbol.line);
                let numbers = self.numbers.as_mut_slice();
                if place < numbers.len() {
                    numbers[place] = number;
                }
            }
        }
    }

    /// The object of so many bytes for the arguments in memory of a function of the source, which a line asks for.
    pub fn arguments_of(&mut self, function: usize, bytes: usize, line: SourceLine) -> usize {
        for (known, object) in self.arguments.as_slice() {
            if *known == function {
                return *object;
            }
        }
        let mut name = String::new(self.stops.memory.alloc);
        let written = write!(name, "arguments of function {function}");
        self.stops.memory.is_refused |= written.is_err();
        let object = self.add(name, 8, &[], bytes, line);
        self.stops
            .memory
            .push(&mut self.arguments, (function, object));
        object
    }

    /// The address of an object plus a number, as a word.
    pub fn address(&self, object: usize, offset: i64) -> u32 {
        let start = if object < self.objects.len() {
            self.objects[object].start
        } else {
            0
        };
        word_of(i64::from(start).saturating_add(offset))
    }

    /// The region that objects were added to ends; what is added from here on lies on pages of its own.
    pub fn end_region(&mut self, readonly: bool) {
        let start = self.start;
        let end = self.end.saturating_add(TAIL + 7) & !7;
        self.start = end.saturating_add(PAGE - 1) & !(PAGE - 1);
        self.end = self.start.saturating_add(HEAD);
        let region = Region {
            readonly,
            start,
            length: end.saturating_sub(start),
        };
        self.stops.memory.push(&mut self.regions, region);
    }

    /// Adds the objects that are needed, the constants first, which are a region of their own.
    fn add_regions(&mut self) {
        self.add_all(true);
        if !self.objects.is_empty() {
            self.end_region(true);
            if self.end > LAST {
                let line = self.line;
                self.stops.note(line, TOO_MANY);
            }
        }
        self.add_all(false);
    }

    /// The word that stands for the address of a function of the source, which is taken.
    fn take(&mut self, function: usize, line: SourceLine) -> u32 {
        let mut place = self.taken.len();
        for (known, taken) in self.taken.as_slice().iter().enumerate() {
            if *taken == function {
                place = known;
            }
        }
        if place == self.taken.len() {
            self.stops.memory.push(&mut self.taken, function);
        }
        if place >= TAKEN {
            let many = Obstacle::TooMany("functions whose addresses are taken", TAKEN as u64);
            self.stops.note(line, many);
        }
        pointer_word(place)
    }

    /// The object that a symbol stands for, by its number here, and the address of it plus a number; of a function no
    /// object, and the word that stands for its address. It is a fault at a line where it stands for neither.
    pub fn reach(&mut self, symbol: usize, offset: i64, line: SourceLine) -> (Option<usize>, u32) {
        let naming = match self.linked.place(symbol) {
            SymbolPlace::Object(datum) => {
                let object = self.numbers.get(datum).copied().unwrap_or(0);
                return (Some(object), self.address(object, offset));
            }
            SymbolPlace::Function(function) if offset == 0 => {
                return (None, self.take(function, line));
            }
            SymbolPlace::Nowhere => Naming::NotDefined,
            _ => Naming::AddressOfFunction,
        };
        self.stops.note(line, Obstacle::Named(naming, symbol));
        (None, 0)
    }

    /// Takes the addresses of functions that instructions of a function name.
    fn take_all(&mut self, code: &CodeBody) {
        for item in code.items.as_slice() {
            if let Some(reference) = item.reference
                && !matches!(reference.part, AddressPart::Target)
                && let SymbolPlace::Function(function) = self.linked.place(reference.symbol)
            {
                let _word = self.take(function, item.line);
            }
        }
    }

    /// Takes those that instructions of functions name that are needed.
    fn take_from_all(&mut self) {
        let source = self.source;
        for (number, code) in source.codes.as_slice().iter().enumerate() {
            if self.needed.has_function(number) {
                self.take_all(code);
            }
        }
    }

    /// Takes down that an instruction names an address by an object's name, if it lies outside of that.
    pub fn name_outside(&mut self, number: usize, address: u32) {
        let objects = self.objects.as_mut_slice();
        if number < objects.len() {
            let object = &mut objects[number];
            let is_in = (address.wrapping_sub(object.start) as usize) < object.bytes.len();
            if !is_in && !object.outside.contains(&address) {
                self.stops.memory.push(&mut object.outside, address);
            }
        }
    }

    /// Fills in an address that an object of the source holds.
    fn fill(&mut self, fix: &Fix) {
        let number = self.numbers.get(fix.object).copied().unwrap_or(0);
        let (_, word) = self.reach(fix.symbol, fix.offset, fix.line);
        if let Some(object) = self.objects.get_mut(number) {
            put_word(object.bytes.as_mut_slice(), fix.at, word);
        }
    }

    /// Fills in all addresses that objects hold which are needed.
    fn fill_all(&mut self) {
        let source = self.source;
        for fix in source.fixes.as_slice() {
            if self.needed.has_object(fix.object) {
                self.fill(fix);
            }
        }
    }
}

/// The word that stands for the address of a function, by its place among those whose addresses are taken: below all
/// data, and a multiple of 4.
pub fn pointer_word(place: usize) -> u32 {
    place.min(TAKEN) as u32 * 4 + 16
}

/// The name of a symbol; no text where there is none.
pub fn name_of(source: &Assembly, symbol: usize) -> &str {
    if symbol < source.symbols.len() {
        source.symbols[symbol].name.as_str()
    } else {
        ""
    }
}

/// Puts a word at a place among bytes, the most significant byte first.
fn put_word(bytes: &mut [u8], at: usize, word: u32) {
    let mut place = at;
    for byte in word.to_be_bytes() {
        if place < bytes.len() {
            bytes[place] = byte;
            place += 1;
        }
    }
}

/// Lays out the objects of a source that are needed from the global function `entry` on: the constants first, on pages
/// that may be read alone. What stops it is noted in the layout: a global name that stands at two places; an address
/// within a function, or of what stands nowhere; more bytes than an image may have.
pub fn layout_of<'l>(source: &'l Assembly, entry: &str) -> Layout<'l> {
    let alloc = source.memory.alloc;
    let mut memory = Heap::new(alloc);
    let numbers = memory.repeat(0, source.objects.len());
    let (linked, second) = links_of(&mut memory, source);
    let needed = needed_from(&mut memory, source, &linked, entry);
    let mut stops = Stops {
        memory,
        symbol: 0,
        first: None,
    };
    if let Some((line, symbol)) = second {
        stops.note(line, Obstacle::Named(Naming::DefinedTwice, symbol));
    }
    let mut layout = Layout {
        stops,
        source,
        linked,
        objects: Vec::new(alloc),
        regions: Vec::new(alloc),
        needed,
        numbers,
        arguments: Vec::new(alloc),
        taken: Vec::new(alloc),
        start: DATA,
        end: DATA + HEAD,
        line: NO_LINE,
    };
    layout.add_regions();
    layout.fill_all();
    layout.take_from_all();
    layout
}
