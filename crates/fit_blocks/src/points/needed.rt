//! The functions and the objects that an image needs: those that its entry names, those that these name, and so on.
//! What nothing names from there is left out, as a linker that collects sections would.
use fit_code::Heap;
use fit_gas::{Assembly, CodeBody, Linked, SymbolPlace};
use fit_graph::reached_from;

/// Which functions and objects of a source are needed.
#[derive(Drop)]
pub struct Needed {
    /// Of the functions by their numbers, and of the objects behind them.
    marks: Vec<bool>,
    /// How many functions the source has.
    functions: usize,
}

impl Needed {
    /// Whether what has a place among functions and objects is needed.
    fn has(&self, place: usize) -> bool {
        place < self.marks.len() && self.marks[place]
    }

    /// Whether the function of a number is needed.
    pub fn has_function(&self, number: usize) -> bool {
        number < self.functions && self.has(number)
    }

    /// Whether the object of a number is needed.
    pub fn has_object(&self, number: usize) -> bool {
        self.has(self.functions.saturating_add(number))
    }
}

/// The place among functions and objects of what a symbol stands for; of a label in a function that of the function.
fn place_of(source: &Assembly, linked: &Linked, symbol: usize) -> Option<usize> {
    match linked.place(symbol) {
        SymbolPlace::Function(number) => Some(number),
        SymbolPlace::Label { code, .. } => Some(code),
        SymbolPlace::Object(number) => Some(source.codes.len().saturating_add(number)),
        SymbolPlace::Nowhere => None,
    }
}

/// What the instructions of a function name.
fn named_in(memory: &mut Heap, source: &Assembly, linked: &Linked, code: &CodeBody) -> Vec<usize> {
    let mut named = Vec::new(memory.alloc);
    for item in code.items.as_slice() {
        if let Some(reference) = item.reference
            && let Some(place) = place_of(source, linked, reference.symbol)
        {
            memory.push(&mut named, place);
        }
    }
    named
}

/// What each function names; nothing yet of each object.
fn named_in_codes(memory: &mut Heap, source: &Assembly, linked: &Linked) -> Vec<Vec<usize>> {
    let mut named = Vec::new(memory.alloc);
    let count = source.codes.len().saturating_add(source.objects.len());
    for place in 0..count {
        let found = match source.codes.get(place) {
            Some(code) => named_in(memory, source, linked, code),
            None => Vec::new(memory.alloc),
        };
        memory.push(&mut named, found);
    }
    named
}

/// Adds what the addresses in objects name.
fn add_fixes(memory: &mut Heap, source: &Assembly, linked: &Linked, named: &mut [Vec<usize>]) {
    for fix in source.fixes.as_slice() {
        let object = source.codes.len().saturating_add(fix.object);
        if let Some(place) = place_of(source, linked, fix.symbol)
            && object < named.len()
        {
            memory.push(&mut named[object], place);
        }
    }
}

/// What an image of a source needs from the global function `entry` on: nothing where there is none.
pub fn needed_from(memory: &mut Heap, source: &Assembly, linked: &Linked, entry: &str) -> Needed {
    let mut named = named_in_codes(memory, source, linked);
    add_fixes(memory, source, linked, named.as_mut_slice());
    let mut first = Vec::new(memory.alloc);
    if let SymbolPlace::Function(number) = linked.global(entry) {
        memory.push(&mut first, number);
    }
    let all = memory.repeat(true, named.len());
    let reached = reached_from(
        memory.alloc,
        named.as_slice(),
        first.as_slice(),
        all.as_slice(),
    );
    memory.is_refused |= reached.is_err();
    Needed {
        marks: reached.unwrap_or(Vec::new(memory.alloc)),
        functions: source.codes.len(),
    }
}
