//! Links from the names of several files to what they stand for.
use crate::source::{Assembly, SymbolPlace};
use fit_code::{Heap, SourceLine};
use std::collections::BTreeMap;

/// Where the symbols of a source stand, in whichever file.
#[derive(Drop)]
pub struct Linked<'l> {
    source: &'l Assembly,
    /// The global names that stand somewhere.
    globals: BTreeMap<&'l str, SymbolPlace>,
}

impl Linked<'_> {
    /// Where a symbol stands: in its own file, else as a global name of another one.
    pub fn place(&self, symbol: usize) -> SymbolPlace {
        match self.source.symbols.get(symbol) {
            Some(found) if matches!(found.place, SymbolPlace::Nowhere) => {
                self.global(found.name.as_str())
            }
            Some(found) => found.place,
            None => SymbolPlace::Nowhere,
        }
    }

    /// Where a global name stands.
    pub fn global(&self, name: &str) -> SymbolPlace {
        match self.globals.get(name) {
            Some(place) => *place,
            None => SymbolPlace::Nowhere,
        }
    }
}

/// Finds where global names stand; and the line and the symbol of the first one that stands at a second place. A name
/// that stands nowhere is no fault as long as nothing needs it.
pub fn links_of<'l>(
    memory: &mut Heap,
    source: &'l Assembly,
) -> (Linked<'l>, Option<(SourceLine, usize)>) {
    let mut globals: BTreeMap<&str, SymbolPlace> = BTreeMap::new(memory.alloc);
    let mut second = None;
    for (number, symbol) in source.symbols.as_slice().iter().enumerate() {
        if symbol.is_global & !matches!(symbol.place, SymbolPlace::Nowhere) {
            match globals.insert(symbol.name.as_str(), symbol.place) {
                Ok(before) => {
                    if before.is_some() & second.is_none() {
                        second = Some((symbol.line, number));
                    }
                }
                Err(_) => memory.is_refused = true,
            }
        }
    }
    (Linked { source, globals }, second)
}
