//! The blocks of a function that are to be visited.
use fit_code::Heap;
use std::alloc::Global;

/// A word of bits has one for each of so many places.
const PLACES: usize = 64;

/// Which blocks are to be visited.
#[derive(Drop)]
pub struct Pending {
    /// By their numbers.
    pub blocks: Vec<bool>,
    /// A bit for each place of the stretch that is looked at whose block something came to, by words.
    places: Vec<u64>,
    /// The places of the stretch: its first one, one before which no block has such a bit, and the one behind its last
    /// one.
    pub start: usize,
    pub first: usize,
    pub end: usize,
    /// Whether all blocks of the stretch are looked at again; else those that are picked, by their numbers.
    pub is_whole: bool,
    pub picked: Vec<bool>,
}

impl Pending {
    /// Nothing is to be visited.
    pub fn new(alloc: Global) -> Pending {
        Pending {
            blocks: Vec::new(alloc),
            places: Vec::new(alloc),
            start: 0,
            first: 0,
            end: 0,
            is_whole: true,
            picked: Vec::new(alloc),
        }
    }

    /// Nothing is to be visited, of so many blocks.
    pub fn begin(&mut self, memory: &mut Heap, count: usize) {
        self.blocks = memory.repeat(false, count);
        self.picked = memory.repeat(false, count);
        self.places = memory.repeat(0, (count / PLACES).saturating_add(1));
    }

    /// Whether a block is looked at again.
    pub fn has(&self, block: usize) -> bool {
        self.is_whole || (block < self.picked.len() && self.picked[block])
    }

    /// Whether a block is to be visited.
    pub fn is_asked(&self, block: usize) -> bool {
        block < self.blocks.len() && self.blocks[block]
    }

    /// A block is to be visited.
    pub fn mark(&mut self, block: usize) {
        let blocks = self.blocks.as_mut_slice();
        if block < blocks.len() {
            blocks[block] = true;
        }
    }

    /// A block of the stretch is to be visited, since something came to it, which stands at a place.
    pub fn mark_at(&mut self, block: usize, place: usize) {
        self.mark(block);
        let (words, at) = (self.places.as_mut_slice(), place / PLACES);
        if at < words.len() {
            words[at] |= 1 << (place % PLACES);
        }
        self.first = self.first.min(place);
    }

    /// The first place of the stretch whose block something came to; one from which on none was visited where none is
    /// before that.
    pub fn next(&self, fresh: usize) -> usize {
        let words = self.places.as_slice();
        for at in self.first / PLACES..words.len().min((fresh / PLACES).saturating_add(1)) {
            if words[at] != 0 {
                let bit = words[at].trailing_zeros() as usize;
                return at.saturating_mul(PLACES).saturating_add(bit).min(fresh);
            }
        }
        fresh
    }

    /// The block of a place is visited.
    pub fn visit(&mut self, block: usize, place: usize) {
        let blocks = self.blocks.as_mut_slice();
        if block < blocks.len() {
            blocks[block] = false;
        }
        let (words, at) = (self.places.as_mut_slice(), place / PLACES);
        if at < words.len() {
            words[at] &= !(1 << (place % PLACES));
        }
        self.first = place;
    }
}
