//! Want of memory, told once behind several things that are made and may need some.
use crate::code::End;
use std::alloc::{AllocError, Global};

/// Where memory comes from, and whether some was refused while something was made. Who makes it asks when that is done,
/// and lets what was made go if some was.
#[derive(Clone, Copy)]
pub struct Heap {
    pub alloc: Global,
    pub is_refused: bool,
}

impl Heap {
    /// None was refused.
    pub fn new(alloc: Global) -> Heap {
        Heap {
            alloc,
            is_refused: false,
        }
    }

    /// Takes in how something went that may need memory.
    pub fn take(&mut self, done: Result<(), AllocError>) {
        self.is_refused |= done.is_err();
    }

    /// Puts an item behind those of a list.
    pub fn push<T: Drop>(&mut self, list: &mut Vec<T>, item: T) {
        self.is_refused |= list.push(item).is_err();
    }

    /// Puts the blocks that an end goes to behind those of a list.
    pub fn push_ways(&mut self, blocks: &mut Vec<usize>, end: End) {
        for way in end.ways() {
            if let Some(to) = way {
                self.push(blocks, to);
            }
        }
    }

    /// A list of so many times an item.
    pub fn repeat<T: Copy>(&mut self, item: T, count: usize) -> Vec<T> {
        let mut list = Vec::new(self.alloc);
        self.is_refused |= list.resize(count, item).is_err();
        list
    }

    /// A list of some items; none where memory is refused.
    pub fn copy<T: Copy>(&mut self, items: &[T]) -> Vec<T> {
        let mut list = Vec::new(self.alloc);
        self.is_refused |= list.extend_from_slice(items).is_err();
        list
    }

    /// What was made, or want of memory, if some was refused.
    pub fn told<T: Drop>(self, made: T) -> Result<T, AllocError> {
        if self.is_refused {
            return Err(AllocError);
        }
        Ok(made)
    }
}
