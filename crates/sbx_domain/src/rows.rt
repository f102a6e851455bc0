//! Entries of all locations, which take up memory as far as the last one that was written.
ghost use Rattle.std.specs.Prelude.{◌≡◌, ℕ, ◌<◌, ◌≤◌, None, IfOk, length, slice_index_or, slice_set, vec_capacity};
ghost use Rattle.sbx_domain.specs.Parts.{padded};

use crate::state::LOCATIONS;
use std::alloc::{AllocError, Global};
use std::marker::Model;

/// What stands at each location. Room for all of them is asked for at once, and none of it is written before it is
/// needed: a block of a small program names few locations, and they are low. Contracts see a list of all locations.
#[derive(Drop)]
pub(crate) struct Rows<T> {
    // nothing stands past its end
    items: Vec<Option<T>>,
}

impl<T> Model for Rows<T> {
    ghost use Rattle.std.specs.Prelude.{List, Option, ◌≤◌, length, vec_capacity};

    ghost Value = { List (Option T) };

    ghost use Rattle.sbx_domain.specs.Parts.{padded};

    ghost view = { λ r. padded r.items.items };

    ghost invariant = { λ r. (length r.items.items ≤ 1040) × (1040 ≤ vec_capacity r.items) };
}

/// Writes items that are nothing up to a location, where none stands yet.
fn reach<T: Copy>(items: &mut Vec<Option<T>>, location: usize)
    requires location { location < 1040 }
    requires few { length items.old.items ≤ 1040 }
    requires room { 1040 ≤ vec_capacity items.old }
    ensures same { padded items.new.items ≡ padded items.old.items }
    ensures reached { location < length items.new.items }
    ensures few { length items.new.items ≤ 1040 }
    ensures room { 1040 ≤ vec_capacity items.new }
{
    while items.len() <= location {
        items.push_reserved(None);
    }
}

impl<T: Copy> Rows<T> {
    /// Nothing anywhere.
    pub(crate) fn new(alloc: Global) -> Result<Self, AllocError>
        ensures size { IfOk result (λ rows. length rows ≡ 1040) }
        ensures none { IfOk result (λ rows. (k : ℕ) → slice_index_or rows k None ≡ None) }
    {
        let items = Vec::with_capacity(alloc, LOCATIONS)?;
        Ok(Rows { items })
    }

    /// A location from which on nothing stands below another one.
    #[inline(always)]
    pub(crate) fn end_below(&self, to: usize) -> usize
        ensures below { result ≤ to }
        ensures none { (k : ℕ) → result ≤ k → k < to → slice_index_or self.now k None ≡ None }
    {
        self.items.len().min(to)
    }

    /// What stands at a location.
    #[inline(always)]
    pub(crate) fn get(&self, location: usize) -> Option<T>
        ensures { result ≡ slice_index_or self.now location None }
    {
        if location < self.items.len() {
            self.items[location]
        } else {
            None
        }
    }

    /// Takes away what stands at a location.
    #[inline(always)]
    pub(crate) fn remove(&mut self, location: usize)
        ensures { self.new ≡ slice_set self.old location None }
    {
        if location < self.items.len() {
            self.items[location] = None;
        }
    }

    #[inline(always)]
    fn write(&mut self, location: usize, entry: Option<T>)
        requires { location < 1040 }
        ensures { self.new ≡ slice_set self.old location entry }
    {
        reach(&mut self.items, location);
        self.items[location] = entry;
    }

    /// Puts something at a location, or takes away what stands there.
    #[inline(always)]
    pub(crate) fn set(&mut self, location: usize, entry: Option<T>)
        requires { location < 1040 }
        ensures { self.new ≡ slice_set self.old location entry }
    {
        match entry {
            Some(_) => self.write(location, entry),
            None => self.remove(location),
        }
    }
}
