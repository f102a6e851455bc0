//! The instructions of a function that a compiler wrote, by their places: which slots may run before their branches,
//! where blocks begin, and the frame.
mod starts;

use crate::codes::codes_of;
use fit_code::{RegisterSet, Step, fields_of, named_by};
pub use starts::{frame_and_start, leads_of, number_marked};
use std::slice;

/// Whether the slot of a branch may run before it: it doesn't set the codes, and doesn't write what the last
/// compare before it read.
pub fn may_go_before(slot: &Step, steps: &[Step]) -> bool {
    let compared = match &codes_of(steps).setter {
        Some(compare) => named_by(&fields_of(compare)),
        None => RegisterSet::NONE,
    };
    let slot = codes_of(slice::from_ref(slot));
    slot.setter.is_none() & slot.written.is_disjoint(compared)
}
