//! The loops of a function.
use crate::graph::reach::is_held;

/// The blocks that can come back to a head without leaving it behind.
#[derive(Drop)]
pub struct Loop {
    /// The block that each way into the loop goes to.
    pub head: usize,
    /// The blocks of the loop that go to its head.
    pub latches: Vec<usize>,
    /// For each block of the function whether it is in the loop.
    pub holds: Vec<bool>,
    /// The number of the smallest loop around it.
    pub parent: Option<usize>,
}

impl Loop {
    /// Whether a block is in the loop.
    pub fn has(&self, block: usize) -> bool {
        is_held(self.holds.as_slice(), block)
    }
}

/// The number of the last of some loops that has a block: the smallest one around it, since a loop stands behind those
/// around it.
pub fn last_around(loops: &[Loop], block: usize) -> Option<usize> {
    let mut found = None;
    for number in 0..loops.len() {
        if loops[number].has(block) {
            found = Some(number);
        }
    }
    found
}
