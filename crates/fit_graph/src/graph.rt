//! The graph of a function's blocks: which follow which, which stand on each way to others, and its loops.
mod above;
mod back;
mod loops;
mod reach;
mod tangles;

pub use back::Graph;
use fit_code::{Function, Heap};
pub use loops::Loop;
pub use reach::reached_from;
use std::alloc::{AllocError, Global};
pub use tangles::{Tangle, tangle_of};

/// The blocks that can be reached from the first one, each before those that follow it but where a loop goes back.
#[derive(Drop)]
pub struct Order {
    /// The blocks' numbers, in that order.
    pub blocks: Vec<usize>,
    /// The place of each block in the order; none of one that isn't reached.
    pub places: Vec<Option<usize>>,
}

impl Order {
    /// The place of a block; none of one that isn't reached, and of a number that is no block's.
    pub fn place(&self, block: usize) -> Option<usize> {
        self.places.get(block).copied().flatten()
    }
}

/// Says for each block of an order from one of its places up to another at which it stands.
pub fn put_places(places: &mut [Option<usize>], blocks: &[usize], (from, behind): (usize, usize)) {
    for place in from..behind.min(blocks.len()) {
        let block = blocks[place];
        if block < places.len() {
            places[block] = Some(place);
        }
    }
}

/// The blocks that control may go to from a block, where a branch is taken first. None of a number that is no block's.
pub fn successors_in(function: &Function, block: usize) -> [Option<usize>; 2] {
    if block < function.blocks.len() {
        function.blocks[block].end.ways()
    } else {
        [None, None]
    }
}

/// What is listed for each block: the ways that lead to it, each by its number, which is twice that of the block it
/// comes from, and one more where a branch isn't taken; the blocks that these come from, each as often as it stands
/// there; or the blocks that it leads to, where a branch is taken first.
#[derive(Clone, Copy)]
pub enum Listed {
    Ways,
    Sources,
    Targets,
}

/// What is listed for each block of a function; no lists where there is no memory for them.
pub fn list(memory: &mut Heap, function: &Function, listed: Listed) -> Vec<Vec<usize>> {
    let count = function.blocks.len();
    let Ok(mut lists) = vec![in memory.alloc; Vec::new(memory.alloc); count] else {
        memory.is_refused = true;
        return Vec::new(memory.alloc);
    };
    let slots: &mut [Vec<usize>] = lists.as_mut_slice();
    for way in 0..count.saturating_mul(2) {
        let from = way / 2;
        if let Some(to) = successors_in(function, from)[way % 2] {
            let (block, other) = match listed {
                Listed::Ways => (to, way),
                Listed::Sources => (to, from),
                Listed::Targets => (from, to),
            };
            if block < slots.len() {
                memory.push(&mut slots[block], other);
            }
        }
    }
    lists
}

/// For each block those that control comes from, each as often as it does.
pub fn predecessors_of(alloc: Global, function: &Function) -> Result<Vec<Vec<usize>>, AllocError> {
    let mut memory = Heap::new(alloc);
    let lists = list(&mut memory, function, Listed::Sources);
    memory.told(lists)
}

/// For each block those that control may go to, where a branch is taken first.
pub fn successors_of(alloc: Global, function: &Function) -> Result<Vec<Vec<usize>>, AllocError> {
    let mut memory = Heap::new(alloc);
    let lists = list(&mut memory, function, Listed::Targets);
    memory.told(lists)
}

/// The order of a function's blocks: reverse postorder, from the first block on.
pub(crate) fn order_in(memory: &mut Heap, function: &Function) -> Order {
    let mut found = memory.repeat(None, function.blocks.len());
    let mut blocks = Vec::new(memory.alloc);
    let places = found.as_mut_slice();
    // Blocks that are to be entered, and such that were and are to be left: these stand below the blocks of their ways.
    let mut open = memory.copy(&[(Some(0), false)]);
    // A block is entered once, which leaves three here. Each that was entered has some place.
    for _ in 0..places.len().saturating_mul(3).saturating_add(1) {
        if let Some((Some(block), is_entered)) = open.pop() {
            if is_entered {
                memory.push(&mut blocks, block);
            } else if block < places.len() && places[block].is_none() {
                places[block] = Some(0);
                let [first, second] = successors_in(function, block);
                let behind = [(Some(block), true), (second, false), (first, false)];
                memory.is_refused |= open.extend_from_slice(&behind).is_err();
            }
        }
    }
    blocks.reverse();
    put_places(places, blocks.as_slice(), (0, blocks.len()));
    Order {
        blocks,
        places: found,
    }
}

/// The order of a function's blocks: reverse postorder, from the first block on.
pub fn order_of(alloc: Global, function: &Function) -> Result<Order, AllocError> {
    let mut memory = Heap::new(alloc);
    let order = order_in(&mut memory, function);
    memory.told(order)
}
