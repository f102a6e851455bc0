//! The shape of a function, for who goes along its ways.
use crate::locations::LocationSet;
use fit_code::{Function, Heap};
use fit_graph::{Graph, Listed, Loop, Order, list, put_places};

/// What stays the same while a function's ranges are looked for.
#[derive(Drop)]
pub struct FunctionShape {
    /// The blocks that can be reached from the first one, each before those that follow it but where a loop goes back,
    /// and a loop's blocks with no others between them: a loop is left for good before what stands behind it is looked
    /// at.
    pub order: Order,
    /// Of each block, the ways that lead to it, each by its number: twice that of the block that it comes from, and one
    /// more where a branch isn't taken.
    pub sources: Vec<Vec<usize>>,
    /// Of each block, what is live where it begins.
    pub live: Vec<LocationSet>,
}

/// How many blocks a loop has.
fn count_in(within: &Loop) -> usize {
    let mut count: usize = 0;
    for is_in in within.holds.as_slice() {
        count = count.saturating_add(usize::from(*is_in));
    }
    count
}

/// Puts blocks into an order, from a place on.
fn put_from(blocks: &mut [usize], from: usize, others: &[usize]) {
    let mut to = from;
    for block in others {
        if to < blocks.len() {
            blocks[to] = *block;
        }
        to = to.saturating_add(1);
    }
}

/// Moves the blocks of a loop in an order right behind its head, in their order, and behind them those that stood
/// between them.
fn gather(memory: &mut Heap, order: &mut Order, within: &Loop) {
    let Some(head) = order.place(within.head) else {
        return;
    };
    let blocks = order.blocks.as_mut_slice();
    let mut others = Vec::new(memory.alloc);
    let (mut to, mut end, mut left) = (head, head, count_in(within));
    for place in head..blocks.len() {
        if left == 0 {
            break;
        }
        let block = blocks[place];
        if within.has(block) & (to < blocks.len()) {
            blocks[to] = block;
            to = to.saturating_add(1);
            left = left.saturating_sub(1);
        } else {
            memory.push(&mut others, block);
        }
        end = place.saturating_add(1);
    }
    if !others.is_empty() {
        put_from(blocks, to, others.as_slice());
        put_places(order.places.as_mut_slice(), &*blocks, (head, end));
    }
}

impl FunctionShape {
    /// The place of the order behind the last one from which a way leads to a block; 0 where none does.
    pub fn end_of(&self, block: usize) -> usize {
        let mut end: usize = 0;
        if block < self.sources.len() {
            for way in self.sources[block].as_slice() {
                if let Some(place) = self.order.place(*way / 2) {
                    end = end.max(place.saturating_add(1));
                }
            }
        }
        end
    }

    /// The shape of a function, before it is known what is live in it.
    pub fn of(memory: &mut Heap, function: &Function) -> FunctionShape {
        let graph = Graph::of(memory, function);
        let loops = graph.loops(memory);
        let mut order = graph.order;
        for within in loops.as_slice() {
            gather(memory, &mut order, within);
        }
        FunctionShape {
            order,
            sources: list(memory, function, Listed::Ways),
            live: memory.repeat(LocationSet::none(), function.blocks.len()),
        }
    }
}
