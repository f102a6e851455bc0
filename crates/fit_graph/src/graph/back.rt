//! Ways that go back, and their heads.
use crate::graph::above::{places_above, stands_above};
use crate::graph::loops::{Loop, last_around};
use crate::graph::reach::hold_reached;
use crate::graph::{Listed, Order, list, order_in, successors_in};
use fit_code::{Function, Heap};

/// The blocks of a function, and where control comes from to each of them.
#[derive(Drop)]
pub struct Graph {
    pub order: Order,
    /// For each block those that control comes from, each as often as it does.
    pub predecessors: Vec<Vec<usize>>,
}

impl Graph {
    /// The graph of a function.
    pub fn of(memory: &mut Heap, function: &Function) -> Graph {
        Graph {
            order: order_in(memory, function),
            predecessors: list(memory, function, Listed::Sources),
        }
    }

    /// For each block whether it is a head or one of some, or can come to one of these without the head.
    fn come_from(&self, memory: &mut Heap, blocks: &[usize], head: usize) -> Vec<bool> {
        let mut holds = memory.repeat(false, self.predecessors.len());
        let held = holds.as_mut_slice();
        if head < held.len() {
            held[head] = true;
        }
        hold_reached(memory, self.predecessors.as_slice(), blocks, held);
        holds
    }

    /// Of a way that goes back, from a block to itself or to one before it, whether the other block is on each way from
    /// the first one to it, where it is known which places stand above others. Nothing of a way that goes on.
    fn goes_to_head(&self, above: &[usize], from: usize, to: usize) -> Option<bool> {
        match (self.order.place(to), self.order.place(from)) {
            (Some(first), Some(second)) if first <= second => {
                Some(stands_above(above, first, second))
            }
            _ => None,
        }
    }

    /// The blocks that go back to a block that is on each way to them, where it is known which places stand above
    /// others.
    fn latches_of(&self, memory: &mut Heap, above: &[usize], head: usize) -> Vec<usize> {
        let mut latches = Vec::new(memory.alloc);
        let predecessors = self.predecessors.as_slice();
        if head < predecessors.len() {
            for from in predecessors[head].as_slice() {
                if let Some(true) = self.goes_to_head(above, *from, head) {
                    memory.push(&mut latches, *from);
                }
            }
        }
        latches
    }

    /// The loops whose heads are on each way to their blocks, one for each head, by their heads' order: an outer one
    /// before an inner one.
    pub fn loops(&self, memory: &mut Heap) -> Vec<Loop> {
        let mut loops = Vec::new(memory.alloc);
        let above = places_above(memory, &self.order, self.predecessors.as_slice());
        for head in self.order.blocks.as_slice() {
            let head = *head;
            let latches = self.latches_of(memory, above.as_slice(), head);
            if !latches.is_empty() {
                let found = Loop {
                    head,
                    parent: last_around(loops.as_slice(), head),
                    holds: self.come_from(memory, latches.as_slice(), head),
                    latches,
                };
                memory.push(&mut loops, found);
            }
        }
        loops
    }

    /// A block that control goes back to, though it isn't on each way to where control comes from: a loop that has
    /// another entry beside it. None where each loop of the function has one entry, which is its head.
    pub fn entered_beside(&self, memory: &mut Heap, function: &Function) -> Option<usize> {
        let blocks = self.order.blocks.as_slice();
        let above = places_above(memory, &self.order, self.predecessors.as_slice());
        for way in 0..blocks.len().saturating_mul(2) {
            if way / 2 < blocks.len()
                && let Some(to) = successors_in(function, blocks[way / 2])[way % 2]
                && let Some(false) = self.goes_to_head(above.as_slice(), blocks[way / 2], to)
            {
                return Some(to);
            }
        }
        None
    }
}
