//! Blocks that control doesn't come to are left out, and no block goes to the first one.
use crate::slots::number_marked;
use crate::stops::Stops;
use fit_code::{Block, End, Function};
use fit_graph::order_of;

/// The other number of a block; its own where it has none.
fn number_of(numbers: &[Option<usize>], block: usize) -> usize {
    numbers.get(block).copied().flatten().unwrap_or(block)
}

/// Where an end goes by other numbers of blocks.
pub(crate) fn moved(end: End, numbers: &[Option<usize>]) -> End {
    match end {
        End::Jump(block) => End::Jump(number_of(numbers, block)),
        End::Branch { cond, taken, next } => End::Branch {
            cond,
            taken: number_of(numbers, taken),
            next: number_of(numbers, next),
        },
        other => other,
    }
}

/// Leaves out the blocks that can't be reached, and the first one, which is empty, where no other block goes to the one
/// that it goes to.
pub fn prune(stops: &mut Stops, function: &mut Function, goes_to_second: bool) {
    let Ok(order) = order_of(stops.memory.alloc, function) else {
        stops.memory.is_refused = true;
        return;
    };
    let mut places = order.places;
    let numbers = places.as_mut_slice();
    if !goes_to_second && !numbers.is_empty() {
        numbers[0] = None;
    }
    let count = number_marked(numbers, 0);
    let blocks = function.blocks.as_mut_slice();
    // No number is above that of its block.
    for (place, number) in numbers.iter().enumerate() {
        if let Some(number) = *number
            && (number < blocks.len()) & (place < blocks.len())
        {
            blocks[place].end = moved(blocks[place].end, numbers);
            blocks.swap(number, place);
        }
    }
    function.blocks.truncate(count);
}
