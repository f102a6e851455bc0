//! Sums along the deepest calls of a function: turns, stack room and depth.
use fit_code::{Block, Function, Step};

/// What a call takes.
#[derive(Clone, Copy)]
pub struct CallTotal {
    /// The turns; none where no budget was found.
    pub budget: Option<u64>,
    pub room: u64,
    pub depth: u64,
}

impl CallTotal {
    /// Takes in what the calls of a block take, beside its function's own frame.
    fn add_calls(&mut self, block: &Block, known: &[Option<CallTotal>]) {
        for step in block.steps.as_slice() {
            if let Some(total) = called_by(step, known) {
                self.room = self.room.max(total.room);
                self.depth = self.depth.max(total.depth.saturating_add(1));
            }
        }
    }
}

/// What a call takes that a step makes, where that is known.
pub(crate) fn called_by(step: &Step, known: &[Option<CallTotal>]) -> Option<CallTotal> {
    match step.callee {
        Some(callee) if callee < known.len() => known[callee],
        _ => None,
    }
}

/// What a function of this budget takes, by what is known of those that it calls. A callee counts as one frame at
/// least.
pub fn total_of(
    function: &Function,
    budget: Option<u64>,
    known: &[Option<CallTotal>],
) -> CallTotal {
    let mut found = CallTotal {
        budget,
        room: 0,
        depth: u64::from(function.framed),
    };
    for block in function.blocks.as_slice() {
        found.add_calls(block, known);
    }
    found.room = found.room.saturating_add(u64::from(function.frame));
    found
}
