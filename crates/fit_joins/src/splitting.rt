//! A call of a function that is joined ends its block, and so does what moves the soft stack's pointer.
use crate::moving::moves;
use fit_blocks::{Part, Stops};
use fit_code::{Block, End, Function, RegisterSet, Step};
use fit_cuts::use_of;
use std::mem;
use v8_formats::Reg;

/// The function that a step calls, if it is joined.
pub fn joined_callee(parts: &[Part], step: &Step) -> Option<usize> {
    match step.callee {
        Some(callee) if callee < parts.len() && parts[callee].is_joined => Some(callee),
        _ => None,
    }
}

/// The place behind the first step of a block that is to be its last one, and what is lost by that of codes and Y: a
/// call of a function that is joined, and what moves the soft stack's pointer.
fn place_behind(parts: &[Part], steps: &[Step], pointer: Reg) -> Option<(usize, RegisterSet)> {
    for (place, step) in steps.iter().enumerate() {
        if joined_callee(parts, step).is_some() {
            return Some((place.saturating_add(1), RegisterSet::CODES_AND_Y));
        } else if moves(step, pointer) {
            return Some((place.saturating_add(1), RegisterSet::CODES));
        }
    }
    None
}

/// Whether steps, or the end behind them, ask for codes, or Y, that were lost before.
fn asks_back(steps: &[Step], end: &End, lost: RegisterSet) -> bool {
    let mut open = lost;
    let mut is_asked = false;
    for step in steps {
        let (reads, writes) = use_of(0, step);
        is_asked |= !reads.is_disjoint(open);
        open.take(writes);
    }
    is_asked | (matches!(end, End::Branch { .. }) & !open.is_disjoint(RegisterSet::CODES))
}

/// Lets each call of a function that is joined, and each move of the soft stack's pointer, be the last step of its
/// block, which goes on to a block of its own. It is a fault where codes or Y that are lost there are asked for behind.
pub fn split_at_calls(stops: &mut Stops, function: &mut Function, parts: &[Part], pointer: Reg) {
    // each block that is made is looked at again, and has fewer steps
    for number in 0..usize::MAX {
        let next = function.blocks.len();
        if number >= next {
            break;
        }
        let block = &mut function.blocks[number];
        if let Some((place, lost)) = place_behind(parts, block.steps.as_slice(), pointer) {
            let steps = block.steps.as_slice();
            let rest = &steps[place.min(steps.len())..];
            if asks_back(rest, &block.end, lost) {
                stops.form(
                    block.line,
                    "condition codes, or Y, over a call or a change of the stack",
                );
            }
            let behind = Block {
                steps: stops.memory.copy(rest),
                end: mem::replace(&mut block.end, End::Jump(next)),
                slot: None,
                line: block.line,
            };
            block.steps.truncate(place);
            stops.memory.push(&mut function.blocks, behind);
        }
    }
}
