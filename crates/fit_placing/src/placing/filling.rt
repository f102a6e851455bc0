//! Filling delay slots, and what becomes of blocks that control doesn't come to.
use fit_code::{Block, End, Function, Heap, Program, RegisterSet, Step};
use fit_cuts::{number_in, push_instrs, use_of};
use fit_plans::TestKind;
use fit_ranges::Ranges;
use v8_meaning::{Operation, Transfer, operation_of};

/// The register of the exit word, %o0.
const EXIT_WORD: u8 = 8;

/// Whether a step may go to a slot: it has to do with registers and memory alone, with no codes, no Y and no service.
fn is_movable(step: &Step) -> bool {
    let (reads, writes) = use_of(0, step);
    let is_plain = matches!(
        operation_of(&step.instr()),
        Operation::Compute(..)
            | Operation::SetHigh(_)
            | Operation::Transfer(Transfer::Load(_) | Transfer::Store(_), _)
    );
    is_plain & reads.union(writes).is_disjoint(RegisterSet::CODES_AND_Y)
}

/// Whether a step may go to a slot past the one after it, which sets codes: neither has to do with what the other
/// writes. Words of the frame are memory, with which that one has nothing to do.
fn may_pass(step: &Step, later: &Step) -> bool {
    let (reads, writes) = use_of(0, step);
    let (later_reads, later_writes) = use_of(0, later);
    let is_apart = later_reads.is_disjoint(writes) & later_writes.is_disjoint(reads.union(writes));
    let sets_codes = !later_writes.is_disjoint(RegisterSet::CODES);
    is_apart & later.callee.is_none() & sets_codes && is_movable(step)
}

/// Fills the slot of a block's end, where it has one, by the last step or, at a branch, by the one before the
/// comparison that is the last; a jump to the block `after` falls through, and has none.
fn fill_end(block: &mut Block, after: usize) {
    let is_branch = match block.end {
        End::Branch { .. } => true,
        End::Jump(to) if to != after => false,
        _ => return,
    };
    let steps = block.steps.as_slice();
    if block.slot.is_some() | steps.is_empty() {
        return;
    }
    let mut place = steps.len() - 1;
    if !is_movable(&steps[place]) {
        if !is_branch || place == 0 || !may_pass(&steps[place - 1], &steps[place]) {
            return;
        }
        place -= 1;
    }
    let step = block.steps.remove(place);
    block.slot = Some(step.instruction);
}

/// Fills the slots of a block's calls, each of which takes the step before it, if that may go there.
fn fill_calls(steps: &mut Vec<Step>) {
    for place in (1..steps.len()).rev() {
        let before = place.saturating_sub(1);
        // fewer steps are left than there were
        if place < steps.len()
            && steps[place].callee.is_some()
            && steps[place].slot.is_none()
            && is_movable(&steps[before])
        {
            steps[place].slot = Some(steps[before].instruction);
            steps.remove(before);
        }
    }
}

/// Makes a block to which control doesn't come an end of the run, with the exit word of its line as where a test of an
/// index fails: nothing is known where it begins, and the verifier refuses a block that reads what no cell names.
fn end_block(memory: &mut Heap, block: &mut Block) {
    let instrs = number_in(EXIT_WORD, TestKind::Index.exit_word(block.line));
    block.steps.clear();
    block.end = End::Exit;
    block.slot = None;
    push_instrs(memory, &mut block.steps, &instrs, block.line);
}

/// Fills slots: what stands before a branch, a jump or a call, and may as well stand behind it, goes to its slot.
/// Blocks stand in their places then, and go on to the next one without a jump. Those to which control doesn't come,
/// as behind a test that always fails, are ends of the run.
pub fn fill(memory: &mut Heap, program: &mut Program, ranges: &Ranges) {
    for (number, function) in program.functions.iter_mut().enumerate() {
        fill_function(memory, (number, function), ranges);
    }
}

/// The same of a function, by its number.
fn fill_function(memory: &mut Heap, (number, function): (usize, &mut Function), ranges: &Ranges) {
    for (place, block) in function.blocks.iter_mut().enumerate() {
        if ranges.reaches(number, place) {
            fill_end(block, place.saturating_add(1));
            fill_calls(&mut block.steps);
        } else {
            end_block(memory, block);
        }
    }
}

/// Makes the blocks of the first function to which control doesn't come ends of the run.
pub fn end_unreached(memory: &mut Heap, program: &mut Program, ranges: &Ranges) {
    if let Some(function) = program.functions.first_mut() {
        for (place, block) in function.blocks.iter_mut().enumerate() {
            if !ranges.reaches(0, place) {
                end_block(memory, block);
            }
        }
    }
}
