//! Blocks in the verifier's domain.
use fit_code::{Block, End, Function, Step, opposite};
use sbx_domain::State;
use sbx_range::{Cell, Range};

/// What stands in the place of a param that isn't there.
const NONE: Range = Range {
    lo: 0,
    hi: 0,
    alignment: 3,
};

/// The state where a block begins of which this is known. No range depends on forms, which take longer to work out than
/// all else: locations have them for who counts turns alone.
pub fn start(cells: &[Cell], has_forms: bool, state: &mut State) {
    if has_forms {
        state.start(cells);
    } else {
        state.start(&[]);
        for cell in cells {
            state.set(cell.location, Some(cell.range));
        }
    }
}

/// The state before the first step of a function, behind its SAVE: %o0 and on hold the params.
pub fn enter(function: &Function, params: &[Range], has_forms: bool, state: &mut State) {
    let mut cells = [Cell {
        location: 8,
        range: NONE,
    }; 6];
    for place in 0..6 {
        cells[place].location = 8 + place as u16;
        if place < params.len() {
            cells[place].range = params[place];
        }
    }
    start(&cells[..params.len().min(6)], has_forms, state);
    if function.framed {
        state.save();
    }
}

/// A step in a frame of so many bytes; of a call up to where its callee begins.
pub fn run_to_call(frame: u32, step: &Step, state: &mut State) {
    state.transfer(frame, &step.instr());
    if let Some(slot) = &step.slot {
        state.transfer(frame, &slot.instr());
    }
}

/// Where a callee has returned, and the program's functions have these results.
pub fn return_from(results: &[Vec<Range>], callee: usize, state: &mut State) {
    if callee < results.len() {
        state.return_with(results[callee].as_slice());
    } else {
        state.return_with(&[]);
    }
}

/// A step in a frame of so many bytes, where the program's functions have these results.
pub fn run_step(frame: u32, results: &[Vec<Range>], step: &Step, state: &mut State) {
    run_to_call(frame, step, state);
    if let Some(callee) = step.callee {
        return_from(results, callee, state);
    }
}

/// From behind a block's steps along one of its ways, where 0 is that of a jump or of a branch that is taken. Says
/// whether that way can be gone.
pub fn go_along(frame: u32, block: &Block, way: usize, state: &mut State) -> bool {
    let open = match block.end {
        End::Branch { cond, .. } if way == 0 => state.refine(cond),
        End::Branch { cond, .. } => state.refine(opposite(cond)),
        _ => way == 0,
    };
    if let Some(slot) = &block.slot {
        state.transfer(frame, &slot.instr());
    }
    open
}
