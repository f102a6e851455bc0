//! Refusals that hold whatever is known of a step: that it reads codes, or Y, which nothing before it in its block has
//! set.
use fit_code::{Block, End, Fault, Function, Program, Reason, RegisterSet, SourceLine};
use fit_cuts::use_of;
use fit_ranges::Ranges;

const NO_CODES: &str = "condition codes are read that nothing before in the block sets";

const NO_Y: &str = "Y is read, and nothing before in the block writes it";

/// What is told of the first step of a block, or its end, that reads what isn't set, and its line.
fn lack_of_block(frame: u32, block: &Block) -> Option<(SourceLine, &'static str)> {
    let mut lacking = RegisterSet::CODES_AND_Y;
    for step in block.steps.as_slice() {
        let (reads, writes) = use_of(frame, step);
        let asked = reads.intersection(lacking);
        if !asked.is_empty() {
            let is_y = !asked.is_disjoint(RegisterSet::Y);
            return Some((step.line, if is_y { NO_Y } else { NO_CODES }));
        }
        // a call is said to write what it leaves undefined
        if step.callee.is_some() {
            lacking = RegisterSet::CODES_AND_Y;
        } else {
            lacking.take(writes);
        }
    }
    match block.end {
        End::Branch { .. } if !lacking.is_disjoint(RegisterSet::CODES) => {
            Some((block.line, NO_CODES))
        }
        _ => None,
    }
}

/// The same of the first such block of a function, by its number, to which control comes.
fn lack_of_function(
    number: usize,
    function: &Function,
    ranges: &Ranges,
) -> Option<(SourceLine, &'static str)> {
    for (place, block) in function.blocks.as_slice().iter().enumerate() {
        if ranges.reaches(number, place) {
            let lack = lack_of_block(function.frame, block);
            if lack.is_some() {
                return lack;
            }
        }
    }
    None
}

/// A fault of the first block to which control comes that reads codes or Y which nothing in it has set before.
pub fn check_forms(program: &Program, ranges: &Ranges) -> Result<(), Fault> {
    for (number, function) in program.functions.as_slice().iter().enumerate() {
        if let Some((line, what)) = lack_of_function(number, function, ranges) {
            let function = function.name.clone()?;
            return Err(Fault::new(line, Reason::Form { function, what }));
        }
    }
    Ok(())
}
