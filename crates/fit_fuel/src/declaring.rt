//! Fuel: what each block of a fitted program declares, so that a run is shown to end.
mod dearest;
mod limits;
mod metering;
mod terms;

use crate::bounds::{LoopBounds, bounds_of};
use crate::declaring::dearest::dearest_loop;
use crate::declaring::limits::check_limits;
pub use crate::declaring::limits::is_of_blocks;
use crate::declaring::metering::set_weights;
use crate::declaring::terms::find_fuel;
use crate::meter::{Meter, places_of};
use crate::task::{FuelTask, Task};
use crate::totals::{CallTotal, total_of};
use crate::ways::{FunctionFuel, constant_at};
use fit_code::{Fault, Function, Heap, NO_LINE, Program, Reason, SourceLine};
use fit_ranges::Ranges;
use fit_text::{Annotations, FunctionNotes};
use sbx_domain::State;
use std::alloc::{AllocError, Global};
use std::mem::replace;

/// A budget is below this, and the fuel of a block in magnitude.
const BOUND: u64 = 1 << 40;

/// So often weights are set anew: each time some places take more.
const ROUNDS: u32 = 64;

/// What is said of a place of the meter that would have to take too much.
const TOO_MUCH: &str =
    "a round of a loop may take more turns than there are: ask for more, or bound what it calls";

/// A fault of a function.
pub fn refused(function: &Function, line: SourceLine, what: &'static str) -> Fault {
    match function.name.clone() {
        Ok(function) => Fault::new(line, Reason::Form { function, what }),
        Err(error) => Fault::from(error),
    }
}

/// Finds the fuel of a function with these bounds, where its meter, if it has one, takes as much as has to be paid for;
/// says where there is none why, and of which line.
fn settle(
    program: &mut Program,
    task: &Task<'_>,
    bounds: &LoopBounds,
    fuel: &mut FunctionFuel,
    state: &mut State,
) -> Option<(SourceLine, &'static str)> {
    let mut line = NO_LINE;
    for _ in 0..ROUNDS {
        if task.number < program.functions.len() {
            let setting = FuelTask {
                program,
                function: &program.functions[task.number],
                task: &*task,
            };
            line = setting.function.line;
            if !find_fuel(&setting, bounds, fuel, state) {
                break;
            }
            let Some(meter) = task.meter else {
                return None;
            };
            match set_weights(&mut program.functions[task.number], meter, fuel) {
                Ok(true) => {}
                Ok(false) => return None,
                Err(line) => return Some((line, TOO_MUCH)),
            }
        }
    }
    Some((line, "no fuel was found for its loops"))
}

/// Finds the fuel of a function with these bounds, which each of its blocks says then, and what a call takes. A budget,
/// or a block's fuel, that is too great is told at the loop that takes the most of it, or at the function if it has
/// none.
fn find_total(
    program: &mut Program,
    task: &Task<'_>,
    bounds: &LoopBounds,
    fuel: &mut FunctionFuel,
    state: &mut State,
) -> Result<FunctionNotes, Fault> {
    let lack = settle(program, task, bounds, fuel, state);
    fuel.memory.told(())?;
    if task.number >= program.functions.len() {
        return Err(Fault::new(NO_LINE, Reason::Unreadable("no function")));
    }
    let function = &program.functions[task.number];
    if let Some((line, what)) = lack {
        return Err(refused(function, line, what));
    }
    let constants = fuel.constants.as_slice();
    let blocks = fuel.blocks.as_mut_slice();
    let (mut most, mut lacks) = (0, false);
    for block in 0..blocks.len() {
        let found = constant_at(constants, block);
        lacks |= found.is_none() && task.ranges.reaches(task.number, block);
        let constant = found.unwrap_or(0);
        blocks[block].fuel = constant;
        most = most.max(constant.unsigned_abs());
    }
    if lacks {
        return Err(refused(function, function.line, TOO_MUCH));
    }
    let turns = constant_at(constants, 0).unwrap_or(0).max(0).unsigned_abs();
    if most >= BOUND {
        let turns = most;
        let dearest = dearest_loop(function, bounds.loops.as_slice(), fuel, task.meter);
        let is_loop = dearest.is_some();
        let line = dearest.unwrap_or(function.line);
        return Err(Fault::new(line, Reason::Budget { turns, is_loop }));
    }
    let total = total_of(function, Some(turns), task.known);
    Ok(FunctionNotes {
        budget: turns,
        room: total.room,
        depth: total.depth,
        blocks: replace(&mut fuel.blocks, Vec::new(task.alloc)),
    })
}

/// What one function declares. The places of a meter take what the dearest way to the next one weighs. A loop that
/// neither a counter nor the meter bounds is refused, and a budget of 2^40 turns or more.
pub fn declare_function(
    program: &mut Program,
    task: &Task<'_>,
    state: &mut State,
) -> Result<FunctionNotes, Fault> {
    // which bounds there are doesn't depend on what the meter takes
    let bounds = bounds_of(task.alloc, program, task.ranges, task.number, state)?;
    let mut memory = Heap::new(task.alloc);
    let places = match task.meter {
        Some(meter) if task.number < program.functions.len() => {
            places_of(&mut memory, meter, &program.functions[task.number])
        }
        _ => Vec::new(task.alloc),
    };
    let mut fuel = FunctionFuel {
        places,
        blocks: Vec::new(task.alloc),
        ways: Vec::new(task.alloc),
        constants: Vec::new(task.alloc),
        memory,
    };
    find_total(program, task, &bounds, &mut fuel, state)
}

/// Adds what each function of a program declares, from the last one on, since each calls those behind it alone, and
/// puts it into their order then.
fn declare_each(
    alloc: Global,
    program: &mut Program,
    (ranges, meters): (&Ranges, &[Option<Meter>]),
    known: &mut [Option<CallTotal>],
    functions: &mut Vec<FunctionNotes>,
    state: &mut State,
) -> Result<(), Fault> {
    for number in (0..known.len()).rev() {
        let task = Task {
            alloc,
            ranges,
            number,
            meter: match meters.get(number) {
                Some(Some(meter)) => Some(meter),
                _ => None,
            },
            known: &*known,
            spared: &[],
        };
        let notes = declare_function(program, &task, state)?;
        known[number] = Some(CallTotal {
            budget: Some(notes.budget),
            room: notes.room,
            depth: notes.depth,
        });
        if functions.push(notes).is_err() {
            return Err(Fault::from(AllocError));
        }
    }
    functions.reverse();
    check_limits(program, functions.as_slice())
}

/// What a program declares whose blocks stand in their places: cells, fuel, budgets, stack room, depths. The places of
/// the meters take what the dearest way to the next one weighs. A budget of 2^40 turns or more is refused, and what
/// passes a limit of images.
pub fn declare(
    alloc: Global,
    program: &mut Program,
    ranges: &Ranges,
    meters: &[Option<Meter>],
    state: &mut State,
) -> Result<Annotations, Fault> {
    let mut known: Vec<Option<CallTotal>> = vec![in alloc; None; program.functions.len()]?;
    let mut functions = Vec::new(alloc);
    let basis = (ranges, meters);
    let known = known.as_mut_slice();
    match declare_each(alloc, program, basis, known, &mut functions, state) {
        Ok(()) => Ok(Annotations { functions }),
        Err(fault) => Err(fault),
    }
}
