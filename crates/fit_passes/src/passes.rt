//! All passes over a program, one after the other: from compiler-made code to an annotated source.
use fit_checks::{TestOptions, add_tests};
pub use fit_code::Reason;
use fit_code::{Block, Fault, Function, Heap, NO_LINE, Program, SourceLine};
use fit_fuel::{LoopBounds, Meter, bounds_of, declare, is_of_blocks, refused};
use fit_placing::{end_unreached, fill, insert_meter, lower_count, place};
use fit_plans::Test;
use fit_ranges::Ranges;
use fit_text::{Annotations, source_of};
use sbx_domain::State;
use std::alloc::{AllocError, Global};
use v8_formats::Reg;

/// A loop of main has no place of the meter where a counter bounds it by so many rounds: they are paid for where it
/// begins.
const FEW: u64 = 300;

/// The same of another function's loop, whose budget a call pays for at once.
const SOME: u64 = 65_536;

/// The loops of another function may take a thousandth of its caller's turns in a call, but at least so many.
const SHARE: u64 = 1_000;

const LEAST: u64 = 10_000;

/// Loops that a counter bounds, and what stands beside all loops, may take this part of a run's turns.
const BOUNDED: u64 = 4;

/// As often as blocks are placed: each time tests may have been added.
const PLACINGS: u32 = 8;

/// What is said of a function whose meter has no place.
const NO_REGISTER: &str = "no register is left to count its turns in";

/// How a program is fitted.
#[derive(Clone, Copy)]
pub struct FitPlan {
    /// The turns that a run may take in all.
    pub turns: u64,
    pub by_object: bool,
    /// Whether loops that a counter bounds go without the meter.
    pub has_bounds: bool,
    /// What points into a stack in the data, if main's calls have their frames there. It counts no loop: each call
    /// would be paid for as if it went as deep as it may.
    pub pointer: Option<Reg>,
}

/// A program as an annotated source.
#[derive(Drop)]
pub struct Made {
    pub program: Program,
    pub tests: Vec<Test>,
    pub text: String,
}

/// Lowers what the functions that a function calls may take to a share of its turns.
fn share_out(shares: &mut [u64], function: &Function, turns: u64) {
    let share = (turns / SHARE).max(LEAST);
    for block in function.blocks.as_slice() {
        lower_shares(shares, block, share);
    }
}

/// Lowers what the functions that a block calls may take.
fn lower_shares(shares: &mut [u64], block: &Block, share: u64) {
    for step in block.steps.as_slice() {
        if let Some(callee) = step.callee
            && callee < shares.len()
        {
            shares[callee] = share.min(shares[callee]);
        }
    }
}

/// Leaves out the bounds that a location gives.
fn forget_counter(bounds: &mut LoopBounds, location: u16) {
    for bound in bounds.bounds.as_mut_slice() {
        if let Some(found) = bound
            && found.location == location
        {
            *bound = None;
        }
    }
}

/// What loops go without the meter.
#[derive(Clone, Copy)]
struct Unmetered {
    /// Whether there are some.
    are_there: bool,
    /// The location of what points into a stack, which counts no loop; 0 where there is none.
    pointer: u16,
}

/// The most rounds of a loop of a function that goes without the meter.
fn most_rounds(unmetered: Unmetered, function: usize) -> u64 {
    if !unmetered.are_there {
        0
    } else if function == 0 {
        FEW
    } else {
        SOME
    }
}

/// Gives a function a meter, if it has loops that none of these bounds holds. Its turns are its share; what it calls
/// gets a share of them. Says whether it has what its meter needs.
fn insert_one(
    memory: &mut Heap,
    program: &mut Program,
    (number, unmetered): (usize, Unmetered),
    bounds: &mut LoopBounds,
    shares: &mut [u64],
    meters: &mut Vec<Option<Meter>>,
) -> bool {
    if number >= program.functions.len() || number >= shares.len() {
        return true;
    }
    forget_counter(bounds, unmetered.pointer);
    bounds.limit(most_rounds(unmetered, number));
    let function = &mut program.functions[number];
    let turns = shares[number];
    share_out(shares, function, turns);
    insert_meter(memory, meters, function, turns, &*bounds)
}

/// Gives each function with loops that have no bound a meter, by the ranges of the program without meters, up to one
/// that lacks what it needs. Its turns are those that the loops of the function may take in a call; functions call
/// those of larger numbers alone.
fn insert_meters(
    alloc: Global,
    program: &mut Program,
    plan: FitPlan,
    ranges: &Ranges,
    meters: &mut Vec<Option<Meter>>,
    state: &mut State,
) -> Result<(), Fault> {
    let mut memory = Heap::new(alloc);
    let count = program.functions.len();
    let unmetered = Unmetered {
        are_there: plan.has_bounds,
        pointer: match plan.pointer {
            Some(pointer) => u16::from(pointer.number()),
            None => 0,
        },
    };
    let mut given = memory.repeat(plan.turns, count);
    let shares = given.as_mut_slice();
    let mut lacking = count;
    for number in 0..count {
        if lacking == count {
            let mut bounds = bounds_of(alloc, program, ranges, number, state)?;
            let to = (number, unmetered);
            if !insert_one(&mut memory, program, to, &mut bounds, shares, meters) {
                lacking = number;
            }
        }
    }
    memory.told(())?;
    if lacking < program.functions.len() {
        let function = &program.functions[lacking];
        return Err(refused(function, function.line, NO_REGISTER));
    }
    Ok(())
}

/// Places the blocks of each function.
fn place_all(alloc: Global, program: &mut Program) -> Result<(), AllocError> {
    let mut memory = Heap::new(alloc);
    for function in program.functions.iter_mut() {
        place(&mut memory, function);
    }
    memory.told(())
}

/// Places blocks, and adds the tests that are asked for then, until none is; the ranges are found anew. Tests know
/// blocks by their numbers, so each placing begins with none. None goes again: ranges that are found from nothing may
/// be wider than those that came about step by step, and such a test would come and go without an end.
fn settle_places(
    alloc: Global,
    program: &mut Program,
    options: TestOptions,
    ranges: &mut Ranges,
    state: &mut State,
) -> Result<(), Fault> {
    for _ in 0..PLACINGS {
        place_all(alloc, program)?;
        *ranges = Ranges::of(alloc, program)?;
        if add_tests(alloc, options, program, ranges, state)?.is_empty() {
            return Ok(());
        }
    }
    Err(Fault::new(
        NO_LINE,
        Reason::TooMany {
            what: "rounds of placing blocks",
            most: u64::from(PLACINGS),
        },
    ))
}

/// The budget of the first function, which is that of a run.
fn budget_in(notes: &Annotations) -> u64 {
    match notes.functions.first() {
        Some(first) => first.budget,
        None => 0,
    }
}

/// Lowers what the first function's meter begins with by so many turns at least. Says whether it could.
fn lower_first(program: &mut Program, meters: &mut [Option<Meter>], turns: u64) -> bool {
    if let Some(Some(meter)) = meters.first_mut()
        && let Some(function) = program.functions.first_mut()
        && let Some(block) = function.blocks.first_mut()
    {
        return lower_count(block, meter, turns);
    }
    false
}

/// That a run would take so many turns, and may take fewer.
fn too_many_turns(program: &Program, count: u64, most: u64) -> Fault {
    let line = program
        .functions
        .first()
        .map_or(NO_LINE, |first| first.line);
    let what = "the turns of a run";
    Fault::new(line, Reason::TooGreat { what, count, most })
}

/// What a program declares that asks for as many turns as it may, and no more: what a run takes beside what its meter
/// begins with, a share of all at most, is taken from that. It is a fault where that isn't enough.
fn declare_within(
    alloc: Global,
    program: &mut Program,
    turns: u64,
    share: u64,
    ranges: &mut Ranges,
    meters: &mut [Option<Meter>],
    state: &mut State,
) -> Result<Annotations, Fault> {
    let mut notes = declare(alloc, program, &*ranges, &*meters, state)?;
    let count = budget_in(&notes);
    let excess = count.saturating_sub(turns);
    if excess > 0 {
        if excess > share || !lower_first(program, meters, excess) {
            return Err(too_many_turns(&*program, count, turns));
        }
        ranges.renew(program, &[(0, 0)])?;
        let mut memory = Heap::new(alloc);
        end_unreached(&mut memory, program, &*ranges);
        memory.told(()).and(ranges.store(program))?;
        notes = declare(alloc, program, &*ranges, &*meters, state)?;
        let count = budget_in(&notes);
        if count > turns {
            return Err(too_many_turns(&*program, count, turns));
        }
    }
    if let (Some(Some(_)), Some(first)) = (meters.first(), notes.functions.first_mut()) {
        first.budget = turns;
    }
    Ok(notes)
}

/// Puts tests and meters into a program, of which these are the ranges, and its blocks into their places, fills their
/// slots, and gives its annotated source. What a step leaves known in its place it leaves known in a slot,
/// so that the ranges stay.
fn write_source(
    alloc: Global,
    program: &mut Program,
    tests: &mut Vec<Test>,
    plan: FitPlan,
    ranges: &mut Ranges,
    meters: &mut Vec<Option<Meter>>,
    state: &mut State,
) -> Result<String, Fault> {
    let mut options = TestOptions {
        by_object: plan.by_object,
        drops: true,
    };
    let turns = plan.turns;
    let share = if plan.has_bounds {
        turns / BOUNDED
    } else {
        turns
    };
    *tests = add_tests(alloc, options, program, ranges, state)?;
    insert_meters(alloc, program, plan, ranges, meters, state)?;
    options.drops = false;
    settle_places(alloc, program, options, ranges, state)?;
    let mut memory = Heap::new(alloc);
    fill(&mut memory, program, ranges);
    memory.told(()).and(ranges.store(program))?;
    let meters = meters.as_mut_slice();
    let notes = declare_within(alloc, program, turns, share, ranges, meters, state)?;
    source_of(alloc, program, &notes)
}

/// The same, from the program alone on.
fn fit(
    alloc: Global,
    program: &mut Program,
    tests: &mut Vec<Test>,
    plan: FitPlan,
) -> Result<String, Fault> {
    let mut state = State::new(alloc)?;
    let mut ranges = Ranges::of(alloc, program)?;
    let mut meters = Vec::new(alloc);
    let (ranges, meters) = (&mut ranges, &mut meters);
    write_source(alloc, program, tests, plan, ranges, meters, &mut state)
}

/// Why there is no source of a program, and the lines of its blocks, each as often as a block has it, where there are
/// more blocks than there may be.
#[derive(Drop)]
pub struct Refusal {
    pub fault: Fault,
    pub lines: Vec<SourceLine>,
}

impl Refusal {
    /// A fault alone.
    pub fn of(alloc: Global, fault: Fault) -> Refusal {
        Refusal {
            fault,
            lines: Vec::new(alloc),
        }
    }
}

/// The lines of a program's blocks.
fn lines_of(memory: &mut Heap, program: &Program) -> Vec<SourceLine> {
    let mut lines = Vec::new(memory.alloc);
    for function in program.functions.as_slice() {
        push_lines(memory, function, &mut lines);
    }
    lines
}

/// Puts the lines of a function's blocks behind those of a list.
fn push_lines(memory: &mut Heap, function: &Function, lines: &mut Vec<SourceLine>) {
    for block in function.blocks.as_slice() {
        memory.push(lines, block.line);
    }
}

/// Makes an annotated source of a program.
pub fn make(alloc: Global, mut program: Program, plan: FitPlan) -> Result<Made, Refusal> {
    let mut tests = Vec::new(alloc);
    match fit(alloc, &mut program, &mut tests, plan) {
        Ok(text) => Ok(Made {
            program,
            tests,
            text,
        }),
        Err(fault) => {
            let mut refusal = Refusal::of(alloc, fault);
            if is_of_blocks(&refusal.fault) {
                let mut memory = Heap::new(alloc);
                // what memory is refused for isn't told
                refusal.lines = lines_of(&mut memory, &program);
            }
            Err(refusal)
        }
    }
}
