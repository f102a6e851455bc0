//! Liveness: the locations that are read later before they are written, whatever the words on the way are.
use crate::effects::{Effects, effects_of, of_registers};
use crate::locations::LocationSet;
use crate::means::Means;
use crate::shape::FunctionShape;
use fit_code::{Block, End, Function, Heap, NO_LINE, Program, RegisterSet, Step, operands_read};
use v8_formats::Three;
use v8_word::Reg;

/// How many of %o0 to %o5 a function takes for granted at its entry, and how many its callers do behind a call.
#[derive(Clone, Copy, PartialEq, Eq)]
pub struct RegisterCounts {
    pub params: u8,
    pub results: u8,
}

/// As many rounds as liveness may take over the program.
const ROUNDS: usize = 20_000;

/// The numbers of %o0 and %i0.
const OUT: u8 = 8;

const IN: u8 = 24;

/// The first ones of %o0 to %o5, or, from %i0 on, of the ins.
fn first_of_six(first: u8, count: u8) -> RegisterSet {
    RegisterSet::range(first, count.min(6))
}

/// The registers that a return of a function with a window and so many results reads: those of its own that the results
/// are taken from, and what RESTORE works on.
fn read_by_restore(fields: &Three, results: u8) -> RegisterSet {
    let rd = fields.rd.number();
    let taken = first_of_six(IN, results);
    if fields.rd == Reg::G0 {
        return taken;
    }
    let given = if (8 <= rd) & (rd < 14) {
        RegisterSet::range(rd + 16, 1)
    } else {
        RegisterSet::NONE
    };
    taken
        .difference(given)
        .union(operands_read(fields.rs1, fields.operand2))
}

/// The registers that the end of a block reads in a function of so many results.
pub fn read_at_end(function: &Function, results: u8, end: &End) -> RegisterSet {
    match end {
        End::Return(fields) if function.framed => read_by_restore(fields, results),
        End::Return(_) => first_of_six(OUT, results),
        End::Exit => first_of_six(OUT, 1),
        End::Jump(_) | End::Branch { .. } => RegisterSet::NONE,
    }
}

/// What is live behind the steps of a block.
fn live_behind(
    function: &Function,
    results: u8,
    block: &Block,
    live: &[LocationSet],
) -> LocationSet {
    let mut behind = LocationSet::none();
    let ways = block.end.ways();
    for way in 0..2 {
        if let Some(to) = ways[way]
            && to < live.len()
        {
            behind.add(&live[to]);
        }
    }
    if let Some(slot) = &block.slot {
        behind.pass(&effects_of(function.frame, &slot.instr()));
    }
    let reads = read_at_end(function, results, &block.end);
    behind.pass(&of_registers(reads, RegisterSet::NONE));
    behind
}

/// Before a step. The callee of a call is asked for as many results as are live behind it; says whether these are more
/// than before.
fn pass_step(
    counts: &mut [RegisterCounts],
    live: &mut LocationSet,
    frame: u32,
    step: &Step,
) -> bool {
    let mut is_new = false;
    if let Some(callee) = step.callee {
        if callee < counts.len() {
            let RegisterCounts { params, results } = counts[callee];
            let asked = live.registers().count_of_six(OUT);
            is_new = asked > results;
            counts[callee].results = results.max(asked);
            let given = first_of_six(OUT, params);
            live.pass(&of_registers(given, RegisterSet::LOST_BY_CALL));
        }
    } else {
        live.pass(&effects_of(frame, &step.instr()));
    }
    if let Some(slot) = &step.slot {
        live.pass(&effects_of(frame, &slot.instr()));
    }
    is_new
}

/// The same before all steps of a block.
fn pass_steps(
    counts: &mut [RegisterCounts],
    live: &mut LocationSet,
    frame: u32,
    block: &Block,
) -> bool {
    let mut is_new = false;
    for step in block.steps.as_slice().iter().rev() {
        is_new |= pass_step(counts, live, frame, step);
    }
    is_new
}

/// What the steps of a block read of what stands there before them, and what they write. Those of a block with calls
/// change with what is known of callees.
#[derive(Clone, Copy)]
struct BlockEffects {
    has_calls: bool,
    returns: bool,
    reads: LocationSet,
    writes: LocationSet,
}

/// Puts what an instruction writes into a set.
fn add_writes(writes: &mut LocationSet, effects: &Effects) {
    writes.pass(&of_registers(effects.writes, RegisterSet::NONE));
    if let Some(word) = effects.word_written {
        writes.insert(word);
    }
}

impl BlockEffects {
    /// Those of a block in a frame of so many bytes.
    fn of(frame: u32, block: &Block) -> BlockEffects {
        let mut found = BlockEffects {
            has_calls: false,
            returns: matches!(block.end, End::Return(_)),
            reads: LocationSet::none(),
            writes: LocationSet::none(),
        };
        for step in block.steps.as_slice().iter().rev() {
            found.pass(frame, step);
        }
        found
    }

    /// Takes in a step that stands before those that were.
    fn pass(&mut self, frame: u32, step: &Step) {
        self.has_calls |= step.callee.is_some() | step.slot.is_some();
        let effects = effects_of(frame, &step.instr());
        self.reads.pass(&effects);
        add_writes(&mut self.writes, &effects);
    }
}

/// The effects of a function's blocks.
#[derive(Drop)]
struct FunctionEffects {
    blocks: Vec<BlockEffects>,
    /// Whether each is to be gone over: more may be live behind it than when it was last. A block with calls, or one
    /// that returns, always is, since more may be known of functions.
    open: Vec<bool>,
}

impl FunctionEffects {
    /// Those of a function, each of whose blocks is to be gone over.
    fn of(memory: &mut Heap, function: &Function) -> FunctionEffects {
        let mut blocks = Vec::new(memory.alloc);
        for block in function.blocks.as_slice() {
            memory.push(&mut blocks, BlockEffects::of(function.frame, block));
        }
        FunctionEffects {
            blocks,
            open: memory.repeat(true, function.blocks.len()),
        }
    }
}

/// The blocks that some ways come from are to be gone over.
fn open_sources(open: &mut [bool], ways: &[usize]) {
    for way in ways {
        let from = *way / 2;
        if from < open.len() {
            open[from] = true;
        }
    }
}

/// Goes over a block of a function, whose steps have these effects; says whether more is live or asked for than before.
fn pass_block(
    counts: &mut [RegisterCounts],
    (function, results): (&Function, u8),
    (block, effects): (&Block, &BlockEffects),
    (live, place): (&mut [LocationSet], usize),
) -> bool {
    let mut is_new = false;
    let mut found = live_behind(function, results, block, &*live);
    if effects.has_calls {
        is_new = pass_steps(counts, &mut found, function.frame, block);
    } else {
        found.take(&effects.writes);
        let _grew = found.add(&effects.reads);
    }
    if place < live.len() {
        is_new |= live[place].add(&found);
    }
    is_new
}

/// Goes over the blocks of the function of a number that are open, once: those that follow first, but where a loop goes
/// back. Counts what it takes for granted at its entry, but for the first function of a program, which is called by
/// nobody. Says whether more is live or asked for than before.
fn pass_function(
    counts: &mut [RegisterCounts],
    (number, function): (usize, &Function),
    found: &mut FunctionEffects,
    shape: &mut FunctionShape,
) -> bool {
    if number >= counts.len() {
        return false;
    }
    let RegisterCounts { params, results } = counts[number];
    let (blocks, live) = (function.blocks.as_slice(), shape.live.as_mut_slice());
    let (effects, open) = (found.blocks.as_slice(), found.open.as_mut_slice());
    let mut is_new = false;
    for place in shape.order.blocks.as_slice().iter().rev() {
        let is_known = (*place < blocks.len()) & (*place < effects.len());
        if is_known & (*place < open.len()) && open[*place] {
            let known = &effects[*place];
            open[*place] = known.has_calls | known.returns;
            let block = (&blocks[*place], known);
            if pass_block(counts, (function, results), block, (&mut *live, *place)) {
                is_new = true;
                if *place < shape.sources.len() {
                    open_sources(&mut *open, shape.sources[*place].as_slice());
                }
            }
        }
    }
    let from = if function.framed { IN } else { OUT };
    if (number > 0) & !live.is_empty() {
        counts[number].params = live[0].registers().count_of_six(from).max(params);
    }
    is_new
}

/// Goes over all functions once, of these shapes and effects, those that are called first. Says whether more is live or
/// asked for than before.
fn pass_all(
    counts: &mut [RegisterCounts],
    functions: &[Function],
    effects: &mut [FunctionEffects],
    shapes: &mut [FunctionShape],
) -> bool {
    let mut is_new = false;
    for number in (0..functions.len()).rev() {
        if (number < shapes.len()) & (number < effects.len()) {
            let (named, shape) = ((number, &functions[number]), &mut shapes[number]);
            is_new |= pass_function(counts, named, &mut effects[number], shape);
        }
    }
    is_new
}

/// Goes over all functions until no more is live or asked for; says whether there is, after so many rounds.
fn pass_rounds(
    counts: &mut [RegisterCounts],
    functions: &[Function],
    effects: &mut [FunctionEffects],
    shapes: &mut [FunctionShape],
) -> bool {
    let mut is_new = true;
    for _ in 0..ROUNDS {
        if is_new {
            is_new = pass_all(counts, functions, effects, shapes);
        }
    }
    is_new
}

/// Finds what is live where the blocks of a program begin, whose functions have these shapes: goes over it until no
/// more is live or asked for, through all functions once and again, those that are called first. Gives how many params
/// and results the functions have.
pub fn find_live(
    means: &mut Means,
    program: &Program,
    shapes: &mut [FunctionShape],
) -> Vec<RegisterCounts> {
    let functions = program.functions.as_slice();
    let none = RegisterCounts {
        params: 0,
        results: 0,
    };
    let mut found = means.memory.repeat(none, functions.len());
    let counts = found.as_mut_slice();
    let mut effects = Vec::new(means.memory.alloc);
    for function in functions {
        let listed = FunctionEffects::of(&mut means.memory, function);
        means.memory.push(&mut effects, listed);
    }
    let is_new = pass_rounds(counts, functions, effects.as_mut_slice(), shapes);
    if is_new {
        let what = "rounds over which locations are live";
        means.spend(NO_LINE, what, ROUNDS as u64);
    }
    found
}
