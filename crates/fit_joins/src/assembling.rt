//! The program once functions are joined: their blocks, what they keep, and the soft stack.
use crate::joining::Joiner;
use crate::keeping::{CALLER_RETURN, Keep, RETURN};
use crate::returning::StackPlace;
use crate::splitting::{joined_callee, split_at_calls};
use fit_blocks::{Layout, Part, SoftStack, Stops};
use fit_code::{Block, Function, Heap, NO_LINE, Program, SourceLine};
use fit_cuts::register;
use fit_gas::owned;
use fit_live::{FunctionShape, Means, RegisterCounts, find_live};

/// A save area, with which a frame begins.
const SAVE_AREA: u32 = 64;

/// The bytes of what a function keeps in the data over its calls.
const RECORD: usize = 64;

/// The bytes behind the soft stack in which a caller's arguments in memory may stand.
const ROOM: u32 = 1024;

/// Where a function stands among the blocks that are joined.
#[derive(Clone, Copy)]
pub struct Placed {
    pub framed: bool,
    pub line: SourceLine,
    /// The number of its first block, of the block that calls go to, and of the one that returns go to.
    pub first: usize,
    pub entry: usize,
    pub back: usize,
    /// The number of the block where the run ends because the soft stack is full, if it has one.
    pub full: usize,
    /// Where the number of its return stands in what is kept.
    pub number_at: u32,
    /// How often it is called.
    pub calls: usize,
    pub keep: Keep,
}

/// How many blocks the functions have that are joined, and how often each function is called from them.
fn counted(memory: &mut Heap, functions: &[Function], parts: &[Part]) -> (usize, Vec<usize>) {
    let mut calls = memory.repeat(0, functions.len());
    let mut blocks: usize = 0;
    for (number, function) in functions.iter().enumerate() {
        if number < parts.len() && parts[number].is_joined {
            blocks = blocks.saturating_add(function.blocks.len());
            count_calls(calls.as_mut_slice(), function, parts);
        }
    }
    (blocks, calls)
}

/// Counts a function's calls of such as are joined: each ends its block.
fn count_calls(calls: &mut [usize], function: &Function, parts: &[Part]) {
    for block in function.blocks.as_slice() {
        if let Some(step) = block.steps.last()
            && let Some(callee) = joined_callee(parts, step)
            && callee < calls.len()
        {
            calls[callee] = calls[callee].saturating_add(1);
        }
    }
}

/// The line of a function's first step: that of C, where it is known.
fn line_of(function: &Function) -> SourceLine {
    for block in function.blocks.as_slice() {
        if let Some(step) = block.steps.first() {
            return step.line;
        }
    }
    function.line
}

/// Where a function keeps words over its calls: from a soft frame on, to which a register points, or in a record.
fn keep_of(is_soft: bool, pointer: u8, (object, address): (usize, u32)) -> Keep {
    if is_soft & (pointer != 0) {
        Keep::Soft(register(pointer))
    } else {
        Keep::Record { object, address }
    }
}

/// Where the functions that are joined stand among the blocks of all of them. What one keeps over its calls stands in
/// an object, from an address on, or in its soft frame, to which a register of this number points, if there is one.
fn place_all(
    memory: &mut Heap,
    functions: &[Function],
    parts: &[Part],
    (object, start): (usize, u32),
    pointer: u8,
) -> Vec<Placed> {
    let (mut extra, calls) = counted(memory, functions, parts);
    let (mut first, mut address) = (0usize, start);
    let mut all = Vec::new(memory.alloc);
    for (number, function) in functions.iter().enumerate() {
        let keep = Keep::Record { object, address };
        let mut placed = place_at(function, first, keep);
        if number < parts.len() && number < calls.len() && parts[number].is_joined {
            placed.calls = calls[number];
            placed.keep = keep_of(parts[number].is_soft, pointer, (object, address));
            extra = place_ways(&mut placed, &parts[number], number == 0, extra);
            first = first.saturating_add(function.blocks.len());
            address = address.saturating_add(RECORD as u32);
        }
        memory.push(&mut all, placed);
    }
    all
}

/// Where a function stands that is called from no place so far.
fn place_at(function: &Function, first: usize, keep: Keep) -> Placed {
    Placed {
        framed: function.framed,
        line: line_of(function),
        first,
        entry: first,
        back: 0,
        full: 0,
        number_at: RETURN,
        calls: 0,
        keep,
    }
}

/// Says where the blocks stand by which control comes into a function and goes back from it, from a number on; gives
/// the next number.
fn place_ways(placed: &mut Placed, part: &Part, is_first: bool, from: usize) -> usize {
    let mut next = from;
    if part.is_caller {
        placed.number_at = CALLER_RETURN;
    }
    if part.is_soft & !part.is_caller & !is_first {
        placed.entry = next;
        placed.full = next.saturating_add(1);
        next = next.saturating_add(2);
    } else if part.is_moving {
        placed.full = next;
        next = next.saturating_add(1);
    }
    if !is_first {
        placed.back = next;
        next = next.saturating_add(1);
    }
    next
}

/// Adds the objects that joined functions work with: what they keep, so many, and the soft stack, with room behind it
/// for a frame of the greatest one and what may stand behind that.
fn add_objects(
    layout: &mut Layout,
    parts: &[Part],
    stack: &Option<SoftStack>,
) -> ((usize, u32), Option<StackPlace>) {
    let line = NO_LINE;
    let mut greatest = 0;
    for part in parts {
        greatest = part.frame.max(greatest);
    }
    let name = owned(
        &mut layout.stops.memory,
        "what functions keep over their calls",
    );
    let bytes = parts.len().saturating_mul(RECORD);
    let object = layout.add(name, RECORD as u32, &[], bytes, line);
    let address = layout.address(object, 0);
    let mut place = None;
    if let Some(stack) = stack {
        let name = owned(
            &mut layout.stops.memory,
            "the stack of functions that call each other",
        );
        let bytes = stack.bytes.saturating_add(greatest).saturating_add(ROOM);
        let object = layout.add(name, stack.bytes, &[], bytes as usize, line);
        let start = layout.address(object, 0);
        place = Some(StackPlace {
            stack: *stack,
            start,
        });
    }
    ((object, address), place)
}

/// Lets calls of a block name functions by other numbers.
fn renumber_in(block: &mut Block, numbers: &[usize]) {
    for step in block.steps.iter_mut() {
        if let Some(callee) = step.callee
            && callee < numbers.len()
        {
            step.callee = Some(numbers[callee]);
        }
    }
}

/// The same of all calls of a function.
fn renumber(function: &mut Function, numbers: &[usize]) {
    for block in function.blocks.iter_mut() {
        renumber_in(block, numbers);
    }
}

/// The same of all calls of some functions.
fn renumber_all(functions: &mut [Function], numbers: &[usize]) {
    for function in functions {
        renumber(function, numbers);
    }
}

/// The functions of a program once those that are joined are one: that first one, and the others.
fn assembled(
    memory: &mut Heap,
    functions: Vec<Function>,
    parts: &[Part],
    blocks: Vec<Block>,
    frame: u32,
) -> Vec<Function> {
    let mut numbers = Vec::new(memory.alloc);
    let mut all: Vec<Function> = Vec::new(memory.alloc);
    let mut whole = Some(blocks);
    for (number, function) in functions.into_iter().enumerate() {
        let mut function = function;
        let is_joined = number < parts.len() && parts[number].is_joined;
        memory.push(&mut numbers, all.len());
        if let Some(blocks) = whole.take() {
            function.blocks = blocks;
            function.frame = frame;
            memory.push(&mut all, function);
        } else if !is_joined {
            memory.push(&mut all, function);
        }
    }
    renumber_all(all.as_mut_slice(), numbers.as_slice());
    all
}

/// The shapes of a program's functions, what is live in them, and how many params and results they have.
fn live_in(memory: &mut Heap, program: &Program) -> (Vec<FunctionShape>, Vec<RegisterCounts>) {
    let mut shapes = Vec::new(memory.alloc);
    for function in program.functions.as_slice() {
        let shape = FunctionShape::of(memory, function);
        memory.push(&mut shapes, shape);
    }
    let mut means = Means {
        memory: *memory,
        spent: None,
    };
    let counts = find_live(&mut means, program, shapes.as_mut_slice());
    memory.is_refused |= means.are_used_up();
    (shapes, counts)
}

/// So many empty lists.
fn vec_of_lists(memory: &mut Heap, count: usize) -> Vec<Vec<usize>> {
    let mut lists = Vec::new(memory.alloc);
    for _ in 0..count {
        let list = Vec::new(memory.alloc);
        memory.push(&mut lists, list);
    }
    lists
}

/// Splits the blocks of the functions that are joined at their calls, and where they move what points into the soft
/// stack; `symbols` has the functions' names.
fn split_all(
    stops: &mut Stops,
    functions: &mut [Function],
    parts: &[Part],
    symbols: &[usize],
    pointer: u8,
) {
    for (number, function) in functions.iter_mut().enumerate() {
        if number < parts.len() && number < symbols.len() && parts[number].is_joined {
            stops.symbol = symbols[number];
            split_at_calls(stops, function, parts, register(pointer));
        }
    }
}

/// The register that points into a soft stack, 0 where there is none; and the bytes of the first function's frame.
fn pointer_and_frame(stack: &Option<SoftStack>) -> (u8, u32) {
    match stack {
        Some(stack) if stack.is_kept => (stack.register.number(), SAVE_AREA),
        Some(stack) => (stack.register.number(), SAVE_AREA + 8),
        None => (0, SAVE_AREA),
    }
}

/// The blocks of the functions of a program that are joined, where they stand so; `symbols` has the functions' names.
fn joined_blocks(
    stops: &mut Stops,
    program: &mut Program,
    (parts, placed): (&[Part], &[Placed]),
    stack: Option<StackPlace>,
    symbols: &[usize],
) -> Vec<Block> {
    let (shapes, counts) = live_in(&mut stops.memory, program);
    let sites = vec_of_lists(&mut stops.memory, parts.len());
    let mut joiner = Joiner {
        memory: stops.memory,
        parts,
        counts: counts.as_slice(),
        placed,
        stack,
        number: 0,
        fault: None,
        blocks: Vec::new(stops.memory.alloc),
        sites,
    };
    joiner.join_all(program.functions.as_mut_slice(), shapes.as_slice());
    joiner.push_all();
    joiner.end_all();
    stops.memory = joiner.memory;
    let blocks = joiner.blocks;
    if let Some((number, line, what)) = joiner.fault {
        stops.symbol = symbols.get(number).copied().unwrap_or(0);
        stops.form(line, what);
    }
    blocks
}

/// Joins the functions of a program that are to be joined to the first one, which has a window and is one of them.
/// `symbols` has the functions' names in the source. What stops it is noted: codes, or a value in a register that no
/// call keeps, which are asked for behind a call; and more calls of a function than are told apart.
pub fn join(
    layout: &mut Layout,
    mut functions: Vec<Function>,
    parts: &[Part],
    symbols: &[usize],
    stack: &Option<SoftStack>,
) -> Vec<Function> {
    let alloc = layout.stops.memory.alloc;
    let (pointer, frame) = pointer_and_frame(stack);
    let stops = &mut layout.stops;
    split_all(stops, functions.as_mut_slice(), parts, symbols, pointer);
    let (record, stack) = add_objects(layout, parts, stack);
    let stops = &mut layout.stops;
    let placed = place_all(
        &mut stops.memory,
        functions.as_slice(),
        parts,
        record,
        pointer,
    );
    let mut program = Program {
        functions,
        objects: Vec::new(alloc),
        regions: Vec::new(alloc),
        files: Vec::new(alloc),
    };
    let all = (parts, placed.as_slice());
    let blocks = joined_blocks(stops, &mut program, all, stack, symbols);
    assembled(&mut stops.memory, program.functions, parts, blocks, frame)
}
