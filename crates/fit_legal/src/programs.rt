//! Makes a program of code that compilers wrote: blocks without delay slots, what the rules forbid put otherwise,
//! data laid out, functions in the order of their calls.
use crate::calls::order_of_calls;
use crate::choice::choose;
use crate::endless::end_behind_calls;
use crate::ways::free_way_back;
use fit_blocks::{
    Layout, Obstacle, Part, SoftStack, Stops, WayBack, function_of, give_one_entry, layout_of,
    name_of, push_plain, repeat_compares, result_register, stack_register, step_of,
};
use fit_code::{Block, End, Fault, Function, Heap, NO_LINE, Program, RegisterSet, Step, named_by};
use fit_frames::{
    Callees, SoftFrames, argument_bytes, empty_frame, end_by_kept, leaves_for_soft, moves_stack,
    place_frame, take_alignment, way_back_of,
};
use fit_gas::Assembly;
use fit_graph::reached_from;
use fit_joins::{callees_of, caller_of, in_rounds, join};
use fit_live::{Effects, effects_of};
use sbx_domain::State;
use std::alloc::Global;
use v8_formats::{Instr, Operand, Three};
use v8_word::{Reg, reg_at};

/// How many functions an image has at most.
const FUNCTIONS: usize = 256;

/// What is told of a step, or an end, that names a register which a function may not name.
const HOLDS: &str = "a register that holds a frame or the way back";

/// The registers that a function may not name: those that hold frames and ways back and, in one without SAVE, those of
/// a window.
#[derive(Clone, Copy)]
struct Forbidden {
    held: RegisterSet,
    of_window: RegisterSet,
}

/// It is a fault where a step in a frame of so many bytes names a register that its function may not name.
fn check_named(stops: &mut Stops, frame: u32, step: &Step, forbidden: Forbidden) {
    if step.callee.is_some() {
        return;
    }
    let Effects { reads, writes, .. } = effects_of(frame, &step.instr());
    let named = reads.union(writes);
    if !named.is_disjoint(forbidden.held) {
        stops.form(step.line, HOLDS);
    } else if !named.is_disjoint(forbidden.of_window) {
        stops.form(step.line, "a local or an in register without a SAVE before");
    }
}

/// What stands behind the last step of a block where the first function, which the run begins at, would return, if that
/// is framed: %o0 gets its result there.
fn last_result(block: &Block, is_framed_first: bool) -> Option<Instr> {
    match &block.end {
        End::Return(fields) if is_framed_first => Some(result_of(fields)),
        _ => None,
    }
}

/// Puts plainer forms into a block, and an instruction behind them, if there is one. Its calls get the numbers of the
/// program's functions, of which `order` has those in the source.
fn put_block_plainly(
    stops: &mut Stops,
    block: &mut Block,
    order: &[usize],
    (frame, forbidden): (u32, Forbidden),
    last: &Option<Instr>,
) {
    let mut steps = Vec::new(stops.memory.alloc);
    for step in block.steps.as_slice() {
        check_named(stops, frame, step, forbidden);
        push_plain(&mut stops.memory, &mut steps, step, order);
    }
    if let Some(instr) = last {
        stops.memory.push(&mut steps, step_of(*instr, block.line));
    }
    block.steps = steps;
}

/// Lets a run end where a block of the first function would return.
fn end_run(block: &mut Block) {
    if matches!(block.end, End::Return(_)) {
        block.end = End::Exit;
    }
}

/// Puts plainer forms into a function, and gives its calls the numbers of the program's functions, of which `order` has
/// those in the source. It is a fault where a step names a register that holds a frame or a way back, but to spill
/// words, or the end of a block does; and where a function without SAVE names a register of a window, but what points
/// into the soft stack. A run ends where the first function, which it begins at, would return.
fn put_plainly(
    stops: &mut Stops,
    function: &mut Function,
    order: &[usize],
    (is_first, pointer, held): (bool, Reg, RegisterSet),
) {
    let (framed, frame) = (function.framed, function.frame);
    let of_window = if framed {
        RegisterSet::NONE
    } else {
        RegisterSet::WINDOW.difference(RegisterSet::of(pointer))
    };
    let forbidden = Forbidden { held, of_window };
    for block in function.blocks.iter_mut() {
        let last = last_result(block, is_first & framed);
        put_block_plainly(stops, block, order, (frame, forbidden), &last);
        if let End::Return(fields) = block.end
            && !named_by(&fields).is_disjoint(RegisterSet::HELD)
        {
            stops.form(block.line, HOLDS);
        }
        if is_first {
            end_run(block);
        }
    }
}

/// What leaves in %o0 what a RESTORE of these fields would write there, or what it would move there from %i0.
fn result_of(fields: &Three) -> Instr {
    let rd = result_register();
    if fields.rd == rd {
        Instr::Add(*fields)
    } else {
        Instr::Or(Three {
            rd,
            rs1: Reg::G0,
            operand2: Operand::Register(reg_at(24, 0)),
        })
    }
}

/// The functions of these numbers in the source, up to what stops it, in blocks.
fn read_all(layout: &mut Layout, order: &[usize]) -> Vec<Function> {
    let source = layout.source;
    let mut functions = Vec::new(layout.stops.memory.alloc);
    for number in order {
        if layout.stops.first.is_none() {
            let function = match source.codes.get(*number) {
                Some(code) => {
                    let mut function = function_of(layout, *number, code);
                    give_one_entry(&mut layout.stops, &mut function);
                    function
                }
                None => caller_of(&mut layout.stops.memory, layout.taken.as_slice()),
            };
            layout.stops.memory.push(&mut functions, function);
        }
    }
    functions
}

/// The symbols that functions of these numbers in the source have there.
fn symbols_of(layout: &mut Layout, order: &[usize]) -> Vec<usize> {
    let source = layout.source;
    let mut symbols = Vec::new(layout.stops.memory.alloc);
    for number in order {
        let symbol = source.codes.get(*number).map_or(0, |code| code.symbol);
        layout.stops.memory.push(&mut symbols, symbol);
    }
    symbols
}

/// Which functions call which, by their places in the program, whose functions have these numbers in the source.
fn calls_of(layout: &mut Layout, functions: &[Function], order: &[usize]) -> Vec<Vec<usize>> {
    let count = layout.source.codes.len().saturating_add(1);
    let memory = &mut layout.stops.memory;
    let mut numbers = memory.repeat(0, count);
    let places = numbers.as_mut_slice();
    for (place, number) in order.iter().enumerate() {
        if *number < places.len() {
            places[*number] = place;
        }
    }
    callees_of(memory, functions, places)
}

/// For each function of the source, and what calls through pointers, how many bytes of arguments in memory it has to do
/// with: through a pointer as many as one of those that are called so.
fn bytes_of(layout: &mut Layout, functions: &[Function], order: &[usize]) -> Vec<i64> {
    let pointed = layout.source.codes.len();
    let mut list = layout.stops.memory.repeat(0i64, pointed.saturating_add(1));
    let bytes = list.as_mut_slice();
    for (place, function) in functions.iter().enumerate() {
        if place < order.len() && order[place] < bytes.len() {
            let number = order[place];
            let end = argument_bytes(function);
            bytes[number] = end.max(bytes[number]);
            if pointed < bytes.len() && layout.taken.as_slice().contains(&number) {
                bytes[pointed] = end.max(bytes[pointed]);
            }
        }
    }
    list
}

/// For each function of the source, and what calls through pointers, those that a call of it may come to; `callees` has
/// those that each calls, by their places in the program.
fn reached_of(layout: &mut Layout, callees: &[Vec<usize>], order: &[usize]) -> Vec<Vec<usize>> {
    let memory = &mut layout.stops.memory;
    let mut lists = Vec::new(memory.alloc);
    for number in 0..layout.source.codes.len().saturating_add(1) {
        let mut reached = Vec::new(memory.alloc);
        if let Some(place) = place_of(order, number) {
            push_reached(memory, callees, (place, order), &mut reached);
        }
        memory.push(&mut lists, reached);
    }
    lists
}

/// The place of a function in the program, by its number in the source.
fn place_of(order: &[usize], number: usize) -> Option<usize> {
    for (place, other) in order.iter().enumerate() {
        if *other == number {
            return Some(place);
        }
    }
    None
}

/// Puts the functions that a call of the one at a place of the program may come to behind those of a list, by their
/// numbers in the source.
fn push_reached(
    memory: &mut Heap,
    callees: &[Vec<usize>],
    (place, order): (usize, &[usize]),
    reached: &mut Vec<usize>,
) {
    let all = memory.repeat(true, callees.len());
    if place >= callees.len() {
        return;
    }
    let first = callees[place].as_slice();
    let Ok(found) = reached_from(memory.alloc, callees, first, all.as_slice()) else {
        memory.is_refused = true;
        return;
    };
    for (number, is_reached) in order.iter().zip(found.as_slice().iter()) {
        if *is_reached {
            memory.push(reached, *number);
        }
    }
}

/// For each function of the source, and what calls through pointers, whether its frame lies on the soft stack: those
/// that may be called again before they return, those that leave arguments in memory for such, and those with arguments
/// in memory that are called through pointers; `bytes` has these. It is a fault where the first one would be called
/// again.
fn soft_of(
    layout: &mut Layout,
    functions: &[Function],
    order: &[usize],
    callees: &[Vec<usize>],
    (bytes, reached): (&[i64], &[Vec<usize>]),
) -> Vec<bool> {
    let pointed = layout.source.codes.len();
    let stops = &mut layout.stops;
    let rounds = in_rounds(&mut stops.memory, callees);
    let mut softs = stops.memory.repeat(false, pointed.saturating_add(1));
    let are_soft = softs.as_mut_slice();
    let is_pointed = order.contains(&pointed);
    if pointed < are_soft.len() {
        are_soft[pointed] = is_pointed;
    }
    for place in (0..functions.len()).rev() {
        if place < order.len() && place < rounds.len() && order[place] < are_soft.len() {
            let number = order[place];
            let is_taken = is_pointed && layout.taken.as_slice().contains(&number);
            let function = &functions[place];
            let known = Callees {
                are_soft: &*are_soft,
                bytes,
                reached,
            };
            let leaves = leaves_for_soft(&mut stops.memory, function, known);
            let takes = number < bytes.len() && bytes[number] > 0;
            let is_moving = function.framed && moves_stack(function);
            are_soft[number] |= rounds[place] | leaves | (is_taken & takes) | is_moving;
            if (place == 0) & rounds[place] {
                let what = "a call of the function that a run begins at";
                stops.form(functions[place].line, what);
            }
        }
    }
    softs
}

/// What points into the soft stack, of so many bytes, if something lies there. It is a fault where no register is left
/// for that.
fn stack_of(
    stops: &mut Stops,
    functions: &[Function],
    has_frames: bool,
    bytes: u32,
) -> Option<SoftStack> {
    if !has_frames {
        return None;
    }
    match stack_register(functions) {
        Some((register, is_kept)) => Some(SoftStack {
            register,
            is_kept,
            bytes,
        }),
        None => {
            stops.note(
                NO_LINE,
                Obstacle::Form("no register is left for a stack of its own"),
            );
            None
        }
    }
}

/// The registers that hold frames and ways back, and that a function may not name.
fn held_in(way_back: &WayBack) -> RegisterSet {
    let held = RegisterSet::HELD;
    match way_back {
        WayBack::Own => held,
        WayBack::Kept | WayBack::Replaced => held.difference(RegisterSet::of(Reg::O7)),
    }
}

/// What is known of a function before its frame is placed.
#[derive(Clone, Copy)]
struct Traits {
    way_back: WayBack,
    /// What the address of its frame is a multiple of.
    align: u32,
}

/// What is known of each function; `symbols` has their names.
fn traits_of(layout: &mut Layout, functions: &mut [Function], symbols: &[usize]) -> Vec<Traits> {
    let source = layout.source;
    let mut traits = Vec::new(layout.stops.memory.alloc);
    for (function, symbol) in functions.iter_mut().zip(symbols.iter()) {
        let found = Traits {
            way_back: way_back_of(function, name_of(source, *symbol)),
            align: take_alignment(&mut layout.stops.memory, function),
        };
        layout.stops.memory.push(&mut traits, found);
    }
    traits
}

/// Whether a function keeps its way back.
fn keeps_way(traits: &[Traits]) -> bool {
    let mut keeps = false;
    for it in traits {
        keeps |= matches!(it.way_back, WayBack::Kept);
    }
    keeps
}

/// Makes a function legal, by its place among those of these numbers in the source; says how it is put into the image.
fn legalize_one(
    layout: &mut Layout,
    function: &mut Function,
    (order, place): (&[usize], usize),
    traits: &Traits,
    soft: &SoftFrames,
) -> Part {
    let pointed = layout.source.codes.len();
    let number = order.get(place).copied().unwrap_or(0);
    free_way_back(function, soft.register);
    let placed = place_frame(layout, function, (number, traits.align), soft);
    let way_back = traits.way_back;
    let held = held_in(&way_back);
    let stops = &mut layout.stops;
    put_plainly(stops, function, order, (place == 0, soft.register, held));
    end_by_kept(function, &way_back);
    repeat_compares(stops, function, soft.register);
    Part {
        is_joined: false,
        is_soft: soft.callees.is_soft(number),
        is_caller: number == pointed,
        frame: placed.bytes,
        is_moving: placed.is_moving,
        base: placed.base,
        way_back,
    }
}

/// Makes the functions of these numbers in the source, with these symbols there, legal, up to what stops it. Says of
/// each how it is put into the image.
fn legalize(
    layout: &mut Layout,
    functions: &mut [Function],
    (order, symbols): (&[usize], &[usize]),
    soft: &SoftFrames,
    traits: &[Traits],
) -> Vec<Part> {
    let mut parts = Vec::new(layout.stops.memory.alloc);
    for (place, function) in functions.iter_mut().enumerate() {
        if layout.stops.first.is_none() && place < symbols.len() && place < traits.len() {
            layout.stops.symbol = symbols[place];
            let part = legalize_one(layout, function, (order, place), &traits[place], soft);
            layout.stops.memory.push(&mut parts, part);
        }
    }
    parts
}

/// The functions of a program where those that are to be are parts of the first one. Each has its frame in the data
/// then, or on the soft stack.
fn joined(
    layout: &mut Layout,
    functions: Vec<Function>,
    mut parts: Vec<Part>,
    (callees, has_bounds): (&[Vec<usize>], bool),
    symbols: &[usize],
    stack: &Option<SoftStack>,
) -> Vec<Function> {
    let alloc = layout.stops.memory.alloc;
    let mut program = Program {
        functions,
        objects: Vec::new(alloc),
        regions: Vec::new(alloc),
        files: Vec::new(alloc),
    };
    let parts = parts.as_mut_slice();
    match State::new(alloc) {
        Ok(mut state) => {
            let memory = &mut layout.stops.memory;
            let calls = (callees, has_bounds);
            choose(memory, &mut program, parts, calls, &mut state);
        }
        Err(_) => layout.stops.memory.is_refused = true,
    }
    let is_joined = parts.first().is_some_and(|part| part.is_joined);
    let mut functions = program.functions;
    if !is_joined || layout.stops.first.is_some() {
        return functions;
    }
    for (place, function) in functions.iter_mut().enumerate() {
        if place < parts.len() && parts[place].is_joined {
            empty_frame(layout, function);
        }
    }
    join(layout, functions, parts, symbols, stack)
}

/// How functions become parts of the first one.
#[derive(Clone, Copy)]
pub struct JoinPlan {
    /// The bytes of the stack of those that may be called again before they return, a power of 2 from 1,024 on.
    pub stack: u32,
    /// Whether a function stays one though it has loops, if a counter bounds them.
    pub has_bounds: bool,
}

/// The functions of these numbers in the source, made legal, up to what stops it; some are parts of the first one, and
/// there may be a stack for them, into which a register points then.
fn functions_of(
    layout: &mut Layout,
    order: &[usize],
    plan: &JoinPlan,
) -> (Vec<Function>, Option<SoftStack>) {
    let mut functions = read_all(layout, order);
    let symbols = symbols_of(layout, order);
    let traits = traits_of(layout, functions.as_mut_slice(), symbols.as_slice());
    let callees = calls_of(layout, functions.as_slice(), order);
    let list = bytes_of(layout, functions.as_slice(), order);
    let bytes_taken = list.as_slice();
    let called = callees.as_slice();
    let come = reached_of(layout, called, order);
    let reached = come.as_slice();
    let known = (bytes_taken, reached);
    let softs = soft_of(layout, functions.as_slice(), order, called, known);
    let are_soft = softs.as_slice();
    layout.stops.symbol = symbols.as_slice().first().copied().unwrap_or(0);
    let has_frames = are_soft.contains(&true) | keeps_way(traits.as_slice());
    let stops = &mut layout.stops;
    let stack = stack_of(stops, functions.as_slice(), has_frames, plan.stack);
    let soft = SoftFrames {
        register: stack.map_or(Reg::G0, |stack| stack.register),
        first: order.first().copied().unwrap_or(0),
        callees: Callees {
            are_soft,
            bytes: bytes_taken,
            reached,
        },
    };
    let numbers = (order, symbols.as_slice());
    let traits = traits.as_slice();
    let parts = legalize(layout, functions.as_mut_slice(), numbers, &soft, traits);
    end_behind_calls(&mut layout.stops, functions.as_mut_slice());
    if layout.stops.first.is_none() {
        let calls = (called, plan.has_bounds);
        functions = joined(layout, functions, parts, calls, symbols.as_slice(), &stack);
    }
    (functions, stack)
}

/// It is a fault where there are more functions than an image may have.
fn check_count(stops: &mut Stops, functions: &[Function]) {
    if let Some(function) = functions.get(FUNCTIONS) {
        stops.note(function.line, Obstacle::TooMany("functions", 256));
    }
}

/// Ends the data behind the last object. Without objects there are none, and a run has no bytes to lay out.
fn end_data(layout: &mut Layout) {
    if !layout.objects.is_empty() {
        layout.end_region(false);
    }
}

/// A program that is legal.
#[derive(Drop)]
pub struct Legal {
    pub program: Program,
    /// What points into the stack of functions that may be called again before they return, if there are some.
    pub pointer: Option<Reg>,
}

/// The program that a source is, from the global function `entry` on.
///
/// # Errors
/// What can't be made legal, with its line: a jump through a register; an address within a function; an array whose
/// size isn't constant; an instruction that sandboxed code may not have; a name that stands nowhere; a form that
/// compilers don't write; more functions, or bytes of data, than an image may have.
pub fn program_of(
    alloc: Global,
    source: &Assembly,
    entry: &str,
    plan: JoinPlan,
) -> Result<Legal, Fault> {
    let mut layout = layout_of(source, entry);
    let mut stops = layout.stops;
    let taken = layout.taken.as_slice();
    let (order, before) = order_of_calls(&mut stops, source, &layout.linked, taken, entry);
    layout.stops = stops;
    let (functions, stack) = functions_of(&mut layout, order.as_slice(), &plan);
    check_count(&mut layout.stops, functions.as_slice());
    end_data(&mut layout);
    let files = layout.stops.made(source.files.clone());
    match layout.stops.fault(source, before.as_str()) {
        Some(fault) => Err(fault),
        None => Ok(Legal {
            program: Program {
                functions,
                objects: layout.objects,
                regions: layout.regions,
                files,
            },
            pointer: stack.map(|stack| stack.register),
        }),
    }
}
