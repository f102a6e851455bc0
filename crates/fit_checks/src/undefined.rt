//! Words that may be read before they are written. Each is made 0 where it becomes undefined: at the entry of its
//! function, or behind the call that loses it. Never where it is read: on another way there it may have been written.
use fit_code::{Block, Function, Heap, Program, RegisterSet, Step, writes};
use fit_cuts::{by_immediate, clearing, insert_instr};
use fit_live::{LocationSet, effects_of, read_at_end};
use fit_ranges::Ranges;
use v8_formats::{Instr, Three};

/// The globals, which a call loses; what it loses of the outs and is read behind it is one of its callee's results.
const GLOBALS: RegisterSet = RegisterSet::GLOBALS;

/// Globals that are live behind the call at a place of a block, and those of them that its callee leaves alone: on a
/// machine these are what they were.
#[derive(Clone, Copy)]
struct LostRegisters {
    block: usize,
    place: usize,
    registers: RegisterSet,
    kept: RegisterSet,
}

/// The globals that a step may write, where those are known that calls of functions may.
fn globals_of_step(step: &Step, known: &[RegisterSet]) -> RegisterSet {
    match step.callee {
        Some(callee) if callee < known.len() => known[callee],
        Some(_) => GLOBALS,
        None => writes(&step.instr()).intersection(GLOBALS),
    }
}

/// The globals that a block may write, where those are known that calls of functions may.
fn globals_of_block(block: &Block, known: &[RegisterSet]) -> RegisterSet {
    let mut written = RegisterSet::NONE;
    for step in block.steps.as_slice() {
        written.add(globals_of_step(step, known));
    }
    written
}

/// The globals that a call of a function may write, where those are known that calls of its callees may.
fn globals_written(function: &Function, known: &[RegisterSet]) -> RegisterSet {
    let mut written = RegisterSet::NONE;
    for block in function.blocks.as_slice() {
        written.add(globals_of_block(block, known));
    }
    written
}

/// The same of each function of a program, whose functions call those of larger numbers alone.
fn written_of(memory: &mut Heap, functions: &[Function]) -> Vec<RegisterSet> {
    let mut written = memory.repeat(RegisterSet::NONE, functions.len());
    let known = written.as_mut_slice();
    for number in (0..functions.len()).rev() {
        if number < known.len() {
            known[number] = globals_written(&functions[number], &*known);
        }
    }
    written
}

/// The registers that are live behind the steps of a block of a function of so many results.
fn live_at_end(
    function: &Function,
    results: u8,
    block: &Block,
    live: &[LocationSet],
) -> RegisterSet {
    let mut registers = RegisterSet::NONE;
    let ways = block.end.ways();
    for way in 0..2 {
        if let Some(to) = ways[way]
            && to < live.len()
        {
            registers.add(live[to].registers());
        }
    }
    if let Some(slot) = &block.slot {
        let effects = effects_of(function.frame, &slot.instr());
        registers = registers.before(effects.reads, effects.writes);
    }
    registers.union(read_at_end(function, results, &block.end))
}

/// Lists, from the last call of a block on, the globals that are live behind a call.
fn lost_in_block(
    memory: &mut Heap,
    (function, number, live_behind): (&Function, usize, RegisterSet),
    written: &[RegisterSet],
    lost: &mut Vec<LostRegisters>,
) {
    let mut live = live_behind;
    if number >= function.blocks.len() {
        return;
    }
    let steps = function.blocks[number].steps.as_slice();
    for place in (0..steps.len()).rev() {
        let step = &steps[place];
        if let Some(callee) = step.callee {
            let written = if callee < written.len() {
                written[callee]
            } else {
                GLOBALS
            };
            let registers = live.intersection(GLOBALS);
            let kept = registers.difference(written);
            if !registers.is_empty() {
                let found = LostRegisters {
                    block: number,
                    place,
                    registers,
                    kept,
                };
                memory.push(lost, found);
            }
            live = live.before(kept, GLOBALS);
        } else {
            let effects = effects_of(function.frame, &step.instr());
            live = live.before(effects.reads, effects.writes);
        }
    }
}

/// A new word at the end of a function's frame, as a location; none where the frame has no room.
fn new_word(function: &mut Function) -> Option<u16> {
    let frame = function.frame;
    if !function.framed | (frame > 4096 - 8) {
        return None;
    }
    function.frame = frame.saturating_add(8);
    Some((frame.saturating_sub(64) / 4 + 32) as u16)
}

/// What a store of a register in a word of the frame names, and a load of it from there.
fn place_of_word(register: u8, word: u16) -> Three {
    // word k stands at %sp + 64 + 4 k
    by_immediate(register, 14, 4 * i32::from(word) - 64)
}

/// The instruction that loads a register from a word of the frame, if it has one.
fn load_of(register: u8, word: Option<u16>) -> Option<Instr> {
    match word {
        Some(word) => Some(Instr::Load(place_of_word(register, word))),
        None => None,
    }
}

/// Defines what a call has lost behind it: it is 0 there or, where the callee leaves it alone, what was kept of it in
/// its word, if it has one.
fn define_behind(
    memory: &mut Heap,
    function: &mut Function,
    found: &LostRegisters,
    words: &[Option<u16>; 8],
) {
    let line = function.line;
    for register in 1..8u8 {
        if found.registers.has(register) {
            let word = words[usize::from(register % 8)];
            let instr = if found.kept.has(register) {
                load_of(register, word)
            } else {
                Some(clearing(u16::from(register)))
            };
            if let Some(instr) = instr {
                let behind = (found.block, found.place.saturating_add(1));
                insert_instr(memory, &mut function.blocks, behind, instr, line);
            }
        }
    }
}

/// Keeps what a callee leaves alone in words before a call.
fn keep_before(
    memory: &mut Heap,
    function: &mut Function,
    found: &LostRegisters,
    words: &[Option<u16>; 8],
) {
    let line = function.line;
    for register in 1..8u8 {
        if found.kept.has(register)
            && let Some(word) = words[usize::from(register % 8)]
        {
            let store = Instr::Store(place_of_word(register, word));
            let before = (found.block, found.place);
            insert_instr(memory, &mut function.blocks, before, store, line);
        }
    }
}

/// What calls of a function lose that is live behind them, from the last one of a block on.
fn lost_in(
    memory: &mut Heap,
    (function, number): (&Function, usize),
    (ranges, written): (&Ranges, &[RegisterSet]),
) -> Vec<LostRegisters> {
    let mut lost = Vec::new(memory.alloc);
    let (results, live) = (ranges.results(), ranges.live(number));
    let count = if number < results.len() {
        results[number].len().min(6) as u8
    } else {
        0
    };
    let blocks = function.blocks.as_slice();
    for block in 0..blocks.len() {
        let registers = live_at_end(function, count, &blocks[block], live);
        lost_in_block(memory, (function, block, registers), written, &mut lost);
    }
    lost
}

/// The registers that callees leave alone.
fn kept_of(lost: &[LostRegisters]) -> RegisterSet {
    let mut kept = RegisterSet::NONE;
    for found in lost {
        kept.add(found.kept);
    }
    kept
}

/// Words of a function's frame for the registers that callees leave alone, as far as there is room.
fn words_for(function: &mut Function, lost: &[LostRegisters]) -> [Option<u16>; 8] {
    let kept = kept_of(lost);
    let mut words = [None; 8];
    for register in 0..8u8 {
        if kept.has(register) {
            words[usize::from(register % 8)] = new_word(function);
        }
    }
    words
}

/// Whether a register has a word.
fn has_words(words: &[Option<u16>; 8]) -> bool {
    let mut has_words = false;
    for word in words {
        has_words |= word.is_some();
    }
    has_words
}

/// Defines what calls have lost behind them.
fn define_behind_calls(
    memory: &mut Heap,
    function: &mut Function,
    number: usize,
    found: (&Ranges, &[RegisterSet]),
    changed: &mut Vec<(usize, usize)>,
) {
    let lost = lost_in(memory, (&*function, number), found);
    let words = words_for(function, lost.as_slice());
    let has_words = has_words(&words);
    // those of a block stand from its last call on, so that the others stay in their places
    for found in lost.as_slice() {
        define_behind(memory, function, found, &words);
        keep_before(memory, function, found, &words);
        if has_words | (found.registers != found.kept) {
            memory.push(changed, (number, found.block));
        }
    }
}

/// Makes what is undefined and live at the entry of a function 0 there.
fn clear_at_entry(
    memory: &mut Heap,
    function: &mut Function,
    number: usize,
    ranges: &Ranges,
    changed: &mut Vec<(usize, usize)>,
) {
    let given = ranges.params(number).len().min(6) as u8;
    // a framed function finds its params in %i0 to %i5, a leaf in %o0 to %o5
    let first = if function.framed { 24 } else { 8 };
    let defined = RegisterSet::HELD.union(RegisterSet::range(first, given));
    let live = match ranges.live(number).first() {
        Some(live) => *live,
        None => return,
    };
    // word k of the frame, at 64 + 4 k bytes of it, is location 32 + k
    let end = 32 + function.frame.min(4_096) / 4;
    for location in (1..end as u16).rev() {
        let is_defined = location < 32 && defined.has(location as u8);
        if live.has(location) & !is_defined {
            let line = function.line;
            insert_instr(
                memory,
                &mut function.blocks,
                (0, 0),
                clearing(location),
                line,
            );
            memory.push(changed, (number, 0));
        }
    }
}

/// Makes each word of a program that may be read before it is written 0 where it becomes undefined, and adds the blocks
/// that are others then to `changed`. What is kept over a call may be undefined before that: then there is more to do.
pub fn clear_undefined(
    memory: &mut Heap,
    program: &mut Program,
    ranges: &Ranges,
    changed: &mut Vec<(usize, usize)>,
) {
    let written = written_of(memory, program.functions.as_slice());
    let functions = program.functions.as_mut_slice();
    for number in 0..functions.len() {
        let function = &mut functions[number];
        define_behind_calls(
            memory,
            function,
            number,
            (ranges, written.as_slice()),
            changed,
        );
        clear_at_entry(memory, function, number, ranges, changed);
    }
}
