//! Putting the meter into a function. Before some of its blocks stand places that count it down: on each round of its
//! loops is one, but for those that a counter bounds. A loop so bounded that stands behind a loop without bound, and in
//! no loop, has one all the same: else each round of that loop would pay for it, since the run may go on there. For the
//! same reason there is one on each way out of a loop behind which a call may come.
use crate::metering::exits::{LoopExit, dear_exits};
use crate::metering::registers::free_register;
use fit_code::{Block, End, Function, Heap, NO_LINE, SourceLine};
use fit_cuts::{insert_instr, push_block, register, shared_end, telling};
use fit_fuel::{LoopBounds, Meter, counting, number_in};
use fit_graph::{Graph, Loop, successors_in};
use v8_formats::{Cond, Instr, Operand, Reg, Three};

/// The exit word of a run whose meter is empty, but for the line.
const EMPTY: u32 = 4 << 16;

/// From so many blocks of a function on the places of a meter in a word share their end. A function of an image has
/// 4,096 at most.
const MANY: usize = 2_048;

/// The greatest number that a meter may begin with.
const GREATEST: u64 = 0x7fff_ffff;

/// Leaves of the heads of loops with bounds only those behind a loop without one, and in no loop.
fn drop_bounded(heads: &mut [bool], bounds: &LoopBounds) {
    let loops = bounds.loops.as_slice();
    let mut is_behind = false;
    for number in 0..loops.len() {
        let within = &loops[number];
        // a loop stands behind those before it
        is_behind |= bounds.at(number).is_none();
        if bounds.at(number).is_some() && within.head < heads.len() {
            heads[within.head] = is_behind & within.parent.is_none();
        }
    }
}

/// Which blocks of a function get a place of the meter on each way to them: those that control goes back to, as an
/// order of the blocks has it, since each round of a loop comes through one of them; but of the heads of loops with
/// bounds only some.
fn heads_of(memory: &mut Heap, function: &Function, bounds: &LoopBounds) -> Vec<bool> {
    let mut heads = memory.repeat(false, function.blocks.len());
    let order = Graph::of(memory, function).order;
    let are_heads = heads.as_mut_slice();
    let blocks = order.blocks.as_slice();
    // a block has two ways at most
    for way in 0..blocks.len().saturating_mul(2) {
        let place = way / 2;
        if place < blocks.len()
            && let Some(to) = successors_in(function, blocks[place])[way % 2]
            && to < are_heads.len()
        {
            are_heads[to] |= order.place(to) <= Some(place);
        }
    }
    drop_bounded(are_heads, bounds);
    heads
}

/// The instruction that moves the meter's word from the frame or, with `stores`, to it; none where it has none.
fn word_move(meter: &Meter, stores: bool) -> Option<Instr> {
    if meter.location < 32 {
        return None;
    }
    // word k, which is location 32 + k, stands at %sp + 64 + 4 k
    let distance = u32::from(meter.location).saturating_sub(16) * 4;
    let fields = Three {
        rd: meter.register,
        rs1: Reg::SP,
        operand2: Operand::Immediate(distance),
    };
    Some(if stores {
        Instr::Store(fields)
    } else {
        Instr::Load(fields)
    })
}

/// A meter of so many turns that isn't in use yet: in a register that has no other use or, where there is none, in a
/// new word of the frame; nothing where there is no room for it.
fn meter_for(function: &mut Function, turns: u64) -> Option<Meter> {
    let (frame, free) = (function.frame, free_register(function));
    let location = match free {
        Some(free) => u16::from(free.number()),
        None if function.framed & (frame <= 4096 - 8) => {
            function.frame = frame.saturating_add(8);
            (frame.saturating_sub(64) / 4 + 32) as u16
        }
        None => return None,
    };
    let unit = turns / GREATEST + 1;
    let count = (turns / unit).clamp(1, GREATEST);
    Some(Meter {
        location,
        register: free.unwrap_or(register(7)),
        scratch: register(5),
        count: u32::try_from(count).unwrap_or(1),
        unit: u32::try_from(unit).unwrap_or(1),
    })
}

/// Where an end goes that goes to another block in the place of one.
fn led(end: End, from: usize, to: usize) -> End {
    match end {
        End::Jump(way) => End::Jump(if way == from { to } else { way }),
        End::Branch { cond, taken, next } => End::Branch {
            cond,
            taken: if taken == from { to } else { taken },
            next: if next == from { to } else { next },
        },
        end => end,
    }
}

/// Lets blocks that go to a block go to another one, but for those of a loop, which is given by whether each block is
/// in it.
fn redirect(blocks: &mut [Block], from: usize, to: usize, within: &[bool]) {
    for number in 0..blocks.len() {
        if number >= within.len() || !within[number] {
            blocks[number].end = led(blocks[number].end, from, to);
        }
    }
}

/// Where the run ends because the meter is empty at a place; what stands behind the place's other steps, and what in
/// the slot of its branch.
#[derive(Clone, Copy)]
struct EmptyEnd {
    block: usize,
    behind: Option<Instr>,
    slot: Option<Instr>,
}

/// Where the run ends because the meter is empty at a place in a line. The slot tells the line to the end that tests
/// share, too, or moves the meter's word; then each place has an end of its own while blocks are few, and later what
/// tells the line takes a turn more.
fn end_of_place(
    memory: &mut Heap,
    blocks: &mut Vec<Block>,
    meter: &Meter,
    line: SourceLine,
) -> EmptyEnd {
    let word = EMPTY | line.number.min(0xffff);
    let store = word_move(meter, true);
    let told = Some(telling(word.cast_signed()));
    if store.is_some() & (blocks.len() < MANY) {
        let block = blocks.len();
        let instrs = number_in(register(8), word);
        push_block(memory, blocks, &instrs, (End::Exit, None), line);
        return EmptyEnd {
            block,
            behind: None,
            slot: store,
        };
    }
    EmptyEnd {
        block: shared_end(memory, blocks, line),
        behind: if store.is_some() { told } else { None },
        slot: store.or(told),
    }
}

/// Puts a place of the meter before a block, and a block where the run ends because the meter is empty: whatever went
/// to the block goes to the place, but for the blocks of a loop, which is given by whether each block is in it.
fn put_place(
    memory: &mut Heap,
    blocks: &mut Vec<Block>,
    meter: &Meter,
    head: usize,
    within: &[bool],
) {
    if head >= blocks.len() {
        return;
    }
    // of the block's first step, or of its end
    let line = match blocks[head].steps.first() {
        Some(step) => step.line,
        None => blocks[head].line,
    };
    let exit = end_of_place(memory, blocks, meter, line);
    let place = blocks.len();
    redirect(blocks.as_mut_slice(), head, place, within);
    let [high, low, count] = counting(meter, 1);
    let instrs = [word_move(meter, false), high, low, count, exit.behind];
    let end = End::Branch {
        cond: Cond::Negative,
        taken: exit.block,
        next: head,
    };
    push_block(memory, blocks, &instrs, (end, exit.slot), line);
}

/// Puts places of a meter before the heads among a function's blocks.
fn put_at_heads(memory: &mut Heap, blocks: &mut Vec<Block>, meter: &Meter, heads: &[bool]) {
    for head in 0..heads.len() {
        if heads[head] {
            put_place(memory, blocks, meter, head, &[]);
        }
    }
}

/// Puts places of a meter before loops that go without it in one that has it, on the ways into them, so that what comes
/// before pays for the way there alone, and not for their rounds.
fn put_at_entries(
    memory: &mut Heap,
    blocks: &mut Vec<Block>,
    meter: &Meter,
    loops: &[Loop],
    heads: &[bool],
) {
    for within in loops {
        let head = within.head;
        if let Some(parent) = within.parent
            && (parent < loops.len()) & (head < heads.len())
            && !heads[head]
            && loops[parent].head < heads.len()
            && heads[loops[parent].head]
        {
            put_place(memory, blocks, meter, head, within.holds.as_slice());
        }
    }
}

/// The instruction that reads the count between places.
fn read_count(meter: &Meter) -> Instr {
    match word_move(meter, false) {
        Some(load) => load,
        None => Instr::Or(Three {
            rd: meter.scratch,
            rs1: meter.register,
            operand2: Operand::Immediate(0),
        }),
    }
}

/// Lets the exits that go to a block go to another one; gives the line of the last one of them.
fn lead_exits(
    blocks: &mut [Block],
    exits: &[LoopExit],
    to: usize,
    behind: usize,
) -> Option<SourceLine> {
    let mut line = None;
    for exit in exits {
        if (exit.to == to) & (exit.from < blocks.len()) {
            let block = &mut blocks[exit.from];
            block.end = led(block.end, to, behind);
            line = Some(block.line);
        }
    }
    line
}

/// Puts places of a meter on dear ways out of loops that have it, one for all of them that lead to a block. Behind it
/// the count is read once more: so it is known there, and what comes then is paid by what the place takes.
fn put_at_exits(
    memory: &mut Heap,
    blocks: &mut Vec<Block>,
    meter: &Meter,
    loops: &[Loop],
    heads: &[bool],
) {
    let exits = dear_exits(memory, blocks.as_slice(), loops, heads);
    for to in 0..heads.len() {
        let behind = blocks.len();
        let line = lead_exits(blocks.as_mut_slice(), exits.as_slice(), to, behind);
        if let Some(line) = line {
            let read = [Some(read_count(meter))];
            push_block(memory, blocks, &read, (End::Jump(to), None), line);
            put_place(memory, blocks, meter, behind, &[]);
        }
    }
}

/// Gives the next function a meter of so many turns: one place for each block that control goes back to but those of
/// loops with bounds, of which some have one all the same. None of a function that has no other loops. What the meter
/// begins with is set where the function begins. Says whether the function has the register, or the word, that its
/// meter needs.
pub fn insert_meter(
    memory: &mut Heap,
    meters: &mut Vec<Option<Meter>>,
    function: &mut Function,
    turns: u64,
    bounds: &LoopBounds,
) -> bool {
    let heads = heads_of(memory, function, bounds);
    let heads = heads.as_slice();
    let mut meter = None;
    let is_needed = heads.contains(&true);
    if is_needed {
        meter = meter_for(function, turns);
    }
    if let Some(meter) = &meter {
        put_at_heads(memory, &mut function.blocks, meter, heads);
        let loops = bounds.loops.as_slice();
        put_at_entries(memory, &mut function.blocks, meter, loops, heads);
        put_at_exits(memory, &mut function.blocks, meter, loops, heads);
        let [high, low] = number_in(meter.register, meter.count);
        for instr in &[word_move(meter, true), low, high] {
            if let Some(instr) = *instr {
                insert_instr(memory, &mut function.blocks, (0, 0), instr, NO_LINE);
            }
        }
    }
    let is_there = meter.is_some() | !is_needed;
    memory.push(meters, meter);
    is_there
}
