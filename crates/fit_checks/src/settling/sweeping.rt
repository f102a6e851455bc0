//! One sweep over a function that answers what isn't shown of it: in an order in which what a test shows is known where
//! it makes a later one needless.
use crate::asks::{Asking, asks_behind, asks_beside};
use crate::settling::{Answered, LOST_BY_CALL, Looked, Tests};
use crate::sweep::{Carried, CarriedWord, Chain, NOT_CARRIED, Sweep, cells_along};
use fit_cells::cells_of;
use fit_code::{Heap, Program};
use fit_cuts::register;
use fit_graph::successors_in;
use fit_live::LocationSet;
use fit_plans::{Ask, NotShown, TestKind, plan_of};
use fit_ranges::Ranges;
use sbx_domain::State;
use sbx_range::Cell;

/// A program and what was known of it before the sweep.
#[derive(Clone, Copy)]
pub struct Swept<'a> {
    pub program: &'a Program,
    pub ranges: &'a Ranges,
}

/// How many blocks a function has.
fn block_count(program: &Program, function: usize) -> usize {
    if function < program.functions.len() {
        program.functions[function].blocks.len()
    } else {
        0
    }
}

/// How many steps a block has.
fn step_count(program: &Program, function: usize, block: usize) -> usize {
    let functions = program.functions.as_slice();
    if function < functions.len() {
        let blocks = functions[function].blocks.as_slice();
        if block < blocks.len() {
            return blocks[block].steps.len();
        }
    }
    0
}

/// The blocks that control may go to from a block.
fn ways_of(program: &Program, function: usize, block: usize) -> [Option<usize>; 2] {
    let functions = program.functions.as_slice();
    if function < functions.len() {
        return successors_in(&functions[function], block);
    }
    [None, None]
}

/// All that the ranges know where a block begins; nothing where control doesn't come there.
fn known_cells(
    memory: &mut Heap,
    program: &Program,
    ranges: &Ranges,
    (function, block): (usize, usize),
    state: &mut State,
) -> Option<Vec<Cell>> {
    if function < program.functions.len() && ranges.begin_block(program, function, block, state) {
        let frame = program.functions[function].frame;
        return Some(cells_of(memory, frame, &LocationSet::all(), state));
    }
    None
}

/// The registers whose words come round a loop at the end of a block, where these do where it begins.
fn carried_at_end(
    program: &Program,
    (function, block): (usize, usize),
    carried: Carried,
) -> Carried {
    let functions = program.functions.as_slice();
    if function < functions.len() {
        let (frame, blocks) = (
            functions[function].frame,
            functions[function].blocks.as_slice(),
        );
        if block < blocks.len() {
            return carried.behind(frame, blocks[block].steps.as_slice());
        }
    }
    carried
}

/// The word that an ask is tested by, if it comes round a loop with this head, where these registers' words do where
/// the block of the ask begins; nothing of a divisor. And whether it was tested since, or is worked out from such a
/// word.
fn carried_word(
    program: &Program,
    ask: &Ask,
    carried: Carried,
    head: usize,
) -> Option<(CarriedWord, bool)> {
    let plan = plan_of(program, ask)?;
    let functions = program.functions.as_slice();
    if matches!(plan.kind, TestKind::Divisor) || ask.function >= functions.len() {
        return None;
    }
    let blocks = functions[ask.function].blocks.as_slice();
    if ask.block >= blocks.len() {
        return None;
    }
    let steps = blocks[ask.block].steps.as_slice();
    let place = plan.last.min(steps.len());
    let there = carried.behind(ask.frame, &steps[..place]);
    if !there.round.has(plan.register) {
        return None;
    }
    let word = CarriedWord {
        head,
        register: plan.register,
        object: plan.bounds.object,
    };
    Some((word, there.tested.has(plan.register)))
}

impl Tests {
    /// Of which of so many blocks of a function it is known from looking at them before whether something isn't shown.
    fn known_blocks(
        &mut self,
        ranges: &Ranges,
        (function, count): (usize, usize),
        found: &mut [bool],
    ) -> Vec<bool> {
        let mut are_known = self.memory.repeat(false, count);
        let slots = are_known.as_mut_slice();
        if matches!(self.looked, Looked::Nothing) || function >= self.shown.len() {
            return are_known;
        }
        let before = self.shown[function].as_slice();
        for block in 0..slots.len() {
            if block < before.len() && block < found.len() {
                slots[block] = matches!(self.looked, Looked::All)
                    || !ranges.is_fresh(function, block);
                found[block] = slots[block] & before[block];
            }
        }
        are_known
    }

    /// Keeps of which blocks of a function something isn't shown.
    fn keep_found(&mut self, function: usize, found: &[bool]) {
        let alloc = self.memory.alloc;
        for _ in self.shown.len()..function.saturating_add(1) {
            self.memory.push(&mut self.shown, Vec::new(alloc));
        }
        let kept = self.memory.copy(found);
        let shown = self.shown.as_mut_slice();
        if function < shown.len() {
            shown[function] = kept;
        }
    }

    /// Looks at what isn't shown of a function, by its ranges; says of each of so many blocks whether something isn't.
    /// What is undefined can't be answered, since what may be is 0 already.
    fn look(
        &mut self,
        program: &Program,
        ranges: &Ranges,
        (function, count): (usize, usize),
        state: &mut State,
    ) -> Vec<bool> {
        let mut found = self.memory.repeat(false, count);
        let are_asked = found.as_mut_slice();
        let are_known = self.known_blocks(ranges, (function, count), are_asked);
        let asking = Asking {
            alloc: self.memory.alloc,
            program,
            ranges,
            by_object: self.by_object,
            wraps: self.wrapping.contains(&function),
        };
        let Ok(asks) = asks_beside(&asking, function, are_known.as_slice(), state) else {
            self.memory.is_refused = true;
            return found;
        };
        for ask in asks.as_slice() {
            let is_undefined = matches!(ask.lack, NotShown::Defined(_) | NotShown::Given(_));
            if is_undefined & self.refused.is_ok() {
                self.asked = Some(*ask);
                self.refused = Err(LOST_BY_CALL);
            }
            if ask.block < are_asked.len() {
                are_asked[ask.block] = true;
            }
        }
        self.keep_found(function, &*are_asked);
        found
    }

    /// The first of some asks of a block that is to be answered now: one of a word that comes round a loop may wait for
    /// others in that loop, which may show it.
    fn choose(
        &mut self,
        program: &Program,
        asks: &[Ask],
        carried: Carried,
        sweep: &mut Sweep,
    ) -> Option<Ask> {
        for ask in asks {
            if let NotShown::Placed(_) | NotShown::Divisible(..) = ask.lack {
                let found = carried_word(program, ask, carried, sweep.head());
                let Some((word, was_tested)) = found else {
                    return Some(*ask);
                };
                let waits = match self.answered {
                    Answered::Certain => true,
                    Answered::OneInLoop => was_tested | sweep.has_tested(word.head),
                    Answered::OneOfWord => was_tested || sweep.tested.contains(&word),
                    Answered::All => false,
                };
                if !waits {
                    self.memory.push(&mut sweep.tested, word);
                    return Some(*ask);
                }
            }
        }
        None
    }

    /// Answers what isn't shown of a block of a chain, where this is known of its beginning, once, and puts the blocks
    /// that are made of it into the chain. Says whether something was answered.
    fn answer_first(
        &mut self,
        program: &mut Program,
        ranges: &Ranges,
        (function, block, cells, carried): (usize, usize, &[Cell], Carried),
        (chain, sweep): (&mut Chain, &mut Sweep),
        state: &mut State,
    ) -> bool {
        let asking = Asking {
            alloc: self.memory.alloc,
            program,
            ranges,
            by_object: self.by_object,
            wraps: self.wrapping.contains(&function),
        };
        let Ok(asks) = asks_behind(&asking, (function, block), cells, state) else {
            self.memory.is_refused = true;
            return false;
        };
        let Some(ask) = self.choose(program, asks.as_slice(), carried, sweep) else {
            return false;
        };
        let from = block_count(program, function);
        if let Some(plan) = plan_of(program, &ask) {
            chain.tested.insert(register(plan.register));
        }
        self.asked = Some(ask);
        self.refused = self.answer(program, &ask);
        if function < program.functions.len() {
            let blocks = program.functions[function].blocks.as_slice();
            chain.add(&mut self.memory, block, cells, carried);
            chain.reopen(&mut self.memory, blocks, block, from);
        }
        self.refused.is_ok()
    }

    /// Follows the ways of a block of a chain, where this is known of its beginning: to other blocks of the chain, and
    /// those that the first block of the chain had.
    fn follow(
        &mut self,
        swept: Swept<'_>,
        (function, block, cells, carried): (usize, usize, &[Cell], Carried),
        (chain, first, old): (&mut Chain, usize, [Option<usize>; 2]),
        sweep: &mut Sweep,
        state: &mut State,
    ) {
        let (program, ranges) = (swept.program, swept.ranges);
        if function >= program.functions.len() {
            return;
        }
        let code = (&program.functions[function], ranges.results());
        let carried = carried_at_end(program, (function, block), carried);
        let (live, ways) = (ranges.live(function), ways_of(program, function, block));
        let is_last = (ways[0] == old[0]) & (ways[1] == old[1]);
        for way in 0..2 {
            let memory = &mut self.memory;
            let to = ways[way].unwrap_or(usize::MAX);
            let from = (block, way);
            if ways[way].is_some() && chain.is_made(to) {
                let all = LocationSet::all();
                if let Some(found) = cells_along(memory, code, from, (cells, &all), state) {
                    chain.add(memory, to, found.as_slice(), carried);
                }
            } else if is_last
                && to < live.len()
                && let Some(found) = cells_along(memory, code, from, (cells, &live[to]), state)
            {
                sweep.add(memory, first, way, found.as_slice());
                sweep.leave(first, carried);
            }
        }
    }

    /// Goes over the block at a place of a function's order: if something isn't shown of it, or something else is known
    /// where it begins than the ranges have, over those that tests make of it, too.
    fn sweep_block(
        &mut self,
        program: &mut Program,
        ranges: &Ranges,
        (function, block, place, is_asked): (usize, usize, usize, bool),
        sweep: &mut Sweep,
        state: &mut State,
    ) {
        let carried = sweep.arrive(&mut self.memory, ranges, (function, block, place));
        let (mut cells, is_new) = sweep.entering(&mut self.memory, ranges, (function, block));
        if !(is_new | is_asked) {
            return sweep.leave(block, carried_at_end(program, (function, block), carried));
        }
        if !is_new {
            let at = (function, block);
            cells = known_cells(&mut self.memory, program, ranges, at, state);
        }
        sweep.begin(block);
        if let Some(cells) = cells {
            let known = (cells, carried);
            let at = (function, block, is_asked);
            self.sweep_chain(program, ranges, at, known, sweep, state);
        }
        sweep.leave(block, NOT_CARRIED);
        sweep.end(ranges, function, block);
    }

    /// Goes over a block of a function, where this is known of its beginning, and over those that tests make of it.
    fn sweep_chain(
        &mut self,
        program: &mut Program,
        ranges: &Ranges,
        (function, block, is_asked): (usize, usize, bool),
        known: (Vec<Cell>, Carried),
        sweep: &mut Sweep,
        state: &mut State,
    ) {
        let count = block_count(program, function);
        let old = ways_of(program, function, block);
        let mut chain = Chain::new(&mut self.memory, block, count, known);
        // what isn't answered then is answered in the next round
        let mut left = if is_asked {
            step_count(program, function, block)
                .saturating_mul(4)
                .saturating_add(8)
        } else {
            0
        };
        for _ in 0..usize::MAX {
            let Some((next, carried)) = chain.next() else {
                break;
            };
            if self.refused.is_ok()
                && let Some(cells) = chain.take(next)
            {
                let at = (function, next, cells.as_slice(), carried);
                let to = (&mut chain, &mut *sweep);
                if left > 0 && self.answer_first(program, ranges, at, to, state) {
                    left = left.saturating_sub(1);
                    self.memory.push(&mut self.changed, (function, next));
                } else {
                    let swept = Swept { program, ranges };
                    self.follow(swept, at, (&mut chain, block, old), sweep, state);
                }
            }
        }
    }

    /// Answers what isn't shown of a function, up to what can't be answered.
    pub fn answer_function(
        &mut self,
        program: &mut Program,
        ranges: &Ranges,
        function: usize,
        state: &mut State,
    ) {
        let count = block_count(program, function);
        let asked = self.look(program, ranges, (function, count), state);
        let asked = asked.as_slice();
        if !asked.contains(&true) {
            return;
        }
        let mut sweep = Sweep::new(&mut self.memory, count);
        let order = ranges.order(function);
        for place in 0..order.len() {
            if self.refused.is_ok() & !self.memory.is_refused {
                let block = order[place];
                let is_asked = block < asked.len() && asked[block];
                let at = (function, block, place, is_asked);
                self.sweep_block(program, ranges, at, &mut sweep, state);
            }
        }
    }
}
