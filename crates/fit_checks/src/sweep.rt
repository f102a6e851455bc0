//! The knowledge of a function while tests are put into it. Each narrows what comes behind it, which is followed along
//! the function's order: what a test shows is known before a later one is asked for.
use fit_cells::{Growth, cells_of, go_along, join, range_in, run_step, start};
use fit_code::{Block, Function, Heap, RegisterSet, Step};
use fit_live::{LocationSet, effects_in};
use fit_ranges::Ranges;
use sbx_domain::State;
use sbx_range::{Cell, Range, is_within};
use std::mem::replace;
use v8_meaning::{Operation, operation_of};

/// What is known where each of a block's ways ends; nothing of one that can't be gone.
#[derive(Drop)]
struct BlockEnds {
    ways: [Option<Vec<Cell>>; 2],
}

/// A loop that the sweep is in: its head, and the place of the order behind its last block.
#[derive(Clone, Copy)]
struct OpenLoop {
    head: usize,
    end: usize,
}

/// A word that comes round a loop and that isn't shown to lie where it has to: the loop's head, the register, and the
/// object.
#[derive(Clone, Copy, PartialEq, Eq)]
pub struct CarriedWord {
    pub head: usize,
    pub register: u8,
    pub object: Option<usize>,
}

/// What is known of the blocks of a function where it isn't what the ranges have.
#[derive(Drop)]
pub struct Sweep {
    /// Whether something else is known where the ways of a block end, by its number.
    is_new: Vec<bool>,
    ends: Vec<BlockEnds>,
    /// Whether a block was gone over, and the registers whose words may come, at its end, round a loop from blocks that
    /// weren't. What is known of these may be narrower once the ranges are found anew.
    is_swept: Vec<bool>,
    carried: Vec<Carried>,
    /// The loops around the block that is gone over, an inner one behind those around it.
    loops: Vec<OpenLoop>,
    /// Words that come round loops of which there are tests.
    pub tested: Vec<CarriedWord>,
}

/// Of which registers the ranges that are found anew may say more.
#[derive(Clone, Copy)]
pub struct Carried {
    /// Those whose words may come round a loop from blocks that weren't gone over.
    pub round: RegisterSet,
    /// Those of them that were tested since, or are worked out from such ones.
    pub tested: RegisterSet,
}

/// None.
pub const NOT_CARRIED: Carried = Carried {
    round: RegisterSet::NONE,
    tested: RegisterSet::NONE,
};

/// What a set of registers is behind a step that works out what it writes from what it reads: one of those that it
/// reads is in the set, and so is what it writes then.
fn passed(set: RegisterSet, reads: RegisterSet, writes: RegisterSet) -> RegisterSet {
    if reads.is_disjoint(set) {
        set.difference(writes)
    } else {
        set.union(writes)
    }
}

impl Carried {
    /// Those behind some steps.
    pub fn behind(self, frame: u32, steps: &[Step]) -> Carried {
        let mut found = self;
        if found.round.is_empty() & found.tested.is_empty() {
            return found;
        }
        for step in steps {
            let effects = effects_in(frame, step);
            let is_computed = matches!(operation_of(&step.instr()), Operation::Compute(..));
            let reads = if is_computed & step.callee.is_none() {
                effects.reads.registers()
            } else {
                RegisterSet::NONE
            };
            let writes = effects.writes.registers();
            found.round = passed(found.round, reads, writes);
            found.tested = passed(found.tested, reads, writes);
        }
        found
    }

    /// Adds others.
    fn add(&mut self, others: Carried) {
        self.round.add(others.round);
        self.tested.add(others.tested);
    }
}

/// The registers of which cells have other words than some cells beside them.
fn wider_in(cells: &[Cell], beside: &[Cell]) -> RegisterSet {
    let mut wider = RegisterSet::NONE;
    for cell in cells {
        if cell.location < 32
            && let Some(range) = range_in(beside, cell.location)
            && !is_within(cell.range, range)
        {
            wider.add(RegisterSet::range((cell.location % 32) as u8, 1));
        }
    }
    wider
}

/// Whether both are the same cells.
fn are_same(a: &[Cell], b: &[Cell]) -> bool {
    let mut are_same = a.len() == b.len();
    for place in 0..a.len() {
        if place < b.len() {
            let (one, other) = (&a[place], &b[place]);
            are_same &= (one.location == other.location) & (one.range == other.range);
        }
    }
    are_same
}

/// Adds what is known along one more way to what is known along others.
fn add_way(memory: &mut Heap, found: &mut Option<Vec<Cell>>, cells: &[Cell]) {
    match found {
        Some(found) => join(Growth::Least, found, cells),
        None => *found = Some(memory.copy(cells)),
    }
}

/// What is known where a way of a block ends, of these locations, if this is known where it begins; nothing where that
/// way can't be gone.
pub fn cells_along(
    memory: &mut Heap,
    (function, results): (&Function, &[Vec<Range>]),
    (block, way): (usize, usize),
    (cells, asked): (&[Cell], &LocationSet),
    state: &mut State,
) -> Option<Vec<Cell>> {
    if block >= function.blocks.len() {
        return None;
    }
    start(cells, false, state);
    let code = &function.blocks[block];
    for step in code.steps.as_slice() {
        run_step(function.frame, results, step, state);
    }
    if go_along(function.frame, code, way, state) {
        return Some(cells_of(memory, function.frame, asked, state));
    }
    None
}

impl Sweep {
    /// Of so many blocks nothing else is known than the ranges have.
    pub fn new(memory: &mut Heap, count: usize) -> Sweep {
        let mut ends = Vec::new(memory.alloc);
        for _ in 0..count {
            memory.push(&mut ends, BlockEnds { ways: [None, None] });
        }
        Sweep {
            is_new: memory.repeat(false, count),
            ends,
            is_swept: memory.repeat(false, count),
            carried: memory.repeat(NOT_CARRIED, count),
            loops: Vec::new(memory.alloc),
            tested: Vec::new(memory.alloc),
        }
    }

    /// The block at a place of the order is gone over next. Gives the registers whose words may come round a loop where
    /// it begins: those of which more is possible along the ways from blocks that weren't gone over yet than along the
    /// others, and those that were such ones before.
    pub fn arrive(
        &mut self,
        memory: &mut Heap,
        ranges: &Ranges,
        (function, block, place): (usize, usize, usize),
    ) -> Carried {
        self.leave_loops(place);
        let mut carried = NOT_CARRIED;
        for way in ranges.ways_to(function, block) {
            let from = *way / 2;
            if self.was_swept(from) && from < self.carried.len() {
                carried.add(self.carried[from]);
            }
        }
        let end = ranges.loop_end(function, block);
        if end > place {
            memory.push(&mut self.loops, OpenLoop { head: block, end });
            if let Some(onward) = self.onward(memory, ranges, (function, block)) {
                self.carry_back(ranges, (function, block), onward.as_slice(), &mut carried);
            }
        }
        carried
    }

    /// What the ways to a block have in common from those that were gone over; nothing where none of them can be gone.
    fn onward(
        &self,
        memory: &mut Heap,
        ranges: &Ranges,
        (function, block): (usize, usize),
    ) -> Option<Vec<Cell>> {
        let mut found = None;
        for way in ranges.ways_to(function, block) {
            if self.was_swept(*way / 2) {
                self.join_way(memory, ranges, (function, *way), &mut found);
            }
        }
        found
    }

    /// Adds the registers of which more is possible, along the ways to a block from those that weren't gone over yet,
    /// than these cells have.
    fn carry_back(
        &self,
        ranges: &Ranges,
        (function, block): (usize, usize),
        onward: &[Cell],
        carried: &mut Carried,
    ) {
        for way in ranges.ways_to(function, block) {
            if !self.was_swept(*way / 2)
                && let Some(cells) = ranges.way_cells(function, *way / 2, *way % 2)
            {
                carried.round.add(wider_in(cells, onward));
            }
        }
    }

    /// Whether a block was gone over.
    fn was_swept(&self, block: usize) -> bool {
        block < self.is_swept.len() && block < self.carried.len() && self.is_swept[block]
    }

    /// Leaves the loops that end before a place of the order.
    fn leave_loops(&mut self, place: usize) {
        for _ in 0..self.loops.len() {
            match self.loops.last() {
                Some(last) if last.end <= place => {
                    self.loops.pop();
                }
                _ => return,
            }
        }
    }

    /// The head of the innermost loop around the block that is gone over; that is no block's number where there is
    /// none.
    pub fn head(&self) -> usize {
        match self.loops.last() {
            Some(last) => last.head,
            None => usize::MAX,
        }
    }

    /// Whether there is a test of a word that comes round the loop of a head.
    pub fn has_tested(&self, head: usize) -> bool {
        let mut is_found = false;
        for word in self.tested.as_slice() {
            is_found |= word.head == head;
        }
        is_found
    }

    /// A block was gone over, at whose end the words of these registers may come round a loop.
    pub fn leave(&mut self, block: usize, carried: Carried) {
        if block < self.is_swept.len() && block < self.carried.len() {
            self.is_swept[block] = true;
            self.carried[block].add(carried);
        }
    }

    /// Adds what is known where a way ends, which is given by its number.
    fn join_way(
        &self,
        memory: &mut Heap,
        ranges: &Ranges,
        (function, way): (usize, usize),
        found: &mut Option<Vec<Cell>>,
    ) {
        let from = way / 2;
        if from < self.is_new.len() && from < self.ends.len() && self.is_new[from] {
            if let Some(cells) = &self.ends[from].ways[way % 2] {
                add_way(memory, found, cells.as_slice());
            }
        } else if let Some(cells) = ranges.way_cells(function, from, way % 2) {
            add_way(memory, found, cells);
        }
    }

    /// Whether something else is known where a way ends that leads to a block.
    fn is_led_to(&self, ranges: &Ranges, function: usize, block: usize) -> bool {
        let mut is_new = false;
        for way in ranges.ways_to(function, block) {
            let from = *way / 2;
            is_new |= from < self.is_new.len() && self.is_new[from];
        }
        is_new
    }

    /// What is known where a block begins, if that isn't what the ranges have; and whether it isn't.
    pub fn entering(
        &self,
        memory: &mut Heap,
        ranges: &Ranges,
        (function, block): (usize, usize),
    ) -> (Option<Vec<Cell>>, bool) {
        if !self.is_led_to(ranges, function, block) {
            return (None, false);
        }
        let mut found = None;
        for way in ranges.ways_to(function, block) {
            self.join_way(memory, ranges, (function, *way), &mut found);
        }
        let is_same = match (&found, ranges.cells(function, block)) {
            (Some(found), Some(known)) => are_same(found.as_slice(), known),
            _ => false,
        };
        (found, !is_same)
    }

    /// Something else is known where the ways of a block end: nothing yet.
    pub fn begin(&mut self, block: usize) {
        if block < self.is_new.len() && block < self.ends.len() {
            self.is_new[block] = true;
            let _before = replace(&mut self.ends[block].ways, [None, None]);
        }
    }

    /// Adds what is known where a way of a block ends.
    pub fn add(&mut self, memory: &mut Heap, block: usize, way: usize, cells: &[Cell]) {
        if block < self.ends.len() {
            add_way(memory, &mut self.ends[block].ways[way % 2], cells);
        }
    }

    /// What is known where the ways of a block end is there: it may be what the ranges have.
    pub fn end(&mut self, ranges: &Ranges, function: usize, block: usize) {
        let mut is_new = false;
        for way in 0..2 {
            if block < self.ends.len() {
                let known = ranges.way_cells(function, block, way);
                is_new |= match (&self.ends[block].ways[way], known) {
                    (Some(found), Some(known)) => !are_same(found.as_slice(), known),
                    (None, None) => false,
                    _ => true,
                };
            }
        }
        if block < self.is_new.len() {
            self.is_new[block] = is_new;
        }
    }
}

/// Blocks that are to be gone over, from a first one on: those that tests made of it.
#[derive(Drop)]
pub struct Chain {
    /// The first one, and how many blocks the function had before: the others are those from that number on.
    first: usize,
    count: usize,
    /// What is known where they begin, and which registers' words may come round a loop there.
    cells: Vec<Option<Vec<Cell>>>,
    carried: Vec<Carried>,
    /// The registers that were tested whose words come round a loop.
    pub tested: RegisterSet,
    /// Those that are to be gone over, the next one last.
    open: Vec<usize>,
}

/// Puts the blocks that a block's end goes to behind those of a list, to be entered.
fn push_ways(memory: &mut Heap, behind: &mut Vec<(usize, bool)>, block: &Block) {
    for way in block.end.ways() {
        if let Some(to) = way {
            memory.push(behind, (to, false));
        }
    }
}

impl Chain {
    /// The first one alone, of which this is known.
    pub fn new(
        memory: &mut Heap,
        first: usize,
        count: usize,
        (cells, carried): (Vec<Cell>, Carried),
    ) -> Chain {
        let mut chain = Chain {
            first,
            count,
            cells: Vec::new(memory.alloc),
            carried: memory.copy(&[carried]),
            tested: RegisterSet::NONE,
            open: memory.copy(&[first]),
        };
        memory.push(&mut chain.cells, Some(cells));
        chain
    }

    /// Whether a block is one of those that were made.
    pub fn is_made(&self, block: usize) -> bool {
        block >= self.count
    }

    /// The place of a block of the chain in its lists; none of another one.
    fn place(&self, block: usize) -> Option<usize> {
        if block == self.first {
            Some(0)
        } else if block >= self.count {
            Some(block.saturating_sub(self.count).saturating_add(1))
        } else {
            None
        }
    }

    /// The next block, and the registers whose words may come round a loop where it begins.
    pub fn next(&mut self) -> Option<(usize, Carried)> {
        let block = self.open.pop()?;
        let place = self.place(block).unwrap_or(usize::MAX);
        let carried = if place < self.carried.len() {
            self.carried[place]
        } else {
            NOT_CARRIED
        };
        Some((block, carried))
    }

    /// What is known where a block begins, which is forgotten then; nothing where no way comes there.
    pub fn take(&mut self, block: usize) -> Option<Vec<Cell>> {
        let place = self.place(block)?;
        if place < self.cells.len() {
            replace(&mut self.cells[place], None)
        } else {
            None
        }
    }

    /// Adds what is known along a way to a block of the chain, and the registers whose words may come round a loop.
    pub fn add(&mut self, memory: &mut Heap, block: usize, cells: &[Cell], carried: Carried) {
        let Some(place) = self.place(block) else {
            return;
        };
        for _ in self.cells.len()..place.saturating_add(1) {
            memory.push(&mut self.cells, None);
            memory.push(&mut self.carried, NOT_CARRIED);
        }
        if place < self.cells.len() && place < self.carried.len() {
            add_way(memory, &mut self.cells[place], cells);
            self.carried[place].add(carried);
            if block != self.first {
                let tested = carried.round.intersection(self.tested);
                self.carried[place].tested.add(tested);
            }
        }
    }

    /// A block is to be gone over again, since blocks from a number on were made of it: these behind it, each before
    /// those that follow it.
    pub fn reopen(&mut self, memory: &mut Heap, blocks: &[Block], block: usize, from: usize) {
        let mut entered = memory.repeat(false, blocks.len());
        let entered = entered.as_mut_slice();
        // blocks that are to be entered, and such that were and are to be left: these stand below the blocks of their
        // ways
        let mut behind = memory.copy(&[(block, false)]);
        for _ in 0..blocks.len().saturating_mul(3).saturating_add(1) {
            let Some((next, is_left)) = behind.pop() else {
                break;
            };
            if is_left {
                memory.push(&mut self.open, next);
            } else if next < entered.len()
                && next < blocks.len()
                && !entered[next]
                && (next == block) | (next >= from)
            {
                entered[next] = true;
                memory.push(&mut behind, (next, true));
                push_ways(memory, &mut behind, &blocks[next]);
            }
        }
    }
}
