//! The ranges of one function: what is known where its blocks begin, found by running blocks in the verifier's own
//! domain along all ways until nothing new comes. What callees give back and what the function is called with is told.
mod known;
mod news;
mod pending;
mod picking;
mod spread;
mod visiting;

use crate::flow::known::{BlockRanges, is_told, touched_in};
use crate::flow::news::News;
use crate::flow::pending::Pending;
use fit_cells::{
    Growth, Thresholds, enter, go_along, join, range_from, return_from, run_step, run_to_call,
    start,
};
use fit_code::{Block, End, Function, Heap, hull};
use fit_graph::successors_in;
use fit_live::{FunctionShape, LocationSet, Means};
use sbx_domain::State;
use sbx_range::{Cell, Range, all};
use std::alloc::Global;
use std::mem;

/// What a function is analysed by: itself, where its ranges may stop, and what calls give it.
#[derive(Clone, Copy)]
pub struct Analysis<'a> {
    pub function: &'a Function,
    pub shape: &'a FunctionShape,
    pub thresholds: &'a Thresholds,
    /// Where the ranges of all functions may.
    pub common: &'a Thresholds,
    pub results: &'a [Vec<Range>],
    /// Of each block the cells that are said, by location: their ranges are those and no others. None of blocks that
    /// aren't named here.
    pub said: &'a [Vec<Cell>],
}

/// A call with what its callee is given in %o0, %o1, .., where an undefined word is 0.
#[derive(Clone, Copy)]
pub struct Call {
    pub block: usize,
    pub callee: usize,
    pub given: [Range; 6],
}

/// Where blocks run: in the verifier's own domain, once for both ways.
#[derive(Drop)]
pub struct WayStates {
    pub state: State,
    /// Where the second way of a branch goes on.
    pub second: State,
}

/// What is known of one function.
#[derive(Drop)]
pub struct FunctionRanges {
    /// What is known of each block.
    pub blocks: Vec<BlockRanges>,
    /// What the function is called with, in %o0, %o1, ..
    pub params: Vec<Range>,
    pending: Pending,
    /// Where its ranges may stop, as long as neither its blocks nor its params are others.
    pub thresholds: Option<Thresholds>,
    /// Calls to which control comes.
    pub calls: Vec<Call>,
    /// What returns leave in %o0, %o1, ..; nothing where none is reached.
    pub returned: Option<[Range; 6]>,
}

/// The range of 0 alone.
const ZERO: Range = Range {
    lo: 0,
    hi: 0,
    alignment: 3,
};

/// What %o0 to %o5 hold, where an undefined one stands for a range.
fn outs(state: &State, undefined: Range) -> [Range; 6] {
    let mut outs = [undefined; 6];
    for place in 0..6u16 {
        if let Some(range) = state.range(8 + place) {
            outs[usize::from(place)] = range;
        }
    }
    outs
}

/// Leaves in each place the least range that holds the words of it and of what stands there in others; these themselves
/// where nothing was found before.
pub fn add_outs(found: &mut Option<[Range; 6]>, outs: &[Range; 6]) {
    match found {
        Some(ranges) => {
            for place in 0..6 {
                ranges[place] = hull(ranges[place], outs[place]);
            }
        }
        None => *found = Some(*outs),
    }
}

/// The list at a place of others; an empty one where there is none.
pub fn at<T>(lists: &[Vec<T>], place: usize) -> &[T] {
    if place < lists.len() {
        lists[place].as_slice()
    } else {
        &[]
    }
}

/// What was live where the blocks of the function of a number begin, and the ways that led to them, where functions had
/// these shapes; of no blocks where there is no such function.
fn known_before(shapes: &[FunctionShape], number: usize) -> (&[LocationSet], &[Vec<usize>]) {
    if number < shapes.len() {
        let shape = &shapes[number];
        (shape.live.as_slice(), shape.sources.as_slice())
    } else {
        (&[], &[])
    }
}

/// Lists the calls of a block with what they give their callees, where the state is that before its first step; it is
/// that behind the last one then.
fn list_calls(
    memory: &mut Heap,
    setting: &Analysis,
    (block, code): (usize, &Block),
    calls: &mut Vec<Call>,
    state: &mut State,
) {
    for step in code.steps.as_slice() {
        run_to_call(setting.function.frame, step, state);
        if let Some(callee) = step.callee {
            let call = Call {
                block,
                callee,
                given: outs(state, ZERO),
            };
            memory.push(calls, call);
            return_from(setting.results, callee, state);
        }
    }
}

/// A list of cells has room for so many more at once than are known where the block begins.
const MORE: usize = 4;

/// What is known behind a block in a frame of so many bytes, of the locations that are asked: of those that the block
/// touches what the state knows, and of the others what is known where it begins.
fn cells_behind(
    memory: &mut Heap,
    (frame, asked): (u32, &LocationSet),
    (touched, before): (&LocationSet, &[Cell]),
    state: &State,
) -> Vec<Cell> {
    let room = asked.count().min(before.len().saturating_add(MORE));
    let mut cells = match Vec::with_capacity(memory.alloc, room) {
        Ok(cells) => cells,
        Err(_) => {
            memory.is_refused = true;
            return Vec::new(memory.alloc);
        }
    };
    // word k of the frame, at 64 + 4 k bytes of it, is location 32 + k
    let end = (32 + frame.min(4_096) / 4) as u16;
    let (mut next, mut place): (u16, usize) = (1, 0);
    for _ in 1..end {
        let location = match asked.first_from(next) {
            Some(location) if location < end => location,
            _ => break,
        };
        let known = if touched.has(location) {
            state.range(location)
        } else {
            range_from(before, &mut place, location)
        };
        if let Some(range) = known {
            memory.push(&mut cells, Cell { location, range });
        }
        next = location.saturating_add(1);
    }
    cells
}

/// What is known where a way of a block ends, of what is live there, where the state is that behind the block's steps,
/// of what it touches, and the cells are those where it begins; nothing where it can't be gone.
fn known_along(
    setting: &Analysis,
    memory: &mut Heap,
    (code, way, to): (&Block, usize, usize),
    known: (&LocationSet, &[Cell]),
    state: &mut State,
) -> Option<Vec<Cell>> {
    let (frame, live) = (setting.function.frame, setting.shape.live.as_slice());
    if !go_along(frame, code, way, state) {
        return None;
    }
    if to < live.len() {
        return Some(cells_behind(memory, (frame, &live[to]), known, state));
    }
    Some(Vec::new(memory.alloc))
}

/// Adds what is known along one more way to what is known along others, of all locations or of some.
fn add_cells(
    memory: &mut Heap,
    found: &mut Option<Vec<Cell>>,
    cells: &[Cell],
    within: Option<&News>,
) {
    match found {
        Some(found) => join(Growth::Least, found, cells),
        None => {
            *found = Some(match within {
                Some(news) => news.among(memory, cells),
                None => memory.copy(cells),
            });
        }
    }
}

/// Puts the ways that aren't among others behind those of a list.
fn push_others(memory: &mut Heap, list: &mut Vec<usize>, ways: &[usize], others: &[usize]) {
    for way in ways {
        if !others.contains(way) {
            memory.push(list, *way);
        }
    }
}

impl FunctionRanges {
    /// Nothing is known, and of no function.
    pub fn nothing(alloc: Global) -> FunctionRanges {
        FunctionRanges {
            blocks: Vec::new(alloc),
            params: Vec::new(alloc),
            pending: Pending::new(alloc),
            thresholds: None,
            calls: Vec::new(alloc),
            returned: None,
        }
    }

    /// A block that runs otherwise than before is to be visited.
    fn ask(&mut self, block: usize) {
        self.pending.mark(block);
        let blocks = self.blocks.as_mut_slice();
        if block < blocks.len() {
            blocks[block].is_other = true;
            blocks[block].is_fresh = true;
        }
    }

    /// The blocks that call a function are to be visited again: with the loops around them, and what stands behind
    /// these as far as what comes there changes.
    pub fn mark_calls(&mut self, callee: usize) {
        for place in 0..self.calls.len() {
            if place < self.calls.len() {
                let call = self.calls[place];
                if call.callee == callee {
                    self.ask(call.block);
                }
            }
        }
    }

    /// The blocks of the function of a number that were changed are to be visited.
    fn ask_changed(&mut self, number: usize, changed: &[(usize, usize)]) {
        for (function, block) in changed {
            if *function == number {
                self.ask(*block);
            }
        }
    }

    /// Those from which some ways lead are to be visited.
    fn ask_sources(&mut self, ways: &[usize]) {
        for way in ways {
            self.ask(*way / 2);
        }
    }

    /// Nothing is fresh, and there are so many blocks.
    fn begin_anew(&mut self, memory: &mut Heap, count: usize) {
        self.thresholds = None;
        for block in self.blocks.as_mut_slice() {
            block.is_fresh = false;
        }
        self.grow(memory, count);
        self.pending.begin(memory, count);
    }

    /// There are at least so many blocks: of new ones nothing is known.
    fn grow(&mut self, memory: &mut Heap, count: usize) {
        for _ in self.blocks.len()..count {
            memory.push(&mut self.blocks, BlockRanges::nothing(memory.alloc));
        }
    }

    /// Other ways lead to a block than before: it is to be visited.
    fn lead_to(&mut self, memory: &mut Heap, block: usize, sources: &[usize], before: &[usize]) {
        self.pending.mark(block);
        let mut lost: Option<Vec<Cell>> = None;
        for way in before {
            if !sources.contains(way)
                && let Some(cells) = self.way_cells(*way / 2, *way % 2)
            {
                add_cells(memory, &mut lost, cells, None);
            }
        }
        let blocks = self.blocks.as_mut_slice();
        if block < blocks.len() {
            blocks[block].lost = lost;
            push_others(memory, &mut blocks[block].came, sources, before);
        }
    }

    /// Takes over the function of a number and its shape, where functions had these shapes before, and blocks that are
    /// among `changed` are others than then. These are to be visited, those that are new or to which other ways lead,
    /// and those from which ways lead to where other locations are live.
    pub fn renew(
        &mut self,
        memory: &mut Heap,
        (number, shape): (usize, &FunctionShape),
        before: &[FunctionShape],
        changed: &[(usize, usize)],
    ) {
        let live = shape.live.as_slice();
        let (live_before, sources_before) = known_before(before, number);
        self.begin_anew(memory, live.len());
        self.ask_changed(number, changed);
        for block in 0..live.len() {
            let is_new = block >= live_before.len();
            let sources = at(shape.sources.as_slice(), block);
            let earlier = at(sources_before, block);
            if is_new {
                self.ask(block);
            } else if sources != earlier {
                self.lead_to(memory, block, sources, earlier);
            }
            if is_new || live[block] != live_before[block] {
                self.ask_sources(sources);
            }
        }
    }

    /// What is known where a block begins.
    pub fn cells(&self, block: usize) -> Option<&[Cell]> {
        if block < self.blocks.len()
            && let Some(cells) = &self.blocks[block].cells
        {
            return Some(cells.as_slice());
        }
        None
    }

    /// What is known where a way of a block ends.
    pub fn way_cells(&self, block: usize, way: usize) -> Option<&[Cell]> {
        if block < self.blocks.len()
            && let Some(cells) = &self.blocks[block].ways[way % 2]
        {
            return Some(cells.as_slice());
        }
        None
    }

    /// Begins a block, with forms or without; says whether control can come there.
    pub fn begin(
        &self,
        function: &Function,
        (block, has_forms): (usize, bool),
        state: &mut State,
    ) -> bool {
        if block == 0 {
            enter(function, self.params.as_slice(), has_forms, state);
            return true;
        }
        match self.cells(block) {
            Some(cells) => {
                start(cells, has_forms, state);
                true
            }
            None => false,
        }
    }

    /// Begins a block with what is known of these locations alone, without forms; says whether control can come there.
    fn begin_with(
        &self,
        function: &Function,
        (block, touched): (usize, &LocationSet),
        state: &mut State,
    ) -> bool {
        if block == 0 {
            return self.begin(function, (block, false), state);
        }
        let Some(cells) = self.cells(block) else {
            return false;
        };
        state.start(&[]);
        for cell in cells {
            if touched.has(cell.location) {
                state.set(cell.location, Some(cell.range));
            }
        }
        true
    }

    /// Runs a block of a program with these results from its beginning along one of its ways, with forms; says whether
    /// that can be gone.
    pub fn run(
        &self,
        function: &Function,
        results: &[Vec<Range>],
        (block, way): (usize, usize),
        state: &mut State,
    ) -> bool {
        let codes = function.blocks.as_slice();
        if block >= codes.len() || !self.begin(function, (block, true), state) {
            return false;
        }
        let code = &codes[block];
        for step in code.steps.as_slice() {
            run_step(function.frame, results, step, state);
        }
        go_along(function.frame, code, way, state)
    }

    /// Runs the steps of a block, by what is known where it begins of these locations, which it reads or writes; says
    /// whether control can come there.
    fn run_steps(
        &self,
        setting: &Analysis,
        (block, touched): (usize, &LocationSet),
        state: &mut State,
    ) -> bool {
        let function = setting.function;
        let codes = function.blocks.as_slice();
        if block >= codes.len() || !self.begin_with(function, (block, touched), state) {
            return false;
        }
        for step in codes[block].steps.as_slice() {
            run_step(function.frame, setting.results, step, state);
        }
        true
    }

    /// What is known where the ways of a block end, of what is live there, by what is known where it begins; nothing of
    /// one that can't be gone. It reads or writes these locations, and passes on what is known of others as it comes.
    fn ways_by(
        &self,
        setting: &Analysis,
        memory: &mut Heap,
        (block, touched): (usize, &LocationSet),
        run: &mut WayStates,
    ) -> [Option<Vec<Cell>>; 2] {
        let mut found = [None, None];
        let codes = setting.function.blocks.as_slice();
        let is_reached = self.run_steps(setting, (block, touched), &mut run.state);
        if !is_reached | (block >= codes.len()) {
            return found;
        }
        let code = &codes[block];
        let [first, second] = code.end.ways();
        // behind the first block, of which no cells are known, the state knows all
        let all = LocationSet::all();
        let touched = if block == 0 { &all } else { touched };
        let known = (touched, self.cells(block).unwrap_or(&[]));
        if let Some(to) = second {
            // (the first way says more of what was compared)
            run.state.copy_to(&mut run.second);
            found[1] = known_along(setting, memory, (code, 1, to), known, &mut run.second);
        }
        if let Some(to) = first {
            found[0] = known_along(setting, memory, (code, 0, to), known, &mut run.state);
        }
        found
    }

    /// What a block reads or writes.
    fn touched(&self, block: usize) -> LocationSet {
        if block < self.blocks.len() {
            self.blocks[block].touched
        } else {
            LocationSet::all()
        }
    }

    /// The same by what was known there before, of what the block doesn't touch.
    fn ways_on(&self, memory: &mut Heap, block: usize) -> [Option<Vec<Cell>>; 2] {
        if block < self.blocks.len() {
            let known = &self.blocks[block];
            return [known.passed_on(memory, 0), known.passed_on(memory, 1)];
        }
        [None, None]
    }

    /// Looks for what callees are given, and what returns leave: in each block that control comes to.
    fn summarize(
        &self,
        setting: &Analysis,
        memory: &mut Heap,
        state: &mut State,
    ) -> (Vec<Call>, Option<[Range; 6]>) {
        let (function, mut calls, mut returned) = (setting.function, Vec::new(memory.alloc), None);
        let codes = function.blocks.as_slice();
        for block in 0..codes.len() {
            let code = &codes[block];
            let is_told = block < self.blocks.len() && self.blocks[block].is_told;
            if is_told && self.begin(function, (block, false), state) {
                list_calls(memory, setting, (block, code), &mut calls, state);
                if let End::Return(fields) = code.end {
                    if function.framed {
                        state.restore(&fields);
                    }
                    add_outs(&mut returned, &outs(state, all(0)));
                }
            }
        }
        (calls, returned)
    }

    /// Forgets what is known of the blocks of the stretch that are looked at again.
    fn forget_stretch(&mut self, setting: &Analysis) {
        let order = setting.shape.order.blocks.as_slice();
        let codes = setting.function.blocks.as_slice();
        for place in self.pending.start..self.pending.end {
            if place < order.len() {
                let block = order[place];
                let is_in = self.pending.has(block);
                let blocks = self.blocks.as_mut_slice();
                if is_in & (block < codes.len()) & (block < blocks.len()) {
                    let known = &mut blocks[block];
                    if known.is_other {
                        known.touched = touched_in(setting.function, &codes[block]);
                        known.is_told = is_told(&codes[block]);
                    }
                    known.forget();
                }
            }
        }
    }

    /// The ranges of the stretch are found: the blocks behind it are to be visited to which something else comes than
    /// before it was forgotten.
    fn mark_behind(&mut self, setting: &Analysis) {
        let order = &setting.shape.order;
        let places = order.blocks.as_slice();
        let start = self.pending.start.saturating_mul(2);
        for way in start..self.pending.end.saturating_mul(2) {
            if way / 2 < places.len() {
                let block = places[way / 2];
                if self.pending.has(block)
                    && let Some(to) = successors_in(setting.function, block)[way % 2]
                    && order.place(to) >= Some(self.pending.end)
                {
                    self.mark_target(block, way % 2, to);
                }
            }
        }
    }

    /// A block is to be visited, if something else comes to it along a way of another one than before.
    fn mark_target(&mut self, block: usize, way: usize, to: usize) {
        let blocks = self.blocks.as_mut_slice();
        if (block < blocks.len()) & (to < blocks.len()) && blocks[block].is_changed(way) {
            let locations = blocks[block].differing_along(way);
            let _grew = blocks[to].spread.add(&locations);
            self.pending.mark(to);
        }
    }

    /// The ranges of the blocks of the stretch that were looked at are found.
    fn end_stretch(&mut self, setting: &Analysis) {
        let order = setting.shape.order.blocks.as_slice();
        for place in self.pending.start..self.pending.end {
            if place < order.len() {
                let block = order[place];
                let is_in = self.pending.has(block);
                let blocks = self.blocks.as_mut_slice();
                if is_in & (block < blocks.len()) {
                    blocks[block].found();
                }
            }
        }
    }

    /// Takes over what the function is called with: it is looked at from its first block on, where that is new. Says
    /// whether something is to be visited.
    pub fn takes(&mut self, params: Vec<Range>) -> bool {
        if self.params != params {
            self.ask(0);
            self.thresholds = None;
        }
        self.params = params;
        self.pending.blocks.as_slice().contains(&true)
    }

    /// Finds the ranges of the blocks of the stretch that are looked at again, by what comes to them: first they grow,
    /// then they get narrower, and then they grow again, where that broke something.
    fn find_stretch(&mut self, setting: &Analysis, means: &mut Means, run: &mut WayStates) {
        self.forget_stretch(setting);
        self.visit_all(setting, means, true, run);
        self.visit_all(setting, means, false, run);
        self.visit_all(setting, means, true, run);
        self.mark_behind(setting);
        self.end_stretch(setting);
    }

    /// Finds the ranges of the stretch anew, by what comes into it: of the blocks alone to which a change may come,
    /// where these are few, and nothing else comes from them to the others.
    fn settle_stretch(&mut self, setting: &Analysis, means: &mut Means, run: &mut WayStates) {
        self.pending.is_whole = !self.pick(setting, &mut means.memory, run);
        self.find_stretch(setting, means, run);
        if !self.pending.is_whole && self.leaks(setting) {
            self.pending.is_whole = true;
            self.find_stretch(setting, means, run);
        }
    }

    /// Finds the ranges, by what is to be visited. A stretch of the order begins where no way leads back behind it, so
    /// that what stands before it is looked at once. Where something else comes out of it than before, that is to be
    /// visited.
    pub fn settle(&mut self, setting: &Analysis, means: &mut Means, run: &mut WayStates) {
        let order = setting.shape.order.blocks.as_slice();
        let mut is_asked = false;
        self.pending.end = 0;
        for place in 0..order.len() {
            if place == self.pending.end {
                self.pending.start = place;
                is_asked = false;
            }
            is_asked |= self.pending.is_asked(order[place]);
            let behind = place.saturating_add(1);
            let end = setting.shape.end_of(order[place]).max(behind);
            self.pending.end = self.pending.end.max(end);
            if is_asked & (self.pending.end == behind) {
                self.settle_stretch(setting, means, run);
            }
        }
        (self.calls, self.returned) = self.summarize(setting, &mut means.memory, &mut run.state);
    }
}
