//! Joining functions to the first one.
use crate::assembling::Placed;
use crate::keeping::{BASE, Keep, NUMBER, kept, push_number, push_step};
use crate::moving::{moves, push_moved, push_way, way_moved};
use crate::returning::{
    StackPlace, push_entry, push_full, push_giving, push_halves, push_open, push_within,
};
use crate::splitting::joined_callee;
use fit_blocks::{Part, WayBack};
use fit_code::{Block, End, Function, Heap, RegisterSet, SourceLine, Step};
use fit_cuts::register;
use fit_live::{Effects, FunctionShape, RegisterCounts, effects_in};
use std::{mem, slice};
use v8_formats::{Cond, Instr, Operand, Reg, Three};

/// Where the word of the first function's frame stands that keeps what points into the soft stack over a CALL.
const FIRST_WORD: u32 = 64;

/// The most places that a function returns to.
const SITES: usize = 4096;

/// The globals that programs name, which no call leaves as they were.
fn globals() -> RegisterSet {
    RegisterSet::GLOBALS.difference(RegisterSet::SCRATCH)
}

/// The outs without results, %o2 to %o5, which no call leaves as they were.
fn outs() -> RegisterSet {
    RegisterSet::range(10, 4)
}

const NOT_KEPT: &str = "a value in a register that a call doesn't keep";

/// The registers that a function may ask for though nothing was written to them: globals, and in one with a window outs
/// and locals.
fn unwritten(framed: bool) -> RegisterSet {
    if framed {
        let outs = RegisterSet::range(8, 6);
        globals().union(outs).union(RegisterSet::LOCALS)
    } else {
        globals()
    }
}

/// The outs in which what keeps a way back is told where, and in which that is told behind it.
const KEPT_AT: u8 = 8;

const CAME_BY: u8 = 9;

/// How the steps of a block end.
#[derive(Clone, Copy)]
enum LastStep {
    /// By a call of a function that is joined, at a line.
    Called(usize, SourceLine),
    /// By a move of the soft stack's pointer.
    Moved,
}

/// Functions that are joined, as far as that is done.
#[derive(Drop)]
pub struct Joiner<'j> {
    pub memory: Heap,
    pub parts: &'j [Part],
    pub counts: &'j [RegisterCounts],
    pub placed: &'j [Placed],
    pub stack: Option<StackPlace>,
    /// The number of the function that is joined.
    pub number: usize,
    /// What can't be joined first: the function that has it, its line, and what is told of it.
    pub fault: Option<(usize, SourceLine, &'static str)>,
    pub blocks: Vec<Block>,
    /// Of each function the blocks behind its calls, by their numbers.
    pub sites: Vec<Vec<usize>>,
}

/// A move between registers.
fn copied(rd: u8, from: u8) -> Instr {
    Instr::Or(Three {
        rd: register(rd),
        rs1: Reg::G0,
        operand2: Operand::Register(register(from)),
    })
}

/// Pushes what clears some registers.
fn push_clears(memory: &mut Heap, steps: &mut Vec<Step>, registers: RegisterSet, line: SourceLine) {
    for number in 1..32u8 {
        if registers.has(number) {
            push_step(memory, steps, copied(number, 0), None, line);
        }
    }
}

/// An end with other numbers, that many further on.
fn moved(end: End, by: usize) -> End {
    match end {
        End::Jump(to) => End::Jump(to.saturating_add(by)),
        End::Branch { cond, taken, next } => End::Branch {
            cond,
            taken: taken.saturating_add(by),
            next: next.saturating_add(by),
        },
        other => other,
    }
}

/// Pushes a step as it is.
fn push_same(memory: &mut Heap, steps: &mut Vec<Step>, step: &Step) {
    memory.take(steps.extend_from_slice(slice::from_ref(step)));
}

impl Joiner<'_> {
    /// Notes what can't be joined.
    fn note(&mut self, line: SourceLine, what: &'static str) {
        if self.fault.is_none() {
            self.fault = Some((self.number, line, what));
        }
    }

    /// How many params and results a function has.
    fn counts_of(&self, number: usize) -> RegisterCounts {
        if number < self.counts.len() {
            self.counts[number]
        } else {
            RegisterCounts {
                params: 0,
                results: 0,
            }
        }
    }

    /// Pushes what stands before a function's first step: what it may ask for though nothing was written to it is
    /// cleared, and the first one sets what points into the soft stack.
    fn push_first(
        &mut self,
        steps: &mut Vec<Step>,
        number: usize,
        live: RegisterSet,
        line: SourceLine,
    ) {
        if number >= self.parts.len() || number >= self.placed.len() {
            return;
        }
        let (part, framed) = (self.parts[number], self.placed[number].framed);
        if part.is_caller {
            return;
        }
        if let Some(place) = self.stack
            && number == 0
        {
            if part.frame > place.top().saturating_sub(place.start) {
                self.note(line, "a frame that its stack has no room for");
            }
            let top = place.top().saturating_sub(part.frame);
            let rd = place.stack.register.number();
            push_number(&mut self.memory, steps, rd, top, line);
        }
        if !framed & !live.is_disjoint(RegisterSet::WINDOW) {
            self.note(line, "a register of its caller's window");
        }
        let cleared = live.intersection(unwritten(framed));
        push_clears(&mut self.memory, steps, cleared, line);
    }

    /// The number of what points into the soft stack, if a CALL loses it; else 0.
    fn lost_pointer(&self) -> u8 {
        match &self.stack {
            Some(place) if !place.stack.is_kept => place.stack.register.number(),
            _ => 0,
        }
    }

    /// Pushes what keeps what points into the soft stack in a word of the frame over a call that stays one, or gets it
    /// from there, if that call loses it.
    fn push_pointer(&mut self, steps: &mut Vec<Step>, keeps: bool, line: SourceLine) {
        let number = self.lost_pointer();
        if number != 0 {
            let moved = (keeps, register(number), FIRST_WORD);
            Keep::Soft(Reg::SP).push_move(&mut self.memory, steps, moved, line);
        }
    }

    /// Pushes what stands behind a call that stays one, where some registers are live: those are cleared that no call
    /// keeps.
    fn push_behind(&mut self, steps: &mut Vec<Step>, live: RegisterSet, line: SourceLine) {
        self.push_pointer(steps, false, line);
        push_clears(&mut self.memory, steps, live.intersection(outs()), line);
        if !live.is_disjoint(globals()) {
            self.note(line, NOT_KEPT);
        }
    }

    /// Where a function keeps words over a call of one that is joined: what keeps its way back is told in an out where,
    /// and says it in another one behind.
    fn keep_over(&self, caller: usize, callee: usize, told: u8) -> Keep {
        let is_kept = match self.parts.get(callee) {
            Some(part) => matches!(part.way_back, WayBack::Kept),
            None => false,
        };
        match self.placed.get(caller) {
            Some(placed) if !is_kept => placed.keep,
            _ => Keep::Soft(register(told)),
        }
    }

    /// Where the function stands that keeps its way back, if there is one.
    fn kept_way(&self) -> Option<Placed> {
        for (number, part) in self.parts.iter().enumerate() {
            if matches!(part.way_back, WayBack::Kept) {
                return self.placed.get(number).copied();
            }
        }
        None
    }

    /// Whether a function goes back by a way that was kept.
    fn goes_by_kept(&self, number: usize) -> bool {
        match self.parts.get(number) {
            Some(part) => matches!(part.way_back, WayBack::Replaced),
            None => false,
        }
    }

    /// Pushes a call of a function that is joined, over which some registers are kept.
    fn push_call(
        &mut self,
        steps: &mut Vec<Step>,
        (caller, callee): (usize, usize),
        kept: RegisterSet,
        line: SourceLine,
    ) {
        let params = self.counts_of(callee).params;
        let (parts, placed) = (self.parts, self.placed);
        if caller >= placed.len() || callee >= placed.len() {
            return;
        }
        let Placed {
            calls,
            keep,
            number_at,
            framed,
            ..
        } = placed[callee];
        let own = self.keep_over(caller, callee, KEPT_AT);
        let memory = &mut self.memory;
        own.push_moves(memory, steps, (true, kept), line);
        if calls > 1 && callee < self.sites.len() {
            let number = self.sites[callee].len().min(SITES) as u32;
            push_number(memory, steps, NUMBER, number, line);
            keep.push_base(memory, steps, line);
            let moved = (true, register(NUMBER), number_at);
            keep.push_move(memory, steps, moved, line);
        }
        if callee < parts.len() && parts[callee].is_caller {
            // told where no function has the pointer
            push_number(memory, steps, BASE, line.number.min(0xffff), line);
        }
        if framed {
            for param in 0..params.min(6) {
                push_step(memory, steps, copied(24 + param, 8 + param), None, line);
            }
        }
    }

    /// Pushes what a return does with a function's results: its ins, or what RESTORE with these fields gives, become
    /// its caller's outs.
    fn push_results(
        &mut self,
        steps: &mut Vec<Step>,
        number: usize,
        fields: &Three,
        line: SourceLine,
    ) {
        let results = self.counts_of(number).results;
        let given = fields.rd.number();
        if (given != 0) & !((8..14).contains(&given)) {
            self.note(line, "a return that writes another register than a result");
        }
        let memory = &mut self.memory;
        if (8 <= given) & (given < 8u8.saturating_add(results)) {
            push_step(memory, steps, Instr::Add(*fields), None, line);
        }
        for place in 0..results.min(2) {
            if given != 8 + place {
                push_step(memory, steps, copied(8 + place, 24 + place), None, line);
            }
        }
    }

    /// The end of a block of a function, where it doesn't call one that is joined.
    fn end_of(&mut self, steps: &mut Vec<Step>, number: usize, end: End, line: SourceLine) -> End {
        let Placed {
            first,
            framed,
            back,
            ..
        } = match self.placed.get(number) {
            Some(placed) => *placed,
            None => return end,
        };
        match end {
            End::Return(fields) => {
                if framed {
                    self.push_results(steps, number, &fields, line);
                }
                End::Jump(back)
            }
            End::Exit if self.goes_by_kept(number) => match self.kept_way() {
                Some(kept) => End::Jump(kept.back),
                None => End::Exit,
            },
            other => moved(other, first),
        }
    }

    /// The registers that are live where a block begins, but for what points into the soft stack.
    fn live_at(&self, shape: &FunctionShape, block: usize) -> RegisterSet {
        match shape.live.get(block) {
            Some(live) => live.registers().difference(self.pointer()),
            None => RegisterSet::NONE,
        }
    }

    /// What points into the soft stack, if there is one.
    fn pointer(&self) -> RegisterSet {
        match &self.stack {
            Some(place) => RegisterSet::of(place.stack.register),
            None => RegisterSet::NONE,
        }
    }

    /// Pushes a call of a function that is joined, behind which some registers are live, and notes the block behind it,
    /// by its number in the caller. Gives the end of the calling block.
    fn call_from(
        &mut self,
        steps: &mut Vec<Step>,
        (caller, callee, behind): (usize, usize, usize),
        live: RegisterSet,
        line: SourceLine,
    ) -> End {
        let placed = self.placed;
        if caller >= placed.len() || callee >= placed.len() {
            return End::Exit;
        }
        if !live.is_disjoint(globals()) {
            self.note(line, NOT_KEPT);
        }
        self.push_call(steps, (caller, callee), live.intersection(kept()), line);
        let site = placed[caller].first.saturating_add(behind);
        if callee < self.sites.len() {
            self.memory.push(&mut self.sites[callee], site);
        }
        End::Jump(placed[callee].entry)
    }

    /// Lets the block behind a call begin with what its function kept over that, of the registers that are live there.
    fn come_back(
        &mut self,
        block: &mut Block,
        (caller, callee): (usize, usize),
        live: RegisterSet,
        line: SourceLine,
    ) {
        if caller >= self.parts.len() {
            return;
        }
        let keep = self.keep_over(caller, callee, CAME_BY);
        let base = self.parts[caller].base;
        let memory = &mut self.memory;
        let mut front = Vec::new(memory.alloc);
        let loaded = live.intersection(kept());
        keep.push_moves(memory, &mut front, (false, loaded), line);
        if let Some(place) = &self.stack
            && live.contains(base)
        {
            push_within(memory, &mut front, place, base, line);
        }
        push_clears(memory, &mut front, live.intersection(outs()), line);
        memory.take(front.append(&mut block.steps));
        block.steps = front;
    }

    /// The registers that are live where control goes from a block's end.
    fn live_at_ways(&self, end: &End, shape: &FunctionShape) -> RegisterSet {
        let mut live = RegisterSet::NONE;
        for way in end.ways() {
            if let Some(to) = way {
                live.add(self.live_at(shape, to));
            }
        }
        live
    }

    /// The registers that are live before a step, where these are behind it.
    fn live_before(&self, step: &Step, behind: RegisterSet) -> RegisterSet {
        let Effects { reads, writes, .. } = effects_in(0, step);
        let read = reads.registers().difference(self.pointer());
        let given = match step.callee {
            Some(callee) => RegisterSet::range(8, self.counts_of(callee).params.min(6)),
            None => RegisterSet::NONE,
        };
        behind.before(read.union(given), writes)
    }

    /// The registers that are live behind each step of a block, the last step first.
    fn live_behind(&mut self, block: &Block, shape: &FunctionShape) -> Vec<RegisterSet> {
        let mut live = self.live_at_ways(&block.end, shape);
        let mut behind = Vec::new(self.memory.alloc);
        for step in block.steps.as_slice().iter().rev() {
            self.memory.push(&mut behind, live);
            live = self.live_before(step, live);
        }
        behind
    }

    /// Pushes a step, behind which some registers are live; tells it where it ends its block.
    fn join_step(
        &mut self,
        steps: &mut Vec<Step>,
        step: &Step,
        live: RegisterSet,
    ) -> Option<LastStep> {
        if let Some(callee) = joined_callee(self.parts, step) {
            return Some(LastStep::Called(callee, step.line));
        }
        if self.push_pointer_moved(steps, step) {
            return Some(LastStep::Moved);
        }
        if !self.push_way_moved(steps, step) {
            self.push_kept(steps, step, live);
        }
        None
    }

    /// Pushes what stands for a step that moves the soft stack's pointer; says whether it does.
    fn push_pointer_moved(&mut self, steps: &mut Vec<Step>, step: &Step) -> bool {
        match &self.stack {
            Some(place) if moves(step, place.stack.register) => {
                push_moved(&mut self.memory, steps, step, place);
                true
            }
            _ => false,
        }
    }

    /// Pushes what stands for a step that moves a way back; says whether it does.
    fn push_way_moved(&mut self, steps: &mut Vec<Step>, step: &Step) -> bool {
        let moved = way_moved(step);
        let Some(moved) = moved else {
            return false;
        };
        let line = step.line;
        if let Some(at) = self.way_kept_at() {
            push_way(&mut self.memory, steps, at, moved, line);
        }
        true
    }

    /// Where the number of the way back stands that is kept.
    fn way_kept_at(&self) -> Option<(Keep, u32)> {
        match self.kept_way() {
            Some(kept) => Some((kept.keep, kept.number_at)),
            None => None,
        }
    }

    /// Pushes a step that stays as it is: with what is to be kept where it is a call, behind which some registers are
    /// live.
    fn push_kept(&mut self, steps: &mut Vec<Step>, step: &Step, live: RegisterSet) {
        if step.callee.is_none() {
            push_same(&mut self.memory, steps, step);
            return;
        }
        self.push_pointer(steps, true, step.line);
        push_same(&mut self.memory, steps, step);
        self.push_behind(steps, live, step.line);
    }

    /// The end of a block of a function by its last step, behind which it goes on to another one of its blocks.
    fn leave(
        &mut self,
        steps: &mut Vec<Step>,
        blocks: &mut [Block],
        (number, behind): (usize, usize),
        last: &LastStep,
        shape: &FunctionShape,
    ) -> End {
        match *last {
            LastStep::Called(callee, line) => {
                let live = self.live_at(shape, behind);
                if behind < blocks.len() {
                    self.come_back(&mut blocks[behind], (number, callee), live, line);
                }
                self.call_from(steps, (number, callee, behind), live, line)
            }
            LastStep::Moved => match self.placed.get(number) {
                Some(placed) => End::Branch {
                    cond: Cond::GreaterUnsigned,
                    taken: placed.full,
                    next: placed.first.saturating_add(behind),
                },
                None => End::Exit,
            },
        }
    }

    /// Joins a block of a function of this shape.
    fn join_block(
        &mut self,
        blocks: &mut [Block],
        (number, place): (usize, usize),
        shape: &FunctionShape,
    ) {
        if place >= blocks.len() {
            return;
        }
        let mut behind = self.live_behind(&blocks[place], shape);
        let (end, line) = (blocks[place].end, blocks[place].line);
        let old = mem::replace(&mut blocks[place].steps, Vec::new(self.memory.alloc));
        let mut steps = Vec::new(self.memory.alloc);
        if place == 0 {
            let live = self.live_at(shape, 0);
            self.push_first(&mut steps, number, live, line);
        }
        let mut last = None;
        for step in old.as_slice() {
            let live = behind.pop().unwrap_or(RegisterSet::NONE);
            last = self.join_step(&mut steps, step, live);
        }
        let end = match (last, end) {
            (Some(last), End::Jump(behind)) => {
                self.leave(&mut steps, blocks, (number, behind), &last, shape)
            }
            _ => self.end_of(&mut steps, number, end, line),
        };
        let joined = Block {
            steps,
            end,
            slot: None,
            line,
        };
        self.memory.push(&mut self.blocks, joined);
    }

    /// Joins the blocks of a function of this shape.
    fn join_function(&mut self, number: usize, function: &mut Function, shape: &FunctionShape) {
        self.number = number;
        let blocks = function.blocks.as_mut_slice();
        for place in 0..blocks.len() {
            self.join_block(blocks, (number, place), shape);
        }
    }

    /// Joins all functions of these shapes that are to be.
    pub fn join_all(&mut self, functions: &mut [Function], shapes: &[FunctionShape]) {
        for number in 0..functions.len() {
            if number < shapes.len() && number < self.parts.len() && self.parts[number].is_joined {
                self.join_function(number, &mut functions[number], &shapes[number]);
            }
        }
    }

    /// Lets all functions go back to the places that they were called from.
    pub fn end_all(&mut self) {
        let parts = self.parts;
        for (number, part) in parts.iter().enumerate() {
            if part.is_joined & (number > 0) {
                self.end_back(number);
            }
        }
    }

    /// Pushes the blocks by which control comes into the functions that are joined and goes back from them.
    pub fn push_all(&mut self) {
        let parts = self.parts;
        for (number, part) in parts.iter().enumerate() {
            if part.is_joined {
                self.push_ways(number, part);
            }
        }
    }

    /// Pushes the blocks by which control comes into a function and goes back from it.
    fn push_ways(&mut self, number: usize, part: &Part) {
        if number >= self.placed.len() {
            return;
        }
        let Placed {
            line,
            first,
            calls,
            number_at,
            keep,
            ..
        } = self.placed[number];
        let (memory, blocks) = (&mut self.memory, &mut self.blocks);
        let mut steps = Vec::new(memory.alloc);
        if part.is_soft
            && !part.is_caller & (number > 0)
            && let Some(place) = &self.stack
        {
            push_entry(memory, blocks, place, (part.frame, first), line);
            if part.base == Reg::G0 {
                push_giving(memory, &mut steps, place, part.frame, line);
            }
        } else if part.is_moving {
            push_full(memory, blocks, line);
        }
        if number == 0 {
            return;
        }
        if calls > 1 {
            keep.push_base(memory, &mut steps, line);
            let loaded = (false, register(BASE), number_at);
            keep.push_move(memory, &mut steps, loaded, line);
        }
        push_open(memory, blocks, steps, line);
    }

    /// Lets a function go back to the places that it was called from.
    fn end_back(&mut self, number: usize) {
        if number >= self.placed.len() || number >= self.sites.len() {
            return;
        }
        if self.goes_by_kept(number) {
            return;
        }
        let Placed { back, line, .. } = self.placed[number];
        let sites = self.sites[number].as_slice();
        push_halves(&mut self.memory, &mut self.blocks, back, sites, line);
        if sites.len() > SITES {
            self.fault = Some((number, line, "more than 4096 calls of one function"));
        }
    }
}
