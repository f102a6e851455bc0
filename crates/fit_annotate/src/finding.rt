//! The search for what a source hasn't said of its program.
use crate::additions::{Annotated, FunctionKnown};
use crate::lines::{CellLine, Head};
use crate::notes::{NO_CALLEE, NO_WAY, Unproved};
use fit_checks::{Asking, asks_of};
use fit_code::{Block, Fault, Program, Reason};
use fit_fuel::{CallTotal, Task, bounds_of, declare_function, total_of};
use fit_ranges::Ranges;
use fit_text::BlockNotes;
use sbx_domain::State;
use sbx_image::{Function, Image};

/// A source's program, and what is known of it. Its functions are looked at from the last one on, since each calls
/// those behind it alone.
#[derive(Drop)]
pub struct AnnotationSearch<'i, 'p, 's> {
    pub image: &'i Image,
    pub program: &'p mut Program,
    pub state: &'s mut State,
    pub ranges: Ranges,
    /// Of each function the turns that its blocks weigh less than their steps and their ends.
    pub spared: Vec<Vec<u64>>,
    /// What each function declares that was looked at; calls are paid for by its budget, where it is known.
    pub totals: Vec<Option<CallTotal>>,
}

/// Whether a block calls a function whose budget isn't known.
fn waits_in(block: &Block, totals: &[Option<CallTotal>]) -> bool {
    for step in block.steps.as_slice() {
        if let Some(callee) = step.callee
            && callee < totals.len()
            && let Some(CallTotal { budget: None, .. }) = totals[callee]
        {
            return true;
        }
    }
    false
}

/// Whether a function of a program calls one whose budget isn't known.
fn is_waiting(program: &Program, number: usize, totals: &[Option<CallTotal>]) -> bool {
    if number < program.functions.len() {
        for block in program.functions[number].blocks.as_slice() {
            if waits_in(block, totals) {
                return true;
            }
        }
    }
    false
}

impl AnnotationSearch<'_, '_, '_> {
    /// Notes what isn't shown of a function's steps.
    fn note_asks(&mut self, number: usize, found: &mut Annotated) {
        let asking = Asking {
            alloc: found.memory.alloc,
            program: self.program,
            ranges: &self.ranges,
            by_object: false,
            wraps: false,
        };
        match asks_of(&asking, number, self.state) {
            Ok(asks) => {
                for ask in asks.as_slice() {
                    found.note(ask.line.number, Unproved::Shown(ask.lack));
                }
            }
            Err(_refused) => found.memory.is_refused = true,
        }
    }

    /// Notes the loops of a function, whose blocks begin here, that no counter bounds; says whether there are some.
    fn note_loops(&mut self, number: usize, heads: &[Head], found: &mut Annotated) -> bool {
        let before = found.notes.len();
        let alloc = found.memory.alloc;
        match bounds_of(alloc, self.program, &self.ranges, number, self.state) {
            Ok(bounds) => {
                for (place, within) in bounds.loops.iter().enumerate() {
                    if bounds.at(place).is_none() {
                        let line = if within.head < heads.len() {
                            heads[within.head].line
                        } else {
                            0
                        };
                        found.note(line, Unproved::Counter);
                    }
                }
            }
            Err(_refused) => found.memory.is_refused = true,
        }
        found.notes.len() > before
    }

    /// Finds the fuel of a function, whose blocks begin here, of which the source says no block's, and gives the
    /// budget; none where it isn't found, which is noted: by its loops that no counter bounds or, where there are
    /// none, by why.
    fn budget_of(
        &mut self,
        number: usize,
        line: u32,
        heads: &[Head],
        blocks: &mut Vec<BlockNotes>,
        found: &mut Annotated,
    ) -> Option<u64> {
        if is_waiting(self.program, number, self.totals.as_slice()) {
            found.note(line, Unproved::Told(NO_CALLEE));
            return None;
        }
        if number >= self.spared.len() {
            return None;
        }
        let task = Task {
            alloc: found.memory.alloc,
            ranges: &self.ranges,
            number,
            meter: None,
            known: self.totals.as_slice(),
            spared: self.spared[number].as_slice(),
        };
        match declare_function(self.program, &task, self.state) {
            Ok(notes) => {
                *blocks = notes.blocks;
                Some(notes.budget)
            }
            Err(fault) => {
                found.memory.is_refused |= matches!(fault.reason, Reason::Memory(_));
                if !self.note_loops(number, heads, found) {
                    found.note(line, Unproved::Fuel(fault));
                }
                None
            }
        }
    }

    /// Takes over what is found of a function beside what the image says of it, and notes what that says too little of.
    fn settle(
        &mut self,
        number: usize,
        line: u32,
        said: &Function,
        budget: Option<u64>,
        found: &mut Annotated,
    ) -> CallTotal {
        let mut total = CallTotal {
            budget,
            room: 0,
            depth: 0,
        };
        let functions = self.program.functions.as_slice();
        if number < functions.len() {
            total = total_of(&functions[number], budget, self.totals.as_slice());
        }
        let what = "the budget, where 0 is filled in,";
        let least = found.taken(line, what, said.budget, budget.unwrap_or(0));
        if said.budget > 0 {
            total.budget = Some(least);
        }
        let what = "the stack room, where 0 is filled in,";
        total.room = found.taken(line, what, u64::from(said.stack_room), total.room);
        total.depth = found.taken(line, "the depth", u64::from(said.depth), total.depth);
        if number == 0 {
            // the first frame's save area lies there, too
            let least = total.room.saturating_add(64 + 4095) / 4096;
            let pages = u64::from(self.image.stack_pages());
            found.taken(line, "the number of `.stack`", pages, least);
        }
        let totals = self.totals.as_mut_slice();
        if number < totals.len() {
            totals[number] = Some(total);
        }
        total
    }

    /// Looks at a function of which the image says this, whose blocks begin here, and adds what the source hasn't got
    /// of it. What the source says of a block's fuel is taken for all of it.
    fn look_at(
        &mut self,
        number: usize,
        said: &Function,
        heads: &[Head],
        cells: &[CellLine],
        found: &mut Annotated,
    ) {
        let line = match heads {
            [first, ..] => first.line,
            [] => 0,
        };
        let mut says_fuel = false;
        for (block, head) in heads.iter().enumerate() {
            if !self.ranges.reaches(number, block) {
                found.note(head.line, Unproved::Told(NO_WAY));
            }
            says_fuel |= head.says_fuel;
        }
        self.note_asks(number, found);
        let mut blocks = Vec::new(found.memory.alloc);
        let budget = match said.blocks.as_slice() {
            [first, ..] if says_fuel => u64::try_from(first.fuel).ok(),
            _ => self.budget_of(number, line, heads, &mut blocks, found),
        };
        let taken = self.settle(number, line, said, budget, found);
        let known = FunctionKnown {
            heads,
            cells,
            ranges: &self.ranges,
            number,
            said,
            tells_depths: self.image.version() == 3,
            taken,
            blocks: blocks.as_slice(),
        };
        found.add_function(&known);
    }

    /// Looks at all functions of a source, whose blocks begin here and whose cells stand here, and adds what it hasn't
    /// got.
    ///
    /// # Errors
    /// More cells of a block than an image may say; memory.
    pub fn look(
        &mut self,
        heads: &[Head],
        cells: &[CellLine],
        found: &mut Annotated,
    ) -> Result<(), Fault> {
        self.ranges.check_limits(self.program)?;
        let (functions, mut heads) = (self.image.functions(), heads);
        for number in (0..functions.len()).rev() {
            let said = &functions[number];
            let behind = heads.len().saturating_sub(said.blocks.len());
            let (others, own) = heads.split_at(behind);
            self.look_at(number, said, own, cells, found);
            heads = others;
        }
        let notes = found.notes.as_mut_slice();
        notes.sort_unstable_by_key(|note| note.line);
        found.totals.reverse();
        let sorted = found.additions.sort_by_key(|addition| addition.before);
        found.memory.take(sorted);
        found.memory.told(())?;
        Ok(())
    }
}
