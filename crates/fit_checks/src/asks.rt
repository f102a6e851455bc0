//! The list of what the verifier would ask of a program's steps, and isn't shown: of locations, of accesses, of
//! divisors.
use fit_cells::{return_from, run_to_call, start};
use fit_code::{Block, Function, Heap, Program, RegisterSet, Step};
use fit_live::{effects_of, read_at_end};
use fit_origin::{Origin, Trace, end_of, origin_of};
use fit_plans::{Ask, NotShown, UnshownAccess, needed_alignment};
use fit_ranges::Ranges;
use sbx_domain::State;
use sbx_range::{Cell, Range, excludes_zero, range_of_address};
use std::alloc::{AllocError, Global};
use v8_formats::{Instr, Operand, Reg};
use v8_meaning::{Operation, Transfer, bytes_in, operation_of};

/// A program and what is known of it.
#[derive(Clone, Copy)]
pub struct Asking<'a> {
    pub alloc: Global,
    pub program: &'a Program,
    pub ranges: &'a Ranges,
    /// Whether an access has to lie in the object that its base names, and not only in the data.
    pub by_object: bool,
    /// Whether the function that is asked has words that are meant but for their high bits, which a shift pushes out.
    pub wraps: bool,
}

/// The first register that isn't defined of some that are read, or that are given to a callee; what holds frames and
/// ways back is never asked for.
fn lack_of_registers(registers: RegisterSet, is_given: bool, state: &State) -> Option<NotShown> {
    let asked = registers.difference(RegisterSet::HELD);
    for number in 1..32u8 {
        let register = u16::from(number);
        if asked.has(number) && state.range(register).is_none() {
            return Some(if is_given {
                NotShown::Given(register)
            } else {
                NotShown::Defined(register)
            });
        }
    }
    None
}

impl Asking<'_> {
    /// What isn't shown of an access.
    fn lack_of_access(
        &self,
        transfer: Transfer,
        parts: (Reg, Operand),
        range: Range,
        origin: Option<Origin>,
    ) -> Option<NotShown> {
        let (size, writes) = (bytes_in(transfer.size()), transfer.writes_memory());
        let from = range.lo as i64;
        let to = range.hi as i64 + size as i64;
        let mut is_shown = false;
        // all of it has to lie in one region, which may be written where it writes
        for region in self.program.regions.as_slice() {
            let start = region.start as i64;
            let end = start + region.length as i64;
            is_shown |= (start <= from) & (to <= end) & !(writes & region.readonly);
        }
        is_shown &= needed_alignment(size) <= range.alignment;
        let objects = self.program.objects.as_slice();
        if self.by_object
            && let Some(origin) = &origin
            && let Some(number) = origin.object
            && number < objects.len()
        {
            let object = &objects[number];
            is_shown &= (object.start as i64 <= from) & (to <= end_of(object));
        }
        if is_shown {
            return None;
        }
        Some(NotShown::Placed(UnshownAccess {
            range,
            size,
            writes,
            origin,
            parts,
        }))
    }

    /// What isn't shown of the step at a place of a block; the state is then that behind the step. Of a call its slot
    /// is run before it is asked, for the params of its callee.
    fn lack_at(
        &self,
        frame: u32,
        block: &Block,
        trace: &Trace,
        (place, step): (usize, &Step),
        state: &mut State,
    ) -> Option<NotShown> {
        if let Some(callee) = step.callee {
            run_to_call(frame, step, state);
            let params = self.ranges.params(callee).len().min(6) as u8;
            // of %o0 to %o5 the first ones
            let lack = lack_of_registers(RegisterSet::range(8, params), true, state);
            return_from(self.ranges.results(), callee, state);
            return lack;
        }
        let effects = effects_of(frame, &step.instr());
        // a frame word before registers
        let mut lack = match effects.word_read {
            Some(word) if state.range(word).is_none() => Some(NotShown::Defined(word)),
            _ => lack_of_registers(effects.reads, false, state),
        };
        if lack.is_none() {
            let [first, second] = trace.at(place);
            lack = match (operation_of(&step.instr()), first, second) {
                (Operation::Divide(_, fields), _, Some(range)) if !excludes_zero(range) => {
                    Some(NotShown::Divisible(fields.operand2, range))
                }
                (Operation::Transfer(transfer, fields), Some(first), Some(second)) => {
                    let range = range_of_address(first, second);
                    let origin = origin_of((self.program, self.wraps), frame, block, trace, place);
                    self.lack_of_access(transfer, (fields.rs1, fields.operand2), range, origin)
                }
                _ => None,
            };
        }
        state.transfer(frame, &step.instr());
        lack
    }

    /// Begins a block of a function, by what is known there where that is given, else by the ranges. Says whether
    /// control comes there.
    fn begin(
        &self,
        (function, block): (usize, usize),
        cells: Option<&[Cell]>,
        state: &mut State,
    ) -> bool {
        match cells {
            Some(cells) => {
                start(cells, false, state);
                true
            }
            None => self
                .ranges
                .begin_block(self.program, function, block, state),
        }
    }

    /// Asks a block of a function of so many results, from its beginning to its end, if control comes to it. Where
    /// something else is known of its beginning than the ranges have, these are the cells.
    fn ask_block(
        &self,
        (function, code, count): (usize, &Function, u8),
        (number, block, cells): (usize, &Block, Option<&[Cell]>),
        state: &mut State,
        asks: &mut Vec<Ask>,
        memory: &mut Heap,
    ) {
        let frame = code.frame;
        if !self.begin((function, number), cells, state) {
            return;
        }
        let mut trace = Trace::new(self.alloc);
        let steps = block.steps.as_slice();
        for place in 0..steps.len().saturating_add(1) {
            let mut line = block.line;
            let lack = if place < steps.len() {
                line = steps[place].line;
                trace.push(memory, frame, &steps[place], &*state);
                self.lack_at(frame, block, &trace, (place, &steps[place]), state)
            } else {
                lack_of_registers(read_at_end(code, count, &block.end), false, state)
            };
            if let Some(lack) = lack {
                let ask = Ask {
                    function,
                    frame,
                    block: number,
                    place,
                    line,
                    lack,
                };
                memory.push(asks, ask);
            }
        }
    }
}

/// What isn't shown of a function's steps and ends, to which control comes.
pub fn asks_of(
    asking: &Asking,
    function: usize,
    state: &mut State,
) -> Result<Vec<Ask>, AllocError> {
    asks_beside(asking, function, &[], state)
}

/// The same, but for the blocks of which it is known already.
pub fn asks_beside(
    asking: &Asking,
    function: usize,
    are_known: &[bool],
    state: &mut State,
) -> Result<Vec<Ask>, AllocError> {
    let mut asks = Vec::new(asking.alloc);
    let mut memory = Heap::new(asking.alloc);
    let (functions, results) = (asking.program.functions.as_slice(), asking.ranges.results());
    if function < functions.len() && function < results.len() {
        let count = results[function].len().min(6) as u8;
        let code = (function, &functions[function], count);
        let blocks = functions[function].blocks.as_slice();
        for number in 0..blocks.len() {
            if number >= are_known.len() || !are_known[number] {
                let block = (number, &blocks[number], None);
                asking.ask_block(code, block, state, &mut asks, &mut memory);
            }
        }
    }
    memory.told(asks)
}

/// What isn't shown of a function's block, where this is known of its beginning.
pub fn asks_behind(
    asking: &Asking,
    (function, number): (usize, usize),
    cells: &[Cell],
    state: &mut State,
) -> Result<Vec<Ask>, AllocError> {
    let mut asks = Vec::new(asking.alloc);
    let mut memory = Heap::new(asking.alloc);
    let (functions, results) = (asking.program.functions.as_slice(), asking.ranges.results());
    if function < functions.len()
        && function < results.len()
        && number < functions[function].blocks.len()
    {
        let count = results[function].len().min(6) as u8;
        let code = (function, &functions[function], count);
        let block = (number, &functions[function].blocks[number], Some(cells));
        asking.ask_block(code, block, state, &mut asks, &mut memory);
    }
    memory.told(asks)
}
