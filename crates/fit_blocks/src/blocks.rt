//! The blocks of a function, without delay slots: what stands in one is done before its transfer, or on the ways on
//! which it is.
use crate::codes::prune;
use crate::plain::step_of;
use crate::points::{ControlFlow, Layout, Point, is_call_through_pointer, name_of, points_of};
use crate::slots::{frame_and_start, leads_of, may_go_before, number_marked};
use crate::stops::Stops;
use fit_code::{
    Block, End, Function, Instruction, RegisterSet, SourceLine, Step, operands_read, writes,
};
use fit_gas::{CodeBody, owned};
use std::mem;
use v8_formats::{Instr, Operand, Three};
use v8_word::{Cond, Reg, reg_at};

/// RESTORE of nothing.
const PLAIN: Three = Three {
    rd: Reg::G0,
    rs1: Reg::G0,
    operand2: Operand::Register(Reg::G0),
};

/// The blocks of a function, as they are made.
#[derive(Drop)]
struct Builder<'s, 'p> {
    stops: &'s mut Stops,
    points: &'p [Point],
    framed: bool,
    /// For each place, and the one behind the last, the number of the block that begins there, from 1 on. The first
    /// block is empty and goes to that of the start.
    numbers: &'p [Option<usize>],
    /// How many blocks there are but those of edges, which have the numbers behind theirs.
    count: usize,
    /// The steps of the block that is made.
    steps: Vec<Step>,
    blocks: Vec<Block>,
    edges: Vec<Block>,
    /// Whether a transfer goes to the start.
    goes_to_start: bool,
}

impl Builder<'_, '_> {
    /// The block that a transfer goes to.
    fn at(&mut self, place: usize, line: SourceLine) -> usize {
        let mut number = 0;
        if place < self.numbers.len() {
            number = self.numbers[place].unwrap_or(0);
        }
        if number == 0 {
            self.stops
                .form(line, "a transfer to what stands before SAVE");
        }
        self.goes_to_start |= number == 1;
        number
    }

    /// A new block that does what stood in a slot and goes on.
    fn edge(&mut self, slot: Step, to: usize) -> usize {
        let number = self.count.saturating_add(self.edges.len());
        let line = slot.line;
        let edge = Block {
            steps: self.stops.memory.copy(&[slot]),
            end: End::Jump(to),
            slot: None,
            line,
        };
        self.stops.memory.push(&mut self.edges, edge);
        number
    }

    /// What stands in the delay slot behind a place, if it does something.
    fn slot(&mut self, place: usize, line: SourceLine) -> Option<Step> {
        let behind = place.saturating_add(1);
        let mut what = "a transfer without a delay slot";
        if behind < self.points.len() {
            let point = self.points[behind];
            match point.flow {
                ControlFlow::On => return Some(point.step),
                ControlFlow::Nothing => return None,
                _ => what = "a transfer in a delay slot",
            }
        }
        self.stops.form(line, what);
        None
    }

    /// Ends the block that is made.
    fn finish(&mut self, end: End, line: SourceLine) {
        let block = Block {
            steps: mem::replace(&mut self.steps, Vec::new(self.stops.memory.alloc)),
            end,
            slot: None,
            line,
        };
        self.stops.memory.push(&mut self.blocks, block);
    }

    /// The end by a branch on a condition, whose slot runs where it isn't annulled.
    fn branch(
        &mut self,
        place: usize,
        line: SourceLine,
        cond: Cond,
        annul: bool,
        to: usize,
    ) -> End {
        let mut taken = self.at(to, line);
        let mut next = self.at(place.saturating_add(2), line);
        if let Some(slot) = self.slot(place, line) {
            if !annul & may_go_before(&slot, self.steps.as_slice()) {
                self.stops.memory.push(&mut self.steps, slot);
            } else {
                taken = self.edge(slot, taken);
                if !annul {
                    next = self.edge(slot, next);
                }
            }
        }
        End::Branch { cond, taken, next }
    }

    /// Ends the block that is made by the transfer at a place, which is no call; it is a fault where it isn't
    /// compilers'. In a function with a window a return is a jump by %i7 with RESTORE in its slot, or RESTORE and
    /// behind it a jump by %o7 with nothing in its slot; in another one it is a jump by %o7.
    fn end(&mut self, place: usize, line: SourceLine, flow: ControlFlow) {
        let behind = place.saturating_add(1);
        let mut next = ControlFlow::Exit;
        if behind < self.points.len() {
            next = self.points[behind].flow;
        }
        let end = match flow {
            ControlFlow::Branch { cond, annul, to } => match cond {
                Cond::Never => Err("a branch that is never taken"),
                Cond::Always => Ok(End::Jump(self.at(to, line))),
                _ => Ok(self.branch(place, line, cond, annul, to)),
            },
            ControlFlow::Return { framed: true } => match next {
                ControlFlow::Restore(fields) => Ok(End::Return(fields)),
                _ => Err("a return without RESTORE in its slot"),
            },
            ControlFlow::Return { framed: false } if self.framed => {
                Err("a jump by %o7 without RESTORE before it")
            }
            ControlFlow::Return { framed: false } => Ok(End::Return(PLAIN)),
            ControlFlow::Restore(fields) => match next {
                ControlFlow::Return { framed: false } if self.slot(behind, line).is_none() => {
                    Ok(End::Return(fields))
                }
                _ => Err("RESTORE that isn't beside a return"),
            },
            ControlFlow::Exit => Ok(End::Exit),
            ControlFlow::Mark => Err("UNIMP that isn't behind a call"),
            _ => Err("a second SAVE, or one that isn't first"),
        };
        match end {
            Ok(end) => self.finish(end, line),
            Err(what) => self.stops.form(line, what),
        }
    }

    /// Whether what stands in the slot of a call at a place writes one of some registers.
    fn slot_writes(&mut self, place: usize, registers: RegisterSet, line: SourceLine) -> bool {
        match self.slot(place, line) {
            Some(slot) => !writes(&slot.instr()).is_disjoint(registers),
            None => false,
        }
    }

    /// Pushes what leaves the pointer of the call at a place in the register for that. It is a fault where the call's
    /// slot changes the pointer.
    fn pass_pointer(&mut self, place: usize) {
        let points = self.points;
        if place < points.len() {
            let line = points[place].step.line;
            let read = pointer_read(&points[place].step);
            if self.slot_writes(place, read, line) {
                let what = "a call through a pointer that its own slot changes";
                self.stops.form(line, what);
            }
            let passed = passing_step(&points[place].step);
            self.stops.memory.push(&mut self.steps, passed);
        }
    }

    /// Pushes the call at a place, whose slot is done before it.
    fn call(&mut self, place: usize) {
        let points = self.points;
        if place < points.len() {
            if is_call_through_pointer(&points[place].step) {
                self.pass_pointer(place);
            }
            let call = plain_call(&points[place].step);
            self.stops.memory.push(&mut self.steps, call);
        }
    }

    /// Makes the block that begins at a place. What stands in the slot of a call, a jump or a leaf's return is done
    /// before it.
    fn fill(&mut self, start: usize, line: SourceLine) {
        let (points, numbers) = (self.points, self.numbers);
        let mut next = start;
        for place in start..points.len() {
            let Point { step, flow } = points[place];
            if place < next {
                continue;
            }
            if (place != start) & (place < numbers.len())
                && let Some(number) = numbers[place]
            {
                return self.finish(End::Jump(number), step.line);
            }
            let does_slot = match flow {
                ControlFlow::Call => true,
                ControlFlow::Branch { cond, annul, .. } => !annul & (cond == Cond::Always),
                ControlFlow::Return { framed } => !framed & !self.framed,
                _ => false,
            };
            if does_slot && let Some(slot) = self.slot(place, step.line) {
                self.stops.memory.push(&mut self.steps, slot);
            }
            match flow {
                ControlFlow::On => self.stops.memory.push(&mut self.steps, step),
                ControlFlow::Nothing => {}
                // Behind a call and its slot it is a constant that says a struct is given.
                ControlFlow::Mark
                    if place >= 2 && matches!(points[place - 2].flow, ControlFlow::Call) => {}
                ControlFlow::Call => {
                    self.call(place);
                    next = place.saturating_add(2);
                }
                _ => return self.end(place, step.line, flow),
            }
        }
        // Control doesn't come here where the compiler ended the function without a return: the run ends.
        self.stops.memory.push(&mut self.steps, no_result(line));
        self.finish(End::Exit, line)
    }
}

/// %o0.
pub fn result_register() -> Reg {
    reg_at(8, 0)
}

/// The registers that a call through a pointer reads.
fn pointer_read(step: &Step) -> RegisterSet {
    match step.instr() {
        Instr::Jmpl(pointer) => operands_read(pointer.rs1, pointer.operand2),
        _ => RegisterSet::NONE,
    }
}

/// What leaves the pointer of a call in the register for that.
fn passing_step(step: &Step) -> Step {
    let instr = match step.instr() {
        Instr::Jmpl(pointer) => Instr::Add(Three {
            rd: pointer_register(),
            rs1: pointer.rs1,
            operand2: pointer.operand2,
        }),
        other => other,
    };
    step_of(instr, step.line)
}

/// A call, with CALL in the place of a jump through a pointer.
fn plain_call(step: &Step) -> Step {
    let mut call = *step;
    if is_call_through_pointer(step) {
        call.instruction = Instruction::of(Instr::Call(0));
    }
    call
}

/// The register that holds a pointer through which is called, %g1.
pub fn pointer_register() -> Reg {
    reg_at(1, 0)
}

/// What leaves 0 as a run's exit word.
pub fn no_result(line: SourceLine) -> Step {
    let instr = Instr::Or(Three {
        rd: result_register(),
        rs1: Reg::G0,
        operand2: Operand::Immediate(0),
    });
    step_of(instr, line)
}

/// A function of the source, by its number there, in blocks. Calls have the numbers of the source's functions. Each
/// block can be reached, and none goes to the first one. What stops it is noted: what `points_of` notes, and a form
/// that isn't compilers', as a transfer in a delay slot, SAVE that isn't first, a return without RESTORE.
pub fn function_of(layout: &mut Layout, number: usize, code: &CodeBody) -> Function {
    let mut points = points_of(layout, number, code);
    let name = name_of(layout.source, code.symbol);
    let stops = &mut layout.stops;
    let alloc = stops.memory.alloc;
    let (frame, start) = frame_and_start(stops, points.as_mut_slice());
    let mut leads = leads_of(&mut stops.memory, points.as_slice(), start);
    let mut builder = Builder {
        stops,
        points: points.as_slice(),
        framed: frame.is_some(),
        count: number_marked(leads.as_mut_slice(), 1),
        numbers: leads.as_slice(),
        steps: Vec::new(alloc),
        blocks: Vec::new(alloc),
        edges: Vec::new(alloc),
        goes_to_start: false,
    };
    builder.finish(End::Jump(1), code.line);
    for (place, number) in leads.as_slice().iter().enumerate() {
        if number.is_some() {
            builder.fill(place, code.line);
        }
    }
    let goes_to_start = builder.goes_to_start;
    let mut blocks = builder.blocks;
    let mut edges = builder.edges;
    builder.stops.memory.take(blocks.append(&mut edges));
    let mut function = Function {
        name: owned(&mut builder.stops.memory, name),
        framed: frame.is_some(),
        frame: frame.unwrap_or(0),
        blocks,
        params: Vec::new(alloc),
        results: Vec::new(alloc),
        line: code.line,
    };
    prune(builder.stops, &mut function, goes_to_start);
    function
}
