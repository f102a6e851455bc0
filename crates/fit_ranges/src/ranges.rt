//! Ranges of a program's locations where its blocks begin. Nothing rests on it, since the verifier asks all again.
use crate::flow::{Analysis, FunctionRanges, WayStates, add_outs, at};
use fit_cells::{Thresholds, common_thresholds, thresholds_of};
use fit_code::{Fault, Function, Heap, NO_LINE, Program, Reason};
use fit_live::{FunctionShape, LocationSet, Means, RegisterCounts, find_live};
use sbx_domain::State;
use sbx_range::{Cell, Range, all, is_within};
use std::alloc::{AllocError, Global};
use std::mem;

/// In so many first rounds over the program results are narrowed.
const NARROWINGS: u32 = 2;

/// As many rounds over the program as there may be.
const ROUNDS: u32 = 40;

/// As many cells as a block of an image may list.
const CELLS: usize = 64;

/// What is known of a program.
#[derive(Drop)]
pub struct Ranges {
    means: Means,
    /// How many params and results each function has.
    counts: Vec<RegisterCounts>,
    shapes: Vec<FunctionShape>,
    flows: Vec<FunctionRanges>,
    /// What each function gives back, in %o0, %o1, ..
    results: Vec<Vec<Range>>,
    /// Of each function and each of its blocks the cells that are said, by location. None of those that aren't named
    /// here.
    said: Vec<Vec<Vec<Cell>>>,
    run: WayStates,
}

/// The ranges that are said, and behind them those that were found, so many at least: any words where none were.
fn with_said(
    memory: &mut Heap,
    said: &[Range],
    found: &Option<[Range; 6]>,
    count: u8,
) -> Vec<Range> {
    let mut ranges = memory.copy(said);
    let found = found.unwrap_or([all(0); 6]);
    if let Some(others) = found.get(said.len()..usize::from(count)) {
        memory.is_refused |= ranges.extend_from_slice(others).is_err();
    }
    ranges
}

/// The shapes of a program's functions.
fn shapes_of(memory: &mut Heap, program: &Program) -> Vec<FunctionShape> {
    let mut shapes = Vec::new(memory.alloc);
    for function in program.functions.as_slice() {
        let shape = FunctionShape::of(memory, function);
        memory.push(&mut shapes, shape);
    }
    shapes
}

/// Adds what the calls of a function in another one give it.
fn add_given(given: &mut Option<[Range; 6]>, flow: &FunctionRanges, callee: usize) {
    for call in flow.calls.as_slice() {
        if call.callee == callee {
            add_outs(given, &call.given);
        }
    }
}

/// What all calls of a function give it, if control comes to one.
fn given_to(flows: &[FunctionRanges], callee: usize) -> Option<[Range; 6]> {
    let mut given = None;
    for flow in flows {
        add_given(&mut given, flow, callee);
    }
    given
}

/// Whether each range lies within the one at its place.
fn lie_within(found: &[Range], wanted: &[Range]) -> bool {
    let mut lie_within = found.len() == wanted.len();
    for place in 0..found.len() {
        if place < wanted.len() {
            lie_within &= is_within(found[place], wanted[place]);
        }
    }
    lie_within
}

impl Ranges {
    /// Finds the ranges of a program.
    pub fn of(alloc: Global, program: &Program) -> Result<Ranges, Fault> {
        Ranges::beside(alloc, program, Vec::new(alloc))
    }

    /// Finds the ranges of a program of which some are said: the first params and results of its functions, as they
    /// stand there, and cells of its functions' blocks, by location.
    pub fn beside(
        alloc: Global,
        program: &Program,
        said: Vec<Vec<Vec<Cell>>>,
    ) -> Result<Ranges, Fault> {
        let run = WayStates {
            state: State::new(alloc)?,
            second: State::new(alloc)?,
        };
        let mut ranges = Ranges {
            means: Means {
                memory: Heap::new(alloc),
                spent: None,
            },
            counts: Vec::new(alloc),
            shapes: Vec::new(alloc),
            flows: Vec::new(alloc),
            results: Vec::new(alloc),
            said,
            run,
        };
        match ranges.renew(program, &[]) {
            Ok(()) => Ok(ranges),
            Err(fault) => Err(fault),
        }
    }

    /// Finds a function's ranges by what all calls give it.
    fn settle_function(&mut self, (number, function): (usize, &Function), common: &Thresholds) {
        let given = given_to(self.flows.as_slice(), number);
        let (shapes, counts) = (self.shapes.as_slice(), self.counts.as_slice());
        let (means, flows) = (&mut self.means, self.flows.as_mut_slice());
        if (number < flows.len()) & (number < shapes.len()) & (number < counts.len()) {
            let flow = &mut flows[number];
            let (said, count) = (function.params.as_slice(), counts[number].params);
            let memory = &mut means.memory;
            if flow.takes(with_said(memory, said, &given, count)) {
                let thresholds = match mem::replace(&mut flow.thresholds, None) {
                    Some(known) => known,
                    None => thresholds_of(memory, function, flow.params.as_slice()),
                };
                let setting = Analysis {
                    function,
                    shape: &shapes[number],
                    thresholds: &thresholds,
                    common,
                    results: self.results.as_slice(),
                    said: at(self.said.as_slice(), number),
                };
                flow.settle(&setting, means, &mut self.run);
                flow.thresholds = Some(thresholds);
            }
        }
    }

    /// Takes over what a function gives back, and looks at its callers again, where that is new: narrower in the first
    /// rounds, and wider in all. Says whether it is.
    fn take_results(&mut self, number: usize, function: &Function, round: u32) -> bool {
        let flows = self.flows.as_mut_slice();
        let (results, counts) = (self.results.as_mut_slice(), self.counts.as_slice());
        let mut is_new = false;
        if (number < flows.len()) & (number < results.len()) & (number < counts.len()) {
            let known = &mut results[number];
            let mut found = with_said(
                &mut self.means.memory,
                function.results.as_slice(),
                &flows[number].returned,
                counts[number].results,
            );
            is_new = if round < NARROWINGS {
                *known != found
            } else {
                !lie_within(found.as_slice(), known.as_slice())
            };
            if is_new {
                mem::swap(known, &mut found);
                for flow in flows {
                    flow.mark_calls(number);
                }
            }
        }
        is_new
    }

    /// Goes over each function once.
    fn settle_functions(&mut self, functions: &[Function], common: &Thresholds) {
        for number in 0..functions.len() {
            self.settle_function((number, &functions[number]), common);
        }
    }

    /// Takes over what each function gives back, in a round; says whether that is new for one.
    fn take_all_results(&mut self, functions: &[Function], round: u32) -> bool {
        let mut is_new = false;
        for number in 0..functions.len() {
            is_new |= self.take_results(number, &functions[number], round);
        }
        is_new
    }

    /// Goes over the program until nothing is to be looked at again, or something lacks, which is told.
    fn settle(&mut self, program: &Program) -> Result<(), Fault> {
        let functions = program.functions.as_slice();
        let common = common_thresholds(&mut self.means.memory, program);
        let mut is_new = true;
        for round in 0..ROUNDS {
            if is_new {
                self.settle_functions(functions, &common);
                is_new = self.take_all_results(functions, round);
                is_new &= !self.means.are_used_up();
            }
        }
        if is_new {
            let what = "rounds over what functions give back";
            self.means.spend(NO_LINE, what, u64::from(ROUNDS));
        }
        self.means.told()
    }

    /// Finds the ranges again, where some blocks of the program, each by its function and its own number, are others
    /// than before. What can't be reached from them is not looked at, unless functions have other params or results.
    pub fn renew(&mut self, program: &Program, changed: &[(usize, usize)]) -> Result<(), Fault> {
        let mut shapes = shapes_of(&mut self.means.memory, program);
        let counts = find_live(&mut self.means, program, shapes.as_mut_slice());
        let are_new = self.counts != counts;
        if are_new {
            self.shapes.clear();
            self.flows.clear();
            self.results.clear();
        }
        let before = mem::replace(&mut self.shapes, shapes);
        let memory = &mut self.means.memory;
        for number in 0..counts.len() {
            if are_new {
                let flow = FunctionRanges::nothing(memory.alloc);
                memory.push(&mut self.flows, flow);
                let results = memory.repeat(all(0), usize::from(counts[number].results));
                memory.push(&mut self.results, results);
            }
            let (flows, shapes) = (self.flows.as_mut_slice(), self.shapes.as_slice());
            if (number < flows.len()) & (number < shapes.len()) {
                let named = (number, &shapes[number]);
                flows[number].renew(memory, named, before.as_slice(), changed);
            }
        }
        self.counts = counts;
        self.settle(program)
    }

    /// What a function is called with.
    pub fn params(&self, function: usize) -> &[Range] {
        let flows = self.flows.as_slice();
        if function < flows.len() {
            flows[function].params.as_slice()
        } else {
            &[]
        }
    }

    /// What each function gives back.
    pub fn results(&self) -> &[Vec<Range>] {
        self.results.as_slice()
    }

    /// What is known where a block begins, by location, of what is live there. Nothing of a block to which control
    /// doesn't come, and of a function's first block, which begins with the function's params.
    pub fn cells(&self, function: usize, block: usize) -> Option<&[Cell]> {
        let flows = self.flows.as_slice();
        if function < flows.len() {
            flows[function].cells(block)
        } else {
            None
        }
    }

    /// Whether control comes to a block.
    pub fn reaches(&self, function: usize, block: usize) -> bool {
        (block == 0) | self.cells(function, block).is_some()
    }

    /// Whether a block runs otherwise than before the ranges were last found, or something else is known where it
    /// begins.
    pub fn is_fresh(&self, function: usize, block: usize) -> bool {
        let flows = self.flows.as_slice();
        if function < flows.len() {
            let blocks = flows[function].blocks.as_slice();
            return block >= blocks.len() || blocks[block].is_fresh;
        }
        true
    }

    /// What is known where a way of a block ends, of what is live there; nothing of one that can't be gone.
    pub fn way_cells(&self, function: usize, block: usize, way: usize) -> Option<&[Cell]> {
        let flows = self.flows.as_slice();
        if function < flows.len() {
            flows[function].way_cells(block, way)
        } else {
            None
        }
    }

    /// The blocks of a function that can be reached from the first one, each before those that follow it but where a
    /// loop goes back, and a loop's blocks with no others between them.
    pub fn order(&self, function: usize) -> &[usize] {
        if function < self.shapes.len() {
            self.shapes[function].order.blocks.as_slice()
        } else {
            &[]
        }
    }

    /// The place of the order of a function behind the last block from which a way leads to a block: behind its own
    /// where it is the head of a loop.
    pub fn loop_end(&self, function: usize, block: usize) -> usize {
        if function < self.shapes.len() {
            self.shapes[function].end_of(block)
        } else {
            0
        }
    }

    /// The ways that lead to a block, each by its number: twice that of the block that it comes from, and one more
    /// where a branch isn't taken.
    pub fn ways_to(&self, function: usize, block: usize) -> &[usize] {
        if function < self.shapes.len() {
            at(self.shapes[function].sources.as_slice(), block)
        } else {
            &[]
        }
    }

    /// Which ways of a block can be gone.
    pub fn open_ways(&self, function: usize, block: usize) -> (bool, bool) {
        let flows = self.flows.as_slice();
        if function < flows.len() {
            let blocks = flows[function].blocks.as_slice();
            if block < blocks.len() {
                let known = &blocks[block];
                let [first, second] = &known.ways;
                return (first.is_some(), second.is_some());
            }
        }
        (false, false)
    }

    /// What is live where each block of a function begins.
    pub fn live(&self, function: usize) -> &[LocationSet] {
        if function < self.shapes.len() {
            self.shapes[function].live.as_slice()
        } else {
            &[]
        }
    }

    /// Begins a block in the verifier's domain, without forms, behind SAVE where it is a framed function's first one.
    /// Says whether control comes there.
    pub fn begin_block(
        &self,
        program: &Program,
        function: usize,
        block: usize,
        state: &mut State,
    ) -> bool {
        let (flows, functions) = (self.flows.as_slice(), program.functions.as_slice());
        if (function < flows.len()) & (function < functions.len()) {
            return flows[function].begin(&functions[function], (block, false), state);
        }
        false
    }

    /// Runs a block in the verifier's domain, with forms, from its beginning along one of its ways: 0 is that of a jump
    /// or of a branch that is taken, 1 a branch's other one. Says whether that way can be gone. A return's and an exit's
    /// way is 0.
    pub fn run_block(
        &self,
        program: &Program,
        function: usize,
        block: usize,
        way: usize,
        state: &mut State,
    ) -> bool {
        let (flows, functions) = (self.flows.as_slice(), program.functions.as_slice());
        if (function < flows.len()) & (function < functions.len()) {
            let results = self.results.as_slice();
            return flows[function].run(&functions[function], results, (block, way), state);
        }
        false
    }

    /// The same of a function, by its number.
    fn check_cells(&self, number: usize, function: &Function) -> Result<(), Fault> {
        for (block, code) in function.blocks.as_slice().iter().enumerate() {
            if let Some(cells) = self.cells(number, block)
                && cells.len() > CELLS
            {
                let what = "registers and frame words in use where a block begins";
                let most = CELLS as u64;
                return Err(Fault::new(code.line, Reason::TooMany { what, most }));
            }
        }
        Ok(())
    }

    /// A fault of the first block of which more cells are known than an image's block may list.
    pub fn check_limits(&self, program: &Program) -> Result<(), Fault> {
        for (number, function) in program.functions.as_slice().iter().enumerate() {
            self.check_cells(number, function)?;
        }
        Ok(())
    }

    /// Writes down for each function what it is called with and what it gives back.
    pub fn store(&self, program: &mut Program) -> Result<(), AllocError> {
        let mut memory = self.means.memory;
        let functions = program.functions.as_mut_slice();
        for number in 0..functions.len() {
            functions[number].params = memory.copy(self.params(number));
            functions[number].results = memory.copy(at(self.results.as_slice(), number));
        }
        memory.told(())
    }
}
