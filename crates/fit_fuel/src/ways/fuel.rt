//! The fuel of a function's blocks while it is looked for.
use crate::task::{FuelTask, Task};
use crate::ways::longest::settle;
use crate::ways::sums::LinearSum;
use crate::ways::weights::weight_of_block;
use fit_cells::range_in;
use fit_code::Heap;
use fit_graph::{Loop, successors_in};
use fit_text::BlockNotes;
use sbx_domain::State;
use sbx_parts::Term;

/// Stands for the location of the meter, whichever that is.
pub const METER: u16 = u16::MAX;

/// A way out of a block.
#[derive(Clone, Copy)]
pub struct WayOut {
    pub from: usize,
    /// The block that it leads to; none where the function or the run ends.
    pub to: Option<usize>,
    /// What pays for it in the place of the blocks' constants: of the way on from a place of the meter `METER`, of a
    /// way that is looked at for a counter its location. 0 where the constants pay.
    pub location: u16,
    /// The least difference of the constants.
    pub cost: i64,
}

/// Constants and terms of the blocks of a function, and the ways that they pay for.
#[derive(Drop)]
pub struct FunctionFuel {
    /// What those blocks take that are places of the meter; 0 of the others.
    pub places: Vec<u32>,
    /// What is said of each block: cells and terms, and at the end its constant.
    pub blocks: Vec<BlockNotes>,
    /// The ways that are looked at: those of a loop, or all.
    pub ways: Vec<WayOut>,
    /// The least constants that pay for these ways; none of a block from which no way on is known.
    pub constants: Vec<Option<i64>>,
    /// Whether memory was refused for one of these.
    pub memory: Heap,
}

/// The terms of a block, by its number.
fn terms_at(blocks: &[BlockNotes], block: usize) -> &[Term] {
    if block < blocks.len() {
        blocks[block].terms.as_slice()
    } else {
        &[]
    }
}

impl FunctionFuel {
    /// Begins with what is known where each of so many blocks begins, and with the term of the meter in those that know
    /// it.
    pub fn begin(&mut self, task: &Task<'_>, count: usize) {
        let memory = &mut self.memory;
        self.blocks.clear();
        for block in 0..count {
            let cells = task.ranges.cells(task.number, block).unwrap_or(&[]);
            let mut notes = BlockNotes {
                cells: memory.copy(cells),
                fuel: 0,
                terms: Vec::new(task.alloc),
            };
            if let Some(meter) = task.meter
                && range_in(cells, meter.location).is_some()
            {
                let term = Term {
                    location: meter.location,
                    coefficient: i32::try_from(meter.unit).unwrap_or(i32::MAX),
                };
                memory.push(&mut notes.terms, term);
            }
            memory.push(&mut self.blocks, notes);
        }
    }

    /// What a way out of a block costs behind which the state is this.
    fn cost_of(
        &mut self,
        setting: &FuelTask<'_>,
        from: usize,
        to: Option<usize>,
        state: &State,
    ) -> i64 {
        let (task, blocks) = (setting.task, self.blocks.as_slice());
        let weight = weight_of_block(setting, from);
        let mut sum = LinearSum::without(task.alloc, weight, terms_at(blocks, from));
        if let Some(to) = to {
            sum.add_terms(state, terms_at(blocks, to));
        }
        self.memory.is_refused |= sum.is_refused;
        // nothing is known of a function's first block, whose fuel has no terms
        let (_, cost) = sum.ends(task.ranges.cells(task.number, from).unwrap_or(&[]));
        cost
    }

    /// Finds what the ways in a loop cost, and the least constants that pay for them; says whether there are some, and
    /// no round gains. A way that can't be gone isn't looked at.
    pub fn pay(&mut self, setting: &FuelTask<'_>, within: &Loop, state: &mut State) -> bool {
        let (program, task) = (setting.program, setting.task);
        let (ranges, number) = (task.ranges, task.number);
        self.ways.clear();
        // a block has two ways at most
        for place in 0..self.blocks.len().saturating_mul(2) {
            let (from, way) = (place / 2, place % 2);
            let to = successors_in(setting.function, from)[way];
            let is_open = match to {
                Some(to) if within.has(to) => ranges.run_block(program, number, from, way, state),
                Some(_) => false,
                None => way == 0,
            };
            if is_open & within.has(from) {
                let cost = self.cost_of(setting, from, to, state);
                // the way on from a place of the meter is the one that isn't taken
                let is_place = (way == 1) & (from < self.places.len()) && self.places[from] > 0;
                let location = if is_place { METER } else { 0 };
                let way = WayOut {
                    from,
                    to,
                    location,
                    cost,
                };
                self.memory.push(&mut self.ways, way);
            }
        }
        self.constants = self.memory.repeat(None, self.blocks.len());
        let (constants, ways) = (self.constants.as_mut_slice(), self.ways.as_slice());
        settle(constants, ways, within.head, 0)
    }
}
