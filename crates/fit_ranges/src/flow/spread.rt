//! The spread of a change of some blocks: the locations of which something else may be known elsewhere then, and those
//! that are worked out from them.
use fit_cells::range_from;
use fit_code::{Block, End, RegisterSet, Step};
use fit_live::{Effects, LocationSet, effects_in, effects_of};
use sbx_range::Cell;
use v8_formats::Instr;
use v8_meaning::{Operation, operation_of};

/// The locations of which something else may be known at a place of a block, and the registers of the last compare
/// before it, of which a branch shows more.
#[derive(Clone, Copy)]
struct Spreading {
    locations: LocationSet,
    compared: RegisterSet,
}

/// Whether an instruction moves words from or to memory.
fn is_transfer(instr: &Instr) -> bool {
    matches!(operation_of(instr), Operation::Transfer(..))
}

/// Whether there is a word, and it is in a set.
fn has_word(locations: &LocationSet, word: Option<u16>) -> bool {
    match word {
        Some(word) => locations.has(word),
        None => false,
    }
}

impl Spreading {
    /// Goes on behind an instruction with these effects. What is loaded says nothing of its address, but for a word of
    /// the frame.
    fn pass(&mut self, effects: &Effects, is_transfer: bool) {
        let is_read = !effects.reads.is_disjoint(self.locations.registers());
        let is_given = if is_transfer {
            has_word(&self.locations, effects.word_read)
        } else {
            is_read
        };
        let written = effects.writes.registers();
        if !effects.writes.is_disjoint(RegisterSet::CODES) {
            self.compared = effects.reads.registers().union(written);
        } else if !written.is_disjoint(self.compared) {
            self.compared = RegisterSet::NONE;
        }
        self.locations.pass(&Effects {
            reads: if is_given { written } else { RegisterSet::NONE },
            writes: written,
            word_read: if is_read { effects.word_written } else { None },
            word_written: effects.word_written,
        });
    }

    /// Goes on behind a step in a frame of so many bytes. Where the block runs otherwise than before, a callee may give
    /// back something else.
    fn pass_step(&mut self, frame: u32, step: &Step, is_other: bool) {
        if let Some(slot) = &step.slot {
            self.pass(
                &effects_of(frame, &slot.instr()),
                is_transfer(&slot.instr()),
            );
        }
        self.pass(&effects_in(frame, step), is_transfer(&step.instr()));
        if is_other & step.callee.is_some() {
            // %o0 to %o5
            self.add(RegisterSet::range(8, 6));
        }
    }

    /// Of some registers something else may be known.
    fn add(&mut self, registers: RegisterSet) {
        self.locations.pass(&Effects {
            reads: registers,
            writes: RegisterSet::NONE,
            word_read: None,
            word_written: None,
        });
    }
}

/// The locations of which something else may be known behind a block in a frame of so many bytes, by those where it
/// begins; and whether the block itself runs otherwise than before, and is a test then.
pub fn spread_behind(
    frame: u32,
    block: &Block,
    locations: &LocationSet,
    (is_other, is_test): (bool, bool),
) -> LocationSet {
    let mut found = Spreading {
        locations: *locations,
        compared: RegisterSet::NONE,
    };
    for step in block.steps.as_slice() {
        found.pass_step(frame, step, is_other);
    }
    let compared = found.compared;
    if let End::Branch { .. } = block.end
        && (is_test || !compared.is_disjoint(found.locations.registers()))
    {
        found.add(compared);
    }
    if let Some(slot) = &block.slot {
        found.pass(
            &effects_of(frame, &slot.instr()),
            is_transfer(&slot.instr()),
        );
    }
    found.locations
}

/// Adds the locations of some cells that have no range or another one among others; both stand by location.
fn add_differing(found: &mut LocationSet, cells: &[Cell], others: &[Cell]) {
    let mut place: usize = 0;
    for cell in cells {
        let is_same = match range_from(others, &mut place, cell.location) {
            Some(range) => range == cell.range,
            None => false,
        };
        if !is_same {
            found.insert(cell.location);
        }
    }
}

/// The cells that are known; none where nothing is.
fn known_of(cells: &Option<Vec<Cell>>) -> &[Cell] {
    match cells {
        Some(cells) => cells.as_slice(),
        None => &[],
    }
}

/// The locations of which some cells say something else than others.
pub fn differing(cells: &Option<Vec<Cell>>, others: &Option<Vec<Cell>>) -> LocationSet {
    let mut found = LocationSet::none();
    add_differing(&mut found, known_of(cells), known_of(others));
    add_differing(&mut found, known_of(others), known_of(cells));
    found
}
