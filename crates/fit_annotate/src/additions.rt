//! The annotations that a source hasn't got yet, and where they stand; and what isn't shown of it.
use crate::lines::{CellLine, Head};
use crate::notes::{Note, Unproved};
use fit_code::Heap;
use fit_fuel::CallTotal;
use fit_kept::{Addition, Annotation, FunctionTotal, Value};
use fit_ranges::Ranges;
use fit_text::BlockNotes;
use sbx_image::{Cell, Function, Range};

/// What is known of a function of a program.
#[derive(Clone, Copy)]
pub struct FunctionKnown<'k> {
    /// Where its blocks begin in the source, and where the source's cells stand.
    pub heads: &'k [Head],
    pub cells: &'k [CellLine],
    pub ranges: &'k Ranges,
    /// Its number.
    pub number: usize,
    /// What the image says of it, and whether the source tells depths.
    pub said: &'k Function,
    pub tells_depths: bool,
    /// What it takes.
    pub taken: CallTotal,
    /// What is found of its blocks; nothing where its fuel isn't found, or where the source says it.
    pub blocks: &'k [BlockNotes],
}

/// What is put into a source, and what its author is told.
#[derive(Drop)]
pub struct Annotated {
    /// Both ascend by line, and so do the notes.
    pub additions: Vec<Addition>,
    pub totals: Vec<FunctionTotal>,
    pub notes: Vec<Note>,
    /// Of which some was refused where something lacks.
    pub memory: Heap,
}

/// The line before which the cell of a location stands in a block, beside those of the source, or none where the source
/// has it.
fn place_of_cell(head: &Head, cells: &[CellLine], location: u16) -> Option<u32> {
    for place in head.first_cell..head.next_cell {
        if place < cells.len() && cells[place].location >= location {
            let said = cells[place];
            return (said.location > location).then_some(said.line);
        }
    }
    Some(head.last_cell.saturating_add(1))
}

impl Annotated {
    /// Notes what isn't shown at a line.
    pub fn note(&mut self, line: u32, asked: Unproved) {
        self.memory.push(&mut self.notes, Note { line, asked });
    }

    /// A number that the source says at a line or, where that is 0, the one that is found; notes where it doesn't
    /// suffice.
    pub fn taken(&mut self, line: u32, what: &'static str, said: u64, least: u64) -> u64 {
        if said == 0 {
            return least;
        }
        if said < least {
            self.note(line, Unproved::More { what, least });
        }
        said
    }

    /// Adds an annotation before a line.
    fn push(&mut self, before: u32, name: &'static str, location: Option<u16>, value: Value) {
        let addition = Addition {
            before: before as usize,
            annotation: Annotation {
                name,
                location,
                value,
            },
        };
        self.memory.push(&mut self.additions, addition);
    }

    /// Adds the cells of a block that the source hasn't got, whose own stand here.
    fn add_cells(&mut self, said: &[CellLine], head: &Head, cells: &[Cell]) {
        for cell in cells {
            if let Some(before) = place_of_cell(head, said, cell.location) {
                let value = Value::Range(cell.range);
                self.push(before, ".cell ", Some(cell.location), value);
            }
        }
    }

    /// Adds a block's fuel.
    fn add_fuel(&mut self, head: &Head, notes: &BlockNotes) {
        let before = head.last_cell.saturating_add(1);
        self.push(before, ".fuel ", None, Value::Number(notes.fuel));
        for term in notes.terms.as_slice() {
            let value = Value::Number(i64::from(term.coefficient));
            self.push(before, ".term ", Some(term.location), value);
        }
    }

    /// Adds params or results behind a line, of which the source says so many already.
    fn add_ranges(&mut self, line: u32, name: &'static str, said: usize, ranges: &[Range]) {
        for range in &ranges[said.min(ranges.len())..] {
            self.push(line.saturating_add(1), name, None, Value::Range(*range));
        }
    }

    /// Adds what one function hasn't got: the numbers of its line, where the source says 0; its depth, where the source
    /// tells depths and not this one; what it takes for granted and gives back, as far as the source hasn't got it; and
    /// what it hasn't got of each block. What stands before one line stands in the order in which it is added.
    pub fn add_function(&mut self, known: &FunctionKnown<'_>) {
        let (said, taken, ranges) = (known.said, known.taken, known.ranges);
        if let [head, ..] = known.heads {
            let (line, room, budget) = (head.line as usize, taken.room, taken.budget.unwrap_or(0));
            if (said.budget != budget) | (u64::from(said.stack_room) != room) {
                let total = FunctionTotal { line, room, budget };
                self.memory.push(&mut self.totals, total);
            }
            if known.tells_depths & (taken.depth > 0) & !head.says_depth {
                let depth = Value::Number(i64::try_from(taken.depth).unwrap_or(i64::MAX));
                self.push(head.line.saturating_add(1), ".depth ", None, depth);
            }
            let params = ranges.params(known.number);
            self.add_ranges(head.last_param, ".param ", said.params.len(), params);
            let results = ranges.results();
            if known.number < results.len() {
                let results = results[known.number].as_slice();
                self.add_ranges(head.last_result, ".result ", said.results.len(), results);
            }
        }
        for (block, head) in known.heads.iter().enumerate() {
            if block > 0
                && let Some(cells) = ranges.cells(known.number, block)
            {
                self.add_cells(known.cells, head, cells);
            }
            if block < known.blocks.len() {
                self.add_fuel(head, &known.blocks[block]);
            }
        }
    }
}
