//! The knowledge of a function's blocks so far.
use crate::flow::news::News;
use crate::flow::spread::differing;
use fit_cells::{place_of, range_from};
use fit_code::{Block, End, Function, Heap, RegisterSet};
use fit_live::{Effects, LocationSet, effects_in, effects_of};
use sbx_domain::{LOCATIONS, State};
use sbx_range::Cell;
use std::alloc::Global;
use std::mem;

/// A block is narrowed at most so often.
const NARROWINGS: u32 = 6;

/// What is known of a block.
#[derive(Drop)]
pub struct BlockRanges {
    /// What is known where it begins; nothing where no way comes there.
    pub cells: Option<Vec<Cell>>,
    /// What is known where each of its ways ends; nothing of one that can't be gone.
    pub ways: [Option<Vec<Cell>>; 2],
    /// The same before its ranges were last forgotten, or tried.
    before: [Option<Vec<Cell>>; 2],
    /// What was known then where it begins.
    cells_before: Option<Vec<Cell>>,
    /// Whether its ranges were tried since, so that what was known before is noted.
    is_tried: bool,
    /// What it reads or writes, and whether it has a call, or returns.
    pub touched: LocationSet,
    pub is_told: bool,
    /// How often its cells grew since they were last forgotten, and how often they were narrowed.
    pub changes: u32,
    narrowings: u32,
    /// Whether what is known where it begins is what comes along the ways that lead to it, and no more.
    pub is_settled: bool,
    /// The same but for what came since it was visited last, which is this.
    pub is_exact: bool,
    news: News,
    /// Whether it runs otherwise than when its ranges were found: it is new, or its steps or its end are others, or
    /// what a callee gives back, or what is live behind it.
    pub is_other: bool,
    is_new: bool,
    /// The ways that lead to it since then, and what was known along those that don't any more.
    pub came: Vec<usize>,
    pub lost: Option<Vec<Cell>>,
    /// The locations of which something else may be known where it begins, and whether these go on behind it yet.
    pub spread: LocationSet,
    pub spreads: bool,
    /// Whether it runs otherwise than before the ranges were found anew, or something else is known where it begins.
    pub is_fresh: bool,
}

/// Whether both are the same cells.
pub fn are_same(a: &[Cell], b: &[Cell]) -> bool {
    let mut are_same = a.len() == b.len();
    for place in 0..a.len() {
        if place < b.len() {
            let (one, other) = (&a[place], &b[place]);
            are_same &= (one.location == other.location) & (one.range == other.range);
        }
    }
    are_same
}

/// Whether both are the same.
fn are_equal(a: &Option<Vec<Cell>>, b: &Option<Vec<Cell>>) -> bool {
    match (a, b) {
        (Some(a), Some(b)) => are_same(a.as_slice(), b.as_slice()),
        (None, None) => true,
        _ => false,
    }
}

/// Leaves of cells those that have another range than among others, where both stand by location. Says whether all
/// stand there.
fn keep_changed(cells: &mut Vec<Cell>, known: &[Cell]) -> bool {
    let slots = cells.as_mut_slice();
    let (mut count, mut among): (usize, usize) = (0, 0);
    for place in 0..slots.len() {
        let cell = slots[place];
        let Some(range) = range_from(known, &mut among, cell.location) else {
            return false;
        };
        if range != cell.range && count < slots.len() {
            slots[count] = cell;
            count = count.saturating_add(1);
        }
    }
    cells.truncate(count);
    true
}

/// Takes out of cells those of some locations.
pub fn leave_out(cells: &mut Vec<Cell>, locations: &LocationSet) {
    let slots = cells.as_mut_slice();
    let mut count: usize = 0;
    for place in 0..slots.len() {
        let cell = slots[place];
        if !locations.has(cell.location) && count < slots.len() {
            slots[count] = cell;
            count = count.saturating_add(1);
        }
    }
    cells.truncate(count);
}

/// Gives cells, which stand by location, the ranges of others that have their locations. Adds those that have another
/// range then to what is new.
fn put_ranges(cells: &mut [Cell], others: &[Cell], news: &mut News) {
    for other in others {
        if let Some(place) = place_of(&*cells, other.location)
            && place < cells.len()
            && cells[place].range != other.range
        {
            cells[place].range = other.range;
            news.insert(other.location);
        }
    }
}

/// Gives cells of a function with a frame of so many bytes, which stand by location, the ranges that a state knows of
/// these locations, and adds those that have another range then to what is new. Where the state knows others of them,
/// all is.
fn put_known(
    cells: &mut [Cell],
    (frame, asked): (u32, &LocationSet),
    state: &State,
    news: &mut News,
) {
    // word k of the frame, at 64 + 4 k bytes of it, is location 32 + k
    let end = (32 + frame.min(4_096) / 4) as u16;
    let mut next: u16 = 1;
    for _ in 0..LOCATIONS {
        let location = match asked.first_from(next) {
            Some(location) if location < end => location,
            _ => return,
        };
        match (state.range(location), place_of(&*cells, location)) {
            (Some(range), Some(place)) if place < cells.len() => {
                if cells[place].range != range {
                    cells[place].range = range;
                    news.insert(location);
                }
            }
            (None, None) => {}
            _ => news.are_all = true,
        }
        next = location.saturating_add(1);
    }
}

/// Puts cells in the place of others. Says whether they aren't the same.
fn replace(slot: &mut Option<Vec<Cell>>, new: Option<Vec<Cell>>) -> bool {
    let is_new = !are_equal(slot, &new);
    *slot = new;
    is_new
}

/// Adds what is read and written: one word of the frame at most, which is both at times.
fn add_effects(touched: &mut LocationSet, effects: &Effects) {
    touched.pass(&Effects {
        reads: effects.reads.union(effects.writes),
        writes: RegisterSet::NONE,
        word_read: effects.word_read.or(effects.word_written),
        word_written: None,
    });
}

/// Whether a block has a call, or returns.
pub fn is_told(code: &Block) -> bool {
    let mut is_told = matches!(code.end, End::Return(_));
    for step in code.steps.as_slice() {
        is_told |= step.callee.is_some();
    }
    is_told
}

/// The locations that a block reads or writes. What its branch is taken by is among them, since a compare reads it.
pub fn touched_in(function: &Function, block: &Block) -> LocationSet {
    let mut touched = LocationSet::none();
    for step in block.steps.as_slice() {
        add_effects(&mut touched, &effects_in(function.frame, step));
        if let Some(slot) = &step.slot {
            add_effects(&mut touched, &effects_of(function.frame, &slot.instr()));
        }
    }
    if let Some(slot) = &block.slot {
        add_effects(&mut touched, &effects_of(function.frame, &slot.instr()));
    }
    touched
}

impl BlockRanges {
    /// Nothing is known of a block.
    pub fn nothing(alloc: Global) -> BlockRanges {
        BlockRanges {
            cells: None,
            ways: [None, None],
            before: [None, None],
            cells_before: None,
            is_tried: false,
            touched: LocationSet::none(),
            is_told: true,
            changes: 0,
            narrowings: 0,
            is_settled: false,
            is_exact: false,
            news: News::nothing(),
            is_other: true,
            is_new: true,
            came: Vec::new(alloc),
            lost: None,
            spread: LocationSet::none(),
            spreads: false,
            is_fresh: true,
        }
    }

    /// Notes what is known of it, and forgets that.
    pub fn forget(&mut self) {
        self.cells_before = mem::replace(&mut self.cells, None);
        let ways = mem::replace(&mut self.ways, [None, None]);
        if !self.is_tried {
            self.before = ways;
        }
        self.is_tried = false;
        self.changes = 0;
        self.narrowings = 0;
        self.is_settled = false;
        self.is_exact = false;
        self.news = News::nothing();
        self.is_other = false;
        self.is_new = false;
    }

    /// Tries a block that reads or writes these locations: notes what was known where its ways end, and puts this in
    /// its place.
    pub fn try_with(&mut self, ways: [Option<Vec<Cell>>; 2], touched: LocationSet) {
        let before = mem::replace(&mut self.ways, ways);
        if !self.is_tried {
            self.before = before;
        }
        self.is_tried = true;
        self.touched = touched;
    }

    /// Its ranges are found: notes whether something else is known where it begins than before.
    pub fn found(&mut self) {
        self.is_fresh |= !are_equal(&self.cells, &self.cells_before);
        self.spread = LocationSet::none();
        self.came.clear();
        self.lost = None;
    }

    /// Whether a way led to it before, given by its number.
    pub fn was_led_to(&self, way: usize) -> bool {
        !self.is_new & !self.came.as_slice().contains(&way)
    }

    /// Whether other ways lead to it than before.
    pub fn is_led_anew(&self) -> bool {
        !self.is_new & (!self.came.is_empty() | self.lost.is_some())
    }

    /// The locations of which something else is known where a way ends than before.
    pub fn differing_along(&self, way: usize) -> LocationSet {
        differing(&self.ways[way % 2], &self.before[way % 2])
    }

    /// Whether what is known where a way of another block ends is what is known where it begins.
    pub fn is_as(&self, other: &BlockRanges, way: usize) -> bool {
        self.cells.is_some() && are_equal(&self.cells, &other.ways[way % 2])
    }

    /// Whether something else is known where a way ends than before its ranges were forgotten.
    pub fn is_changed(&self, way: usize) -> bool {
        !are_equal(&self.ways[way % 2], &self.before[way % 2])
    }

    /// Something came to it, which is to be looked at.
    pub fn hear(&mut self, news: &News) {
        self.news.add(news);
        self.is_settled = false;
    }

    /// What came to it since it was visited, which is now, and its cells grow or get narrower; nothing where all that
    /// comes to it is to be looked at, as where its ways weren't gone on along for the cells before.
    pub fn take_news(&mut self, grow: bool) -> Option<News> {
        let news = mem::replace(&mut self.news, News::nothing());
        let is_followed = self.cells.is_some() & (self.narrowings <= NARROWINGS);
        if !news.are_all & is_followed & (grow | self.is_exact) {
            return Some(news);
        }
        None
    }

    /// Puts what is known where a way ends in the place of what was; gives what is new.
    pub fn replace_way(&mut self, way: usize, found: Option<Vec<Cell>>) -> News {
        let news = News::between(&self.ways[way % 2], &found);
        self.ways[way % 2] = found;
        news
    }

    /// Takes over these cells where a way ends, as far as their locations are live there. Gives what is new.
    pub fn pass(&mut self, way: usize, changed: &[Cell]) -> News {
        let mut news = News::nothing();
        if let Some(cells) = &mut self.ways[way % 2] {
            put_ranges(cells.as_mut_slice(), changed, &mut news);
        }
        news
    }

    /// Takes over what a state knows of these locations where a way ends, in a frame of so many bytes, and cells of
    /// others; gives what is new. All is where other locations are known than before.
    pub fn go_on(
        &mut self,
        way: usize,
        frame: u32,
        (asked, changed): (&LocationSet, &[Cell]),
        state: &State,
    ) -> News {
        match &mut self.ways[way % 2] {
            Some(cells) => {
                let mut news = News::nothing();
                put_ranges(cells.as_mut_slice(), changed, &mut news);
                put_known(cells.as_mut_slice(), (frame, asked), state, &mut news);
                news
            }
            None => News::all(),
        }
    }

    /// Leaves of new cells, of locations that are known there already, those that are others, if no location lacks of
    /// so many. Says whether none does.
    pub fn keep_changed(&self, cells: &mut Vec<Cell>, count: usize) -> bool {
        match &self.cells {
            Some(known) => cells.len() == count && keep_changed(cells, known.as_slice()),
            None => false,
        }
    }

    /// Whether it needn't be run for these new cells, of locations that are known there already: it touches none of
    /// them.
    pub fn passes(&self, changed: &[Cell]) -> bool {
        let mut passes = true;
        for cell in changed {
            passes &= !self.touched.has(cell.location);
        }
        passes
    }

    /// Takes over new cells, of locations that are known there already, which grew or got narrower; says whether the
    /// block has to be run for them.
    pub fn take_ranges(&mut self, changed: &[Cell], grow: bool) -> bool {
        let mut news = News::nothing();
        if let Some(cells) = &mut self.cells {
            put_ranges(cells.as_mut_slice(), changed, &mut news);
        }
        self.count(!news.is_empty(), grow)
    }

    /// Counts a change of its cells, if there is one; says whether it is to be run for it.
    fn count(&mut self, is_new: bool, grow: bool) -> bool {
        if grow {
            self.changes = self.changes.saturating_add(u32::from(is_new));
            is_new
        } else {
            self.narrowings = self.narrowings.saturating_add(u32::from(is_new));
            is_new & (self.narrowings <= NARROWINGS)
        }
    }

    /// Takes over cells that grew or got narrower; says whether the block has to be run for them. A function's first
    /// block, which has none, is run once where it grows, and not where it gets narrower.
    pub fn take(&mut self, cells: Option<Vec<Cell>>, is_entry: bool, grow: bool) -> bool {
        let is_taken = if grow { cells.is_some() } else { !is_entry };
        let is_new = is_taken && replace(&mut self.cells, cells);
        let is_first = grow & is_entry & (self.changes == 0);
        self.count(is_new | is_first, grow)
    }

    /// Whether the block needn't be run for its new cells: the same locations are known, and those that it reads or
    /// writes have the same ranges, so that all that is new it passes on as it comes. Not so where it wasn't run for
    /// the cells before.
    pub fn passes_on(&self, new: &Option<Vec<Cell>>) -> bool {
        let (Some(old), Some(new)) = (&self.cells, new) else {
            return false;
        };
        let (old, new) = (old.as_slice(), new.as_slice());
        let mut passes = (old.len() == new.len()) & (self.narrowings <= NARROWINGS);
        for place in 0..old.len() {
            if place < new.len() {
                let (before, after) = (&old[place], &new[place]);
                let is_same = (before.range == after.range) | !self.touched.has(after.location);
                passes &= (before.location == after.location) & is_same;
            }
        }
        passes
    }

    /// What is known where a way ends, if it can be gone, with the ranges that what the block doesn't touch has where
    /// it begins.
    pub fn passed_on(&self, memory: &mut Heap, way: usize) -> Option<Vec<Cell>> {
        let (Some(cells), Some(end)) = (&self.cells, &self.ways[way % 2]) else {
            return None;
        };
        let mut passed = memory.copy(end.as_slice());
        let mut place: usize = 0;
        for cell in passed.as_mut_slice() {
            if !self.touched.has(cell.location)
                && let Some(range) = range_from(cells.as_slice(), &mut place, cell.location)
            {
                cell.range = range;
            }
        }
        Some(passed)
    }
}
