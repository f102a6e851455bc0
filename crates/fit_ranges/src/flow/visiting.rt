//! Visits of a function's blocks, one after the other, until nothing new comes to one. A block that was visited before
//! is looked at again by what came to it since, of the locations alone of which that says something else: what is
//! known of others is what it was.
use crate::flow::known::{are_same, leave_out};
use crate::flow::news::{NEWS, News, range_at};
use crate::flow::{Analysis, FunctionRanges, WayStates, add_cells, at, cells_behind};
use fit_cells::{Growth, go_along, join, range_in};
use fit_code::{Heap, hull};
use fit_graph::successors_in;
use fit_live::{LocationSet, Means};
use sbx_domain::State;
use sbx_range::Cell;

/// A loop's head is widened to thresholds behind so many changes of its cells, and any block at once to all words from
/// this many on.
const GROWTHS: u32 = 2;

const PATIENCE: u32 = 400;

/// What is known where a block begins, and whether that is what comes along the ways that lead to it, and no more.
#[derive(Drop)]
struct NewCells {
    cells: Option<Vec<Cell>>,
    is_exact: bool,
}

/// Gives cells the ranges that are said of their locations.
fn put_said(cells: &mut [Cell], said: &[Cell]) {
    if said.is_empty() {
        return;
    }
    for cell in cells {
        if let Some(range) = range_in(said, cell.location) {
            cell.range = range;
        }
    }
}

impl FunctionRanges {
    /// What the ways have in common that lead to a block from blocks before a place of the order, of all locations or
    /// of some; nothing where none of them can be gone.
    pub fn common(
        &self,
        setting: &Analysis,
        memory: &mut Heap,
        (block, before): (usize, usize),
        within: Option<&News>,
    ) -> Option<Vec<Cell>> {
        let mut found: Option<Vec<Cell>> = None;
        let blocks = self.blocks.as_slice();
        for way in at(setting.shape.sources.as_slice(), block) {
            let from = *way / 2;
            let is_before = matches!(setting.shape.order.place(from), Some(it) if it < before);
            if is_before & (from < blocks.len()) {
                let known = &blocks[from];
                if let Some(cells) = &known.ways[*way % 2] {
                    add_cells(memory, &mut found, cells.as_slice(), within);
                }
            }
        }
        found
    }

    /// Lets what was known where the block of a place begins, of all locations or of some, grow by what comes along the
    /// ways that lead to it. Before ends go to thresholds, what comes into the loop of a head is joined: what only
    /// grows by the ways back goes there.
    fn raise(
        &self,
        setting: &Analysis,
        memory: &mut Heap,
        (place, block): (usize, usize),
        within: Option<&News>,
        (raised, cells): (&mut Vec<Cell>, &[Cell]),
    ) {
        let blocks = self.blocks.as_slice();
        let changes = if block < blocks.len() {
            blocks[block].changes
        } else {
            0
        };
        let (growth, before) = if changes >= PATIENCE {
            (Growth::ToAll, 0)
        } else if changes > GROWTHS && setting.shape.end_of(block) > place {
            let growth = Growth::ToThresholds(setting.thresholds, setting.common);
            (growth, place)
        } else {
            (Growth::Least, 0)
        };
        if before > 0
            && let Some(entering) = self.common(setting, memory, (block, before), within)
        {
            join(Growth::Least, raised, entering.as_slice());
        }
        join(growth, raised, cells);
    }

    /// What the cells of the block of a place become by what comes along the ways that lead to it; nothing where none
    /// of them can be gone. Cells that are said have the ranges that are said.
    fn new_cells(
        &self,
        setting: &Analysis,
        memory: &mut Heap,
        (grow, place, block): (bool, usize, usize),
    ) -> NewCells {
        let Some(mut cells) = self.common(setting, memory, (block, usize::MAX), None) else {
            return NewCells {
                cells: None,
                is_exact: false,
            };
        };
        let mut is_exact = true;
        if grow && let Some(old) = self.cells(block) {
            let mut raised = memory.copy(old);
            let grown = (&mut raised, cells.as_slice());
            self.raise(setting, memory, (place, block), None, grown);
            is_exact = are_same(raised.as_slice(), cells.as_slice());
            cells = raised;
        }
        put_said(cells.as_mut_slice(), at(setting.said, block));
        NewCells {
            cells: Some(cells),
            is_exact,
        }
    }

    /// The cells of the block of a place that are others by what comes along its ways now, where something else comes
    /// of some locations alone, and whether what is known there is what comes then; nothing where other locations are
    /// known.
    fn changed_cells(
        &self,
        setting: &Analysis,
        memory: &mut Heap,
        (grow, place, block): (bool, usize, usize),
        news: &News,
    ) -> Option<(Vec<Cell>, bool)> {
        let mut cells = self.common(setting, memory, (block, usize::MAX), Some(news))?;
        let mut raised = news.among(memory, self.cells(block)?);
        let count = raised.len();
        let mut is_exact = true;
        if grow {
            let grown = (&mut raised, cells.as_slice());
            self.raise(setting, memory, (place, block), Some(news), grown);
            is_exact = are_same(raised.as_slice(), cells.as_slice());
            cells = raised;
        }
        put_said(cells.as_mut_slice(), at(setting.said, block));
        let blocks = self.blocks.as_slice();
        if block < blocks.len() && blocks[block].keep_changed(&mut cells, count) {
            return Some((cells, is_exact));
        }
        None
    }

    /// The way that leads to the block of a place, by its number, if that is one alone, and no end of a range goes
    /// further than what comes along it.
    fn only_way(
        &self,
        setting: &Analysis,
        (grow, place, block): (bool, usize, usize),
    ) -> Option<usize> {
        let blocks = self.blocks.as_slice();
        let sources = at(setting.shape.sources.as_slice(), block);
        if (sources.len() != 1) | (block >= blocks.len()) || !at(setting.said, block).is_empty() {
            return None;
        }
        let changes = blocks[block].changes;
        let is_held = changes <= GROWTHS || setting.shape.end_of(block) <= place;
        if !grow | is_held & (changes < PATIENCE) {
            return Some(sources[0]);
        }
        None
    }

    /// The cells of a block that are others by what comes now along the one way that leads to it, where something else
    /// comes of some locations alone, and whether what is known there is what comes then; nothing where other locations
    /// are known.
    fn changed_along(
        &self,
        memory: &mut Heap,
        (grow, block, way): (bool, usize, usize),
        news: &News,
    ) -> Option<(Vec<Cell>, bool)> {
        let (coming, known) = (self.way_cells(way / 2, way % 2)?, self.cells(block)?);
        let (mut changed, mut is_exact) = (Vec::new(memory.alloc), true);
        let mut next: u16 = 1;
        for _ in 0..NEWS {
            let Some(location) = news.first_from(next) else {
                break;
            };
            match (range_at(coming, location), range_at(known, location)) {
                (Some(came), Some(old)) => {
                    let range = if grow { hull(old, came) } else { came };
                    is_exact &= range == came;
                    if range != old {
                        memory.push(&mut changed, Cell { location, range });
                    }
                }
                (None, None) => {}
                _ => return None,
            }
            next = location.saturating_add(1);
        }
        Some((changed, is_exact))
    }

    /// Whether one way leads to a block, and what comes along it is what is known where the block begins.
    fn comes_as_before(&self, setting: &Analysis, block: usize) -> bool {
        let blocks = self.blocks.as_slice();
        let sources = at(setting.shape.sources.as_slice(), block);
        if (sources.len() == 1) & at(setting.said, block).is_empty() && block < blocks.len() {
            let way = sources[0];
            return way / 2 < blocks.len() && blocks[block].is_as(&blocks[way / 2], way);
        }
        false
    }

    /// Something came to a block: it is to be visited, if it stands in the stretch.
    fn lead(&mut self, setting: &Analysis, to: usize, news: &News) {
        let blocks = self.blocks.as_mut_slice();
        if !news.is_empty()
            && let Some(place) = setting.shape.order.place(to)
            && place < self.pending.end
            && self.pending.has(to)
            && to < blocks.len()
        {
            blocks[to].hear(news);
            self.pending.mark_at(to, place);
        }
    }

    /// Takes over what is known where a way of a block ends.
    fn end_way(
        &mut self,
        setting: &Analysis,
        (block, way, to): (usize, usize, Option<usize>),
        found: Option<Vec<Cell>>,
    ) {
        let blocks = self.blocks.as_mut_slice();
        if let Some(to) = to
            && block < blocks.len()
        {
            let news = blocks[block].replace_way(way, found);
            self.lead(setting, to, &news);
        }
    }

    /// Goes on along each way of a block with cells that are others, of locations that it doesn't touch.
    fn pass(&mut self, setting: &Analysis, block: usize, changed: &[Cell]) {
        let ways = successors_in(setting.function, block);
        for way in 0..2 {
            let blocks = self.blocks.as_mut_slice();
            if let Some(to) = ways[way]
                && block < blocks.len()
            {
                let news = blocks[block].pass(way, changed);
                self.lead(setting, to, &news);
            }
        }
    }

    /// Goes on along a way of a block, where the state is that behind its steps, of what it touches, and these cells
    /// are others of what it doesn't touch. The same locations are known where the block begins as before.
    fn go_on(
        &mut self,
        setting: &Analysis,
        memory: &mut Heap,
        (block, way, to): (usize, usize, usize),
        (touched, changed): (&LocationSet, &[Cell]),
        state: &mut State,
    ) {
        let (codes, live) = (
            setting.function.blocks.as_slice(),
            setting.shape.live.as_slice(),
        );
        if (block >= codes.len()) | (block >= self.blocks.len()) | (to >= live.len()) {
            return;
        }
        let frame = setting.function.frame;
        if !go_along(frame, &codes[block], way, state) {
            return self.end_way(setting, (block, way, Some(to)), None);
        }
        let asked = live[to].intersection(touched);
        let blocks = self.blocks.as_mut_slice();
        let news = blocks[block].go_on(way, frame, (&asked, changed), state);
        if news.are_all {
            let cells = self.cells(block).unwrap_or(&[]);
            let found = cells_behind(memory, (frame, &live[to]), (touched, cells), state);
            let blocks = self.blocks.as_mut_slice();
            let _differs = blocks[block].replace_way(way, Some(found));
        }
        self.lead(setting, to, &news);
    }

    /// Runs a block of which some cells are others than when it was run last, and goes on along each of its ways.
    fn run_for(
        &mut self,
        setting: &Analysis,
        memory: &mut Heap,
        (block, mut changed): (usize, Vec<Cell>),
        run: &mut WayStates,
    ) {
        let touched = self.touched(block);
        if !self.run_steps(setting, (block, &touched), &mut run.state) {
            return;
        }
        leave_out(&mut changed, &touched);
        let known = (&touched, changed.as_slice());
        let [first, second] = successors_in(setting.function, block);
        if let Some(to) = second {
            // (the first way says more of what was compared)
            run.state.copy_to(&mut run.second);
            self.go_on(setting, memory, (block, 1, to), known, &mut run.second);
        }
        if let Some(to) = first {
            self.go_on(setting, memory, (block, 0, to), known, &mut run.state);
        }
    }

    /// Visits the block of a place to which something else came since it was visited last, of these locations alone.
    /// Says whether that is done: not where other locations are known then.
    fn visit_for(
        &mut self,
        setting: &Analysis,
        memory: &mut Heap,
        (grow, place, block): (bool, usize, usize),
        news: &News,
        run: &mut WayStates,
    ) -> bool {
        let at = (grow, place, block);
        let found = match self.only_way(setting, at) {
            _ if news.is_empty() => Some((Vec::new(memory.alloc), true)),
            Some(way) => self.changed_along(memory, (grow, block, way), news),
            None => self.changed_cells(setting, memory, at, news),
        };
        let blocks = self.blocks.as_mut_slice();
        let Some((changed, is_exact)) = found else {
            return false;
        };
        if block >= blocks.len() {
            return false;
        }
        let known = &mut blocks[block];
        known.is_settled = !grow;
        known.is_exact &= is_exact;
        let passes = known.passes(changed.as_slice());
        if known.take_ranges(changed.as_slice(), grow) {
            if passes {
                self.pass(setting, block, changed.as_slice());
            } else {
                self.run_for(setting, memory, (block, changed), run);
            }
        }
        true
    }

    /// Visits the block of a place, by all that comes along the ways that lead to it.
    fn visit_whole(
        &mut self,
        setting: &Analysis,
        memory: &mut Heap,
        (grow, place, block): (bool, usize, usize),
        run: &mut WayStates,
    ) {
        let comes_as_before = self.comes_as_before(setting, block);
        let found = if comes_as_before {
            None
        } else {
            Some(self.new_cells(setting, memory, (grow, place, block)))
        };
        let blocks = self.blocks.as_mut_slice();
        if block >= blocks.len() {
            return;
        }
        let known = &mut blocks[block];
        let Some(NewCells { cells, is_exact }) = found else {
            known.is_exact = true;
            return;
        };
        known.is_settled = !grow | known.cells.is_none();
        known.is_exact = is_exact;
        let passes = (block > 0) & known.passes_on(&cells);
        if !known.take(cells, block == 0, grow) {
            return;
        }
        let [first, second] = successors_in(setting.function, block);
        let [taken, next] = if passes {
            self.ways_on(memory, block)
        } else {
            let touched = self.touched(block);
            self.ways_by(setting, memory, (block, &touched), run)
        };
        self.end_way(setting, (block, 0, first), taken);
        self.end_way(setting, (block, 1, second), next);
    }

    /// Visits the block of a place, whose cells grow or else get narrower. Where they are others then, it goes on
    /// along each of its ways, or only with what it doesn't touch; the blocks where something else is known at a way's
    /// end are to be visited, if they stand in the stretch.
    fn visit(
        &mut self,
        setting: &Analysis,
        memory: &mut Heap,
        (grow, place, block): (bool, usize, usize),
        run: &mut WayStates,
    ) {
        let blocks = self.blocks.as_mut_slice();
        if block >= blocks.len() {
            return;
        }
        let to = (grow, place, block);
        let is_done = match blocks[block].take_news(grow) {
            // (of a function's first block the state knows what it is called with)
            Some(news) if block > 0 => self.visit_for(setting, memory, to, &news, run),
            _ => false,
        };
        if !is_done {
            self.visit_whole(setting, memory, to, run);
        }
    }

    /// Whether a block is to be visited when it is come to: nothing but what comes along its ways was put into it, and
    /// nothing else came since.
    fn is_open(&self, block: usize) -> bool {
        let blocks = self.blocks.as_slice();
        self.pending.has(block) && block < blocks.len() && !blocks[block].is_settled
    }

    /// Visits each block of the stretch, and again those that are to be visited, the first one first, until none is.
    pub fn visit_all(
        &mut self,
        setting: &Analysis,
        means: &mut Means,
        grow: bool,
        run: &mut WayStates,
    ) {
        let (order, end) = (setting.shape.order.blocks.as_slice(), self.pending.end);
        let most = end.saturating_add(1).saturating_mul(2_000);
        let mut visits: usize = 0;
        // The first place whose block wasn't visited yet.
        let mut fresh = self.pending.start;
        self.pending.first = fresh;
        // Each turn visits a block.
        for _ in 0..usize::MAX {
            let place = self.pending.next(fresh);
            if (place >= end) | means.are_used_up() || place >= order.len() {
                return;
            }
            let block = order[place];
            self.pending.visit(block, place);
            fresh = fresh.max(place.saturating_add(1));
            if self.is_open(block) {
                self.visit(setting, &mut means.memory, (grow, place, block), run);
            }
            visits = visits.saturating_add(1);
            if visits == most {
                let what = "visits of blocks whose ranges are looked for";
                means.spend(setting.function.line, what, most as u64);
            }
        }
    }
}
