//! The choice of blocks of a stretch that are looked at again: where few run otherwise than before, those to which that
//! may make a difference. Where it makes one to others all the same, the whole stretch is.
use crate::flow::known::touched_in;
use crate::flow::spread::{differing, spread_behind};
use crate::flow::{Analysis, FunctionRanges, WayStates, add_cells};
use fit_code::{Block, End, Heap};
use fit_graph::successors_in;
use fit_live::LocationSet;
use sbx_range::Cell;

/// Stretches of fewer blocks are looked at as a whole.
const FEW: usize = 16;

/// So often a stretch is gone over for what spreads in it.
const ROUNDS: u32 = 16;

/// Whether a way of a block goes to an end of the run.
fn ends_run(codes: &[Block], block: usize) -> bool {
    let mut ends_run = false;
    if block < codes.len() {
        let ways = codes[block].end.ways();
        for way in 0..2 {
            if let Some(to) = ways[way]
                && to < codes.len()
            {
                ends_run |= matches!(codes[to].end, End::Exit);
            }
        }
    }
    ends_run
}

impl FunctionRanges {
    /// How many blocks of the stretch are to be visited.
    fn count_asked(&self, setting: &Analysis) -> usize {
        let order = setting.shape.order.blocks.as_slice();
        let mut count: usize = 0;
        for place in self.pending.start..self.pending.end {
            if place < order.len() && self.pending.is_asked(order[place]) {
                count = count.saturating_add(1);
            }
        }
        count
    }

    /// Where nothing was known of the begin of a block, that is what comes there.
    fn enter_new(&mut self, setting: &Analysis, memory: &mut Heap, block: usize) {
        if block > 0 && self.cells(block).is_none() {
            let cells = self.common(setting, memory, (block, usize::MAX), None);
            let blocks = self.blocks.as_mut_slice();
            if block < blocks.len() {
                blocks[block].cells = cells;
            }
        }
    }

    /// Tries a block that runs otherwise than before, by what was known where it begins, or, if it is new, by what
    /// comes there.
    fn try_block(
        &mut self,
        setting: &Analysis,
        memory: &mut Heap,
        block: usize,
        run: &mut WayStates,
    ) {
        let codes = setting.function.blocks.as_slice();
        if block >= codes.len() {
            return;
        }
        self.enter_new(setting, memory, block);
        let touched = touched_in(setting.function, &codes[block]);
        let ways = self.ways_by(setting, memory, (block, &touched), run);
        let blocks = self.blocks.as_mut_slice();
        if block < blocks.len() {
            blocks[block].try_with(ways, touched);
        }
    }

    /// Tries the blocks of the stretch that run otherwise than before.
    fn try_all(&mut self, setting: &Analysis, memory: &mut Heap, run: &mut WayStates) {
        let order = setting.shape.order.blocks.as_slice();
        for place in self.pending.start..self.pending.end {
            if place < order.len() {
                let block = order[place];
                let blocks = self.blocks.as_slice();
                if block < blocks.len() && blocks[block].is_other {
                    self.try_block(setting, memory, block, run);
                }
            }
        }
    }

    /// Notes of which locations something else is known where a way of a block ends than before, for the block that it
    /// leads to, if it did before.
    fn note_way(&mut self, setting: &Analysis, block: usize, way: usize) {
        let blocks = self.blocks.as_mut_slice();
        if let Some(to) = successors_in(setting.function, block)[way % 2]
            && setting.shape.order.place(to) < Some(self.pending.end)
            && (block < blocks.len()) & (to < blocks.len())
            && blocks[to].was_led_to(block.saturating_mul(2).saturating_add(way % 2))
        {
            let locations = blocks[block].differing_along(way);
            let _grew = blocks[to].spread.add(&locations);
        }
    }

    /// What is known along the ways that lead to a block since then.
    fn along_came(&self, memory: &mut Heap, block: usize) -> Option<Vec<Cell>> {
        let mut found = None;
        let blocks = self.blocks.as_slice();
        if block < blocks.len() {
            for way in blocks[block].came.as_slice() {
                if let Some(cells) = self.way_cells(*way / 2, *way % 2) {
                    add_cells(memory, &mut found, cells, None);
                }
            }
        }
        found
    }

    /// Notes the same of the ways that lead to a block since then, beside those that did before.
    fn note_came(&mut self, memory: &mut Heap, block: usize) {
        let blocks = self.blocks.as_slice();
        if block < blocks.len() && blocks[block].is_led_anew() {
            let found = self.along_came(memory, block);
            let blocks = self.blocks.as_mut_slice();
            if block < blocks.len() {
                let locations = differing(&found, &blocks[block].lost);
                let _grew = blocks[block].spread.add(&locations);
            }
        }
    }

    /// Notes for the blocks of the stretch of which locations something else is known since blocks were tried.
    fn note_all(&mut self, setting: &Analysis, memory: &mut Heap) {
        let order = setting.shape.order.blocks.as_slice();
        for place in self.pending.start..self.pending.end {
            if place < order.len() {
                let block = order[place];
                let blocks = self.blocks.as_slice();
                if block < blocks.len() && blocks[block].is_other {
                    self.note_way(setting, block, 0);
                    self.note_way(setting, block, 1);
                }
                self.note_came(memory, block);
            }
        }
    }

    /// What spreads behind a block.
    fn behind(&self, setting: &Analysis, block: usize) -> LocationSet {
        let (codes, blocks) = (setting.function.blocks.as_slice(), self.blocks.as_slice());
        if (block >= codes.len()) | (block >= blocks.len()) {
            return LocationSet::none();
        }
        let known = &blocks[block];
        if !known.is_other && known.spread.is_disjoint(&known.touched) {
            return known.spread;
        }
        let is_test = known.is_other && ends_run(codes, block);
        let how = (known.is_other, is_test);
        spread_behind(setting.function.frame, &codes[block], &known.spread, how)
    }

    /// Lets what spreads go on behind a block; says whether it comes to where it wasn't.
    fn spread_on(&mut self, setting: &Analysis, block: usize) -> bool {
        let behind = self.behind(setting, block);
        let live = setting.shape.live.as_slice();
        let blocks = self.blocks.as_mut_slice();
        let ways = successors_in(setting.function, block);
        let mut is_new = false;
        for way in 0..2 {
            if let Some(to) = ways[way]
                && setting.shape.order.place(to) < Some(self.pending.end)
                && (to < live.len()) & (to < blocks.len())
            {
                let has_grown = blocks[to].spread.add(&behind.intersection(&live[to]));
                blocks[to].spreads |= has_grown;
                is_new |= has_grown;
            }
        }
        is_new
    }

    /// What spreads to a block of the stretch, or from it, since it runs otherwise than before, is to go on behind it.
    fn begin_spread(&mut self, setting: &Analysis) {
        let order = setting.shape.order.blocks.as_slice();
        for place in self.pending.start..self.pending.end {
            let blocks = self.blocks.as_mut_slice();
            if place < order.len() && order[place] < blocks.len() {
                let known = &mut blocks[order[place]];
                known.spreads = known.is_other || !known.spread.is_empty();
            }
        }
    }

    /// Lets what spreads go on behind each block of the stretch; says whether it comes to where it wasn't.
    fn spread_once(&mut self, setting: &Analysis) -> bool {
        let order = setting.shape.order.blocks.as_slice();
        let mut is_new = false;
        for place in self.pending.start..self.pending.end {
            if place < order.len() {
                let block = order[place];
                let blocks = self.blocks.as_mut_slice();
                if block < blocks.len() && blocks[block].spreads {
                    blocks[block].spreads = false;
                    is_new |= self.spread_on(setting, block);
                }
            }
        }
        is_new
    }

    /// Lets what spreads go on until it comes nowhere new; says whether that was in so many rounds.
    fn spread_all(&mut self, setting: &Analysis) -> bool {
        let mut is_new = true;
        self.begin_spread(setting);
        for _ in 0..ROUNDS {
            if is_new {
                is_new = self.spread_once(setting);
            }
        }
        !is_new
    }

    /// Picks the blocks of the stretch that are to be visited, and those to which something spreads; says how many.
    fn pick_spread(&mut self, setting: &Analysis) -> usize {
        let order = setting.shape.order.blocks.as_slice();
        let mut count: usize = 0;
        for place in self.pending.start..self.pending.end {
            if place < order.len() {
                let block = order[place];
                let mut is_in = self.pending.is_asked(block);
                if block < self.blocks.len() {
                    let known = &self.blocks.as_slice()[block];
                    is_in |= known.is_other | !known.spread.is_empty();
                }
                count = count.saturating_add(usize::from(is_in));
                let picked = self.pending.picked.as_mut_slice();
                if block < picked.len() {
                    picked[block] = is_in;
                }
            }
        }
        count
    }

    /// Picks the blocks of the stretch that are looked at again; says whether these are few.
    pub fn pick(&mut self, setting: &Analysis, memory: &mut Heap, run: &mut WayStates) -> bool {
        let count = self.pending.end.saturating_sub(self.pending.start);
        if (count < FEW) | (self.count_asked(setting) > count / 4) {
            return false;
        }
        self.try_all(setting, memory, run);
        self.note_all(setting, memory);
        self.spread_all(setting) && self.pick_spread(setting) <= count / 4 * 3
    }

    /// Whether something else comes than before along a way of a block to one of the stretch that wasn't looked at again.
    fn leaks_along(&self, setting: &Analysis, block: usize, way: usize) -> bool {
        let blocks = self.blocks.as_slice();
        if let Some(to) = successors_in(setting.function, block)[way % 2]
            && setting.shape.order.place(to) < Some(self.pending.end)
            && block < blocks.len()
        {
            return !self.pending.has(to) && blocks[block].is_changed(way);
        }
        false
    }

    /// Whether something else comes than before to a block of the stretch that wasn't looked at again.
    pub fn leaks(&self, setting: &Analysis) -> bool {
        let places = setting.shape.order.blocks.as_slice();
        let mut leaks = false;
        for way in self.pending.start.saturating_mul(2)..self.pending.end.saturating_mul(2) {
            if way / 2 < places.len() {
                let block = places[way / 2];
                leaks |= self.pending.has(block) && self.leaks_along(setting, block, way % 2);
            }
        }
        leaks
    }
}
