//! News of a block: the locations of which something else came to it since it was visited.
use fit_cells::place_of;
use fit_code::Heap;
use sbx_range::{Cell, Range};

/// So many words of 64 bits have a bit for each location that is told by itself: each register, and each word that most
/// frames have.
const WORDS: usize = 2;

/// As many locations.
pub const NEWS: usize = 64 * WORDS;

/// The range of a location among cells that stand by location.
pub fn range_at(cells: &[Cell], location: u16) -> Option<Range> {
    match place_of(cells, location) {
        Some(place) if place < cells.len() => Some(cells[place].range),
        _ => None,
    }
}

/// What came to a block since it was visited.
#[derive(Clone, Copy)]
pub struct News {
    /// A bit for each location of which something else is known along a way that leads to it.
    words: [u64; WORDS],
    /// Whether that may be so of any location.
    pub are_all: bool,
}

impl News {
    /// Nothing came.
    pub fn nothing() -> News {
        News {
            words: [0; WORDS],
            are_all: false,
        }
    }

    /// Something else may be known of any location.
    pub fn all() -> News {
        News {
            words: [0; WORDS],
            are_all: true,
        }
    }

    /// Whether nothing came.
    pub fn is_empty(&self) -> bool {
        !self.are_all & (self.words[0] | self.words[1] == 0)
    }

    /// Something else is known of a location.
    pub fn insert(&mut self, location: u16) {
        let place = usize::from(location / 64);
        if place < WORDS {
            self.words[place] |= 1 << (location % 64);
        } else {
            self.are_all = true;
        }
    }

    /// Adds what else came.
    pub fn add(&mut self, other: &News) {
        for place in 0..WORDS {
            self.words[place] |= other.words[place];
        }
        self.are_all |= other.are_all;
    }

    /// The first location that isn't below one of which something else is known; none where there is none.
    pub fn first_from(&self, location: u16) -> Option<u16> {
        let (first, low) = (usize::from(location / 64), location % 64);
        for place in first..WORDS {
            let mut word = self.words[place];
            if place == first {
                word = word >> low << low;
            }
            if word != 0 {
                let bit = word.trailing_zeros().min(63) as u16;
                return Some(((place * 64) as u16).saturating_add(bit));
            }
        }
        None
    }

    /// What comes along a way of which this is known, where that was known before.
    pub fn between(old: &Option<Vec<Cell>>, new: &Option<Vec<Cell>>) -> News {
        match (old, new) {
            (None, None) => News::nothing(),
            (Some(old), Some(new)) => News::between_cells(old.as_slice(), new.as_slice()),
            _ => News::all(),
        }
    }

    /// The same of cells, which stand by location.
    fn between_cells(old: &[Cell], new: &[Cell]) -> News {
        if old.len() != new.len() {
            return News::all();
        }
        let mut news = News::nothing();
        for place in 0..new.len() {
            if place < old.len() {
                let (before, after) = (&old[place], &new[place]);
                news.are_all |= before.location != after.location;
                if before.range != after.range {
                    news.insert(after.location);
                }
            }
        }
        news
    }

    /// Those of some cells, which stand by location, of which something came.
    pub fn among(&self, memory: &mut Heap, cells: &[Cell]) -> Vec<Cell> {
        let mut found = Vec::new(memory.alloc);
        let mut next: u16 = 1;
        for _ in 0..NEWS {
            let Some(location) = self.first_from(next) else {
                break;
            };
            if let Some(range) = range_at(cells, location) {
                memory.push(&mut found, Cell { location, range });
            }
            next = location.saturating_add(1);
        }
        found
    }
}
