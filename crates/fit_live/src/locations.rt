//! Sets of locations.
use crate::effects::Effects;
use fit_code::RegisterSet;

/// So many words of 64 bits have a bit for each location.
const WORDS: usize = 17;

/// A set of registers and frame words, by their numbers as locations: 1 to 31, and 32 + k for word k of the frame.
#[derive(Clone, Copy, PartialEq, Eq)]
pub struct LocationSet {
    words: [u64; WORDS],
}

impl LocationSet {
    /// No location.
    pub fn none() -> LocationSet {
        LocationSet { words: [0; WORDS] }
    }

    /// Each location.
    pub fn all() -> LocationSet {
        LocationSet {
            words: [u64::MAX; WORDS],
        }
    }

    /// Whether a location is in the set.
    pub fn has(&self, location: u16) -> bool {
        self.words[usize::from(location / 64) % WORDS] >> (location % 64) & 1 == 1
    }

    /// The first location of the set that isn't below one; none where there is none.
    pub fn first_from(&self, location: u16) -> Option<u16> {
        let (first, low) = (usize::from(location / 64), location % 64);
        for place in first..WORDS {
            let mut word = self.words[place];
            if place == first {
                word = word >> low << low;
            }
            if word != 0 {
                let bit = word.trailing_zeros().min(63) as u16;
                return Some(((place * 64) as u16).saturating_add(bit));
            }
        }
        None
    }

    /// Takes out what is written so, and puts in what is read.
    pub fn pass(&mut self, effects: &Effects) {
        self.words[0] = self.words[0] & !effects.writes.numbers() | effects.reads.numbers();
        if let Some(location) = effects.word_written {
            self.words[usize::from(location / 64) % WORDS] &= !(1 << (location % 64));
        }
        if let Some(location) = effects.word_read {
            self.words[usize::from(location / 64) % WORDS] |= 1 << (location % 64);
        }
    }

    /// The registers of the set.
    pub fn registers(&self) -> RegisterSet {
        RegisterSet::of_numbers(self.words[0])
    }

    /// Puts another set's locations in. Says whether the set grew.
    pub fn add(&mut self, other: &LocationSet) -> bool {
        let mut grew = false;
        for place in 0..WORDS {
            let more = other.words[place] & !self.words[place];
            grew |= more != 0;
            self.words[place] |= more;
        }
        grew
    }

    /// How many locations are in the set.
    pub fn count(&self) -> usize {
        let mut count: usize = 0;
        for place in 0..WORDS {
            count = count.saturating_add(self.words[place].count_ones() as usize);
        }
        count
    }

    /// Whether no location is in the set.
    pub fn is_empty(&self) -> bool {
        let mut some: u64 = 0;
        for place in 0..WORDS {
            some |= self.words[place];
        }
        some == 0
    }

    /// Puts a location in.
    pub fn insert(&mut self, location: u16) {
        self.words[usize::from(location / 64) % WORDS] |= 1 << (location % 64);
    }

    /// Takes another set's locations out.
    pub fn take(&mut self, other: &LocationSet) {
        for place in 0..WORDS {
            self.words[place] &= !other.words[place];
        }
    }

    /// What is in both sets.
    pub fn intersection(&self, other: &LocationSet) -> LocationSet {
        let mut both = LocationSet::none();
        for place in 0..WORDS {
            both.words[place] = self.words[place] & other.words[place];
        }
        both
    }

    /// Whether no location is in both sets.
    pub fn is_disjoint(&self, other: &LocationSet) -> bool {
        let mut both: u64 = 0;
        for place in 0..WORDS {
            both |= self.words[place] & other.words[place];
        }
        both == 0
    }
}
