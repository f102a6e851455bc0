//! The words of the page tables, as they were told.
use std::alloc::{AllocError, Global};
use v8_core::Turn;
use v8_map::{CONTEXT_TABLE, TABLES_END};
use v8_mmu::{Bus, MmuRegs, follow};

/// How many words the tables have.
const WORDS: u64 = (TABLES_END - CONTEXT_TABLE) as u64 / 4;

/// The words of the page tables, in their order, as the lines so far tell them.
#[derive(Drop)]
pub struct Tables {
    words: Vec<u32>,
}

/// An entry of the tables that changed: its place, and its word.
#[derive(Clone, Copy)]
struct Mark {
    place: u64,
    word: u32,
}

/// The place of a word of the tables.
fn place_at(number: u64) -> u64 {
    u64::from(CONTEXT_TABLE).saturating_add(number.saturating_mul(4))
}

/// Pushes a mark, if there is one.
fn push_mark(out: &mut String, mark: Option<Mark>) -> Result<(), AllocError> {
    match mark {
        Some(Mark { place, word }) => write!(out, "k{place:04X}{word:X}"),
        None => Ok(()),
    }
}

/// Where the entry lies that ends the walk of an address.
fn entry_of<B: Bus>(bus: &B, regs: &MmuRegs, address: u32) -> Option<u64> {
    match follow(bus, regs, address) {
        Ok(path) => Some(path.place),
        Err(_) => None,
    }
}

impl Tables {
    /// The tables of a bus.
    pub fn of<B: Bus>(alloc: Global, bus: &B) -> Result<Tables, AllocError> {
        let mut words = Vec::new(alloc);
        for number in 0..WORDS {
            words.push(bus.entry(place_at(number)).unwrap_or(0))?;
        }
        Ok(Tables { words })
    }

    /// Pushes the lines of the words that aren't 0.
    pub fn push(&self, out: &mut String) -> Result<(), AllocError> {
        for (number, word) in self.words.as_slice().iter().enumerate() {
            if *word != 0 {
                let place = place_at(number as u64);
                writeln!(out, "e{place:X} {word:X}")?;
            }
        }
        Ok(())
    }

    /// The mark of an entry, where its word is another than was told, which is told then.
    fn mark<B: Bus>(&mut self, bus: &B, place: Option<u64>) -> Option<Mark> {
        let place = place?;
        let word = bus.entry(place)?;
        let number = place.checked_sub(u64::from(CONTEXT_TABLE))? / 4;
        let known = self.words.as_mut_slice().get_mut(number as usize)?;
        if *known == word {
            return None;
        }
        *known = word;
        Some(Mark { place, word })
    }

    /// Pushes the entries that a turn's fetch and its load or store marked, in the order of their places.
    pub fn push_marks<B: Bus>(
        &mut self,
        out: &mut String,
        bus: &B,
        regs: &MmuRegs,
        turn: &Turn,
    ) -> Result<(), AllocError> {
        let accessed = match &turn.access {
            Some(access) => entry_of(bus, regs, access.va),
            None => None,
        };
        let fetched = entry_of(bus, regs, turn.pc);
        let (first, second) = if accessed < fetched {
            (accessed, fetched)
        } else {
            (fetched, accessed)
        };
        let mark = self.mark(bus, first);
        push_mark(out, mark)?;
        let mark = self.mark(bus, second);
        push_mark(out, mark)
    }
}
