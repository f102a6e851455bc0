//! How many lines agree, and how many there are of each row of the format table and of each type of trap.
use crate::rows::{COUNT, ROWS, row_number};
use std::io;
use v8_core::{Event, Turn};

/// The least number of lines of a row.
const LEAST: u32 = 40;

/// Counts: `rows` of words that were fetched, by row; `traps` and `errors` by trap type.
#[derive(Drop)]
pub struct Tally {
    pub turns: u32,
    pub agreed_turns: u32,
    pub walks: u32,
    pub agreed_walks: u32,
    rows: [u32; COUNT],
    traps: [u32; 256],
    errors: [u32; 256],
}

/// Adds one to the count of this number.
fn count(counts: &mut [u32], number: usize) {
    if let Some(place) = counts.get_mut(number) {
        *place = place.saturating_add(1);
    }
}

impl Tally {
    pub const NONE: Tally = Tally {
        turns: 0,
        agreed_turns: 0,
        walks: 0,
        agreed_walks: 0,
        rows: [0; COUNT],
        traps: [0; 256],
        errors: [0; 256],
    };

    /// Counts a turn that agrees.
    pub fn count_turn(&mut self, turn: &Turn) {
        self.agreed_turns = self.agreed_turns.saturating_add(1);
        match turn.event {
            Event::Trapped(trap) => count(&mut self.traps, usize::from(trap.number())),
            Event::ErrorMode(trap) => count(&mut self.errors, usize::from(trap.number())),
            Event::Ran | Event::Annulled | Event::Stopped(_) => {}
        }
        if let Some(word) = turn.word {
            count(&mut self.rows, row_number(word));
        }
    }

    /// Prints how many lines agree.
    pub fn tell_lines(&self, rt: &HostRuntime) -> io::Result<()> {
        println!(rt;
            "{} of {} turns and {} of {} walks agree",
            self.agreed_turns, self.turns, self.agreed_walks, self.walks
        )
    }

    /// Prints a line for each row. One with fewer lines than there have to be is told as such.
    pub fn tell_rows(&self, rt: &HostRuntime) -> io::Result<()> {
        for (number, row) in ROWS.iter().enumerate() {
            let count = self.rows[number];
            let name = row.name;
            let lack = if count < LEAST {
                ", which are too few"
            } else {
                ""
            };
            println!(rt; "row {name}: {count}{lack}")?;
        }
        Ok(())
    }

    /// Prints a line for each type of trap that a line has.
    pub fn tell_traps(&self, rt: &HostRuntime) -> io::Result<()> {
        for number in 0..256usize {
            let (traps, errors) = (self.traps[number], self.errors[number]);
            if traps != 0 || errors != 0 {
                println!(rt; "trap {number:02X}: {traps}, in error mode {errors}")?;
            }
        }
        Ok(())
    }
}
