//! Statuses in words.

use crate::facts::Facts;
use crate::statuses::{
    ENDED, FULL, HANDLE, LOST, MEMORY, NO_IMAGE, OK, OUTPUT, PAUSED, REFUSED, ROOM, SERVICES,
    SOURCE, TURNS, WANTS, WINDOWS,
};
use crate::terms::{LEAST_WINDOWS, MOST_WINDOWS, Terms, Why};
use arrayvec::ArrayString;
use std::fmt::{self, Display, Formatter, Write};

/// A line of text, which has room for each of these.
pub type Line = ArrayString<96>;

/// A status that no number belongs to.
fn text_of(status: u32) -> &'static str {
    match status {
        OK => "done",
        MEMORY => "memory",
        WINDOWS => "no such count of windows",
        SERVICES => "it asks for a service that isn't granted",
        TURNS => "it asks for more turns than are granted",
        ROOM => "the room is too small",
        ENDED => "it has ended",
        WANTS => "it waits for input",
        FULL => "the room is full",
        PAUSED => "the turns are made",
        HANDLE => "the handle holds none",
        OUTPUT => "it puts out more than is granted",
        LOST => "the run is lost",
        _ => "no such status",
    }
}

/// A source's cause by its letter: X1 to X4, S1 to S5, A1 to A4.
fn write_cause(line: &mut Line, why: &Why) -> fmt::Result {
    let (letter, before) = match why.number {
        0..=4 => ('X', 0),
        5..=9 => ('S', 4),
        _ => ('A', 9),
    };
    write!(
        line,
        "line {}: {letter}{}",
        why.address,
        why.number.saturating_sub(before)
    )
}

/// A number by groups of three digits.
#[derive(Clone, Copy)]
struct Grouped(u64);

/// What the groups count, the greatest first.
const UNITS: [u64; 7] = [
    1_000_000_000_000_000_000,
    1_000_000_000_000_000,
    1_000_000_000_000,
    1_000_000_000,
    1_000_000,
    1_000,
    1,
];

impl Display for Grouped {
    fn fmt<W: fmt::Write>(&self, f: &mut Formatter<W>) -> fmt::Result {
        let mut begun = false;
        for unit in &UNITS {
            let group = self.0.checked_div(*unit).unwrap_or(0) % 1000;
            if begun {
                write!(f, ",{group:03}")?;
            } else if group != 0 || *unit == 1 {
                write!(f, "{group}")?;
                begun = true;
            }
        }
        Ok(())
    }
}

/// Services by their names.
#[derive(Clone, Copy)]
struct Named(u32);

impl Display for Named {
    fn fmt<W: fmt::Write>(&self, f: &mut Formatter<W>) -> fmt::Result {
        let names = match self.0 % 8 {
            0 => "nothing",
            1 => "exit",
            2 => "get",
            3 => "exit and get",
            4 => "put",
            5 => "exit and put",
            6 => "get and put",
            _ => "exit, get and put",
        };
        f.write_str(names)
    }
}

/// What a status of terms means, with what the image asks for and what is granted.
pub fn terms_line_of(status: u32, facts: &Facts, terms: &Terms) -> Line {
    let mut line = Line::new();
    let turns = (Grouped(facts.budget), Grouped(terms.turns));
    let services = (Named(facts.services), Named(terms.services));
    let _ = match status {
        TURNS => write!(line, "asks for {} turns, {} are granted", turns.0, turns.1),
        SERVICES => write!(line, "asks for {}; granted: {}", services.0, services.1),
        WINDOWS => write!(
            line,
            "no run on {} windows: {LEAST_WINDOWS} to {MOST_WINDOWS}, in pieces on a board 8",
            terms.windows
        ),
        OUTPUT => write!(
            line,
            "puts out more than the {} bytes that are granted",
            Grouped(terms.output)
        ),
        _ => line.write_str(text_of(status)),
    };
    line
}

/// What a status means, with the numbers that tell why: the line that `sandbox` tells, where it has one.
pub fn line_of(status: u32, why: &Why) -> Line {
    let mut line = Line::new();
    let _ = match status {
        NO_IMAGE => write!(line, "image I{}", why.number),
        REFUSED => write!(
            line,
            "refused V{} in function {} at {:08X}",
            why.number, why.function, why.address
        ),
        SOURCE => write_cause(&mut line, why),
        _ => line.write_str(text_of(status)),
    };
    line
}
