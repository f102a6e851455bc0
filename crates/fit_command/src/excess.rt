//! The message where a function has more blocks than there may be: how many too many, and whose lines most of them come
//! from.
use crate::files::{REFUSED, refused};
use fit_code::{Fault, Reason, SourceLine};
use fit_gas::{Assembly, CodeBody};
use fit_text::FaultLine;
use std::collections::BTreeMap;
use std::fmt::{Display, Error, Formatter, Write};

/// So many functions are named at most.
const NAMED: usize = 5;

/// A function of the assembly, by its number, and how many blocks come from its lines.
type Share = (usize, usize);

/// The functions with most blocks, and how many there are too many.
#[derive(Drop)]
struct Excess<'a> {
    fault: &'a Fault,
    source: &'a Assembly,
    shares: &'a [Share],
}

/// The name of a function of the assembly.
fn name_of(source: &Assembly, code: usize) -> &str {
    if code < source.codes.len() && source.codes[code].symbol < source.symbols.len() {
        source.symbols[source.codes[code].symbol].name.as_str()
    } else {
        ""
    }
}

impl Display for Excess<'_> {
    fn fmt<W: Write>(&self, f: &mut Formatter<W>) -> Result<(), Error> {
        let fault = self.fault;
        let files = self.source.files.as_slice();
        let mut told = write!(f, "{}", FaultLine { fault, files });
        if let Reason::TooGreat { count, most, .. } = fault.reason {
            let more = count.saturating_sub(most);
            told = told.and(write!(f, ": {more} too many; most are those of "));
        }
        for place in 0..self.shares.len() {
            let (code, count) = self.shares[place];
            let before = if place == 0 { "" } else { ", " };
            let name = name_of(self.source, code);
            told = told.and(write!(f, "{before}{name} ({count})"));
        }
        told
    }
}

/// A line as a number.
fn key_of(file: usize, number: u32) -> u64 {
    (file as u64) << 32 | u64::from(number)
}

/// The first function of the assembly that has an instruction in a line, for each line. Lines for which memory is
/// refused aren't there.
fn codes_by_line(source: &Assembly) -> BTreeMap<u64, usize> {
    let mut found: BTreeMap<u64, usize> = BTreeMap::new(source.memory.alloc);
    let mut is_full = false;
    for (number, code) in source.codes.as_slice().iter().enumerate() {
        is_full = is_full || !add_lines(&mut found, number, code);
    }
    found
}

/// Adds the lines of a function, by its number, that no function before has; says whether memory sufficed.
fn add_lines(found: &mut BTreeMap<u64, usize>, number: usize, code: &CodeBody) -> bool {
    for item in code.items.as_slice() {
        let key = key_of(item.line.file, item.line.number);
        if found.get(&key).is_none() && found.insert(key, number).is_err() {
            return false;
        }
    }
    true
}

/// Takes the greatest of some counts, by its place, and leaves 0 there; nothing where all are 0.
fn take_greatest(counts: &mut [usize]) -> Option<Share> {
    let (mut place, mut greatest) = (0, 0);
    for at in 0..counts.len() {
        if counts[at] > greatest {
            greatest = counts[at];
            place = at;
        }
    }
    if greatest == 0 || place >= counts.len() {
        return None;
    }
    counts[place] = 0;
    Some((place, greatest))
}

/// For each function of the assembly how many blocks come from its lines.
fn counts_of(lines: &[SourceLine], source: &Assembly) -> Vec<usize> {
    let mut memory = source.memory;
    let codes = codes_by_line(source);
    let mut counted = memory.repeat(0usize, source.codes.len());
    let counts = counted.as_mut_slice();
    for line in lines {
        if let Some(code) = codes.get(&key_of(line.file, line.number))
            && *code < counts.len()
        {
            counts[*code] = counts[*code].saturating_add(1);
        }
    }
    counted
}

/// The functions of the assembly from whose lines most blocks come, the greatest one first.
fn shares_of(lines: &[SourceLine], source: &Assembly) -> Vec<Share> {
    let mut memory = source.memory;
    let mut counts = counts_of(lines, source);
    let mut shares = Vec::new(memory.alloc);
    for _ in 0..NAMED {
        if let Some(share) = take_greatest(counts.as_mut_slice()) {
            memory.push(&mut shares, share);
        }
    }
    shares
}

/// Tells why there is no source and, where that is that a function has more blocks than there may be, how many too
/// many, and the functions of the assembly that most of them come from; gives the exit status.
pub fn tell_refusal(
    rt: &HostRuntime,
    fault: &Fault,
    lines: &[SourceLine],
    source: &Assembly,
) -> u8 {
    if lines.is_empty() {
        return refused(rt, fault, source.files.as_slice());
    }
    let shares = shares_of(lines, source);
    let shares = shares.as_slice();
    let _ = rt.eprintln(&Excess {
        fault,
        source,
        shares,
    });
    REFUSED
}
