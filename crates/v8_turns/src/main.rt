//! Compares turns and walks with what the machine does: prints each line of standard input that differs, and how many
//! agree, of each row of the format table and of each type of trap. `vectors/README.md` says how lines are read, and
//! where they come from.
#![tactic(auto)]

mod fields;
mod rows;
mod seen;
mod shut;
mod state;
mod tally;
mod turns;
mod walks;

use state::{WORDS, put_word};
use std::alloc::{AllocError, Global};
use std::io::{self, BufRead};
use tally::Tally;

/// Whether a turn agrees, on as many windows as its line has.
fn agrees_on_windows(
    alloc: Global,
    case: &turns::Case,
    tally: &mut Tally,
) -> Result<bool, AllocError> {
    match case.windows {
        4 => turns::agrees::<4>(alloc, case, tally),
        5 => turns::agrees::<5>(alloc, case, tally),
        7 => turns::agrees::<7>(alloc, case, tally),
        8 => turns::agrees::<8>(alloc, case, tally),
        16 => turns::agrees::<16>(alloc, case, tally),
        31 => turns::agrees::<31>(alloc, case, tally),
        32 => turns::agrees::<32>(alloc, case, tally),
        _ => Ok(false),
    }
}

/// Whether the turn of a line is what the machine does; none where the line isn't read.
fn turn_agrees(
    alloc: Global,
    ground: &Vec<u32>,
    tally: &mut Tally,
    text: &str,
) -> Result<Option<bool>, AllocError> {
    tally.turns = tally.turns.saturating_add(1);
    match turns::read_turn(alloc, ground, text)? {
        Some(case) => Ok(Some(agrees_on_windows(alloc, &case, tally)?)),
        None => Ok(None),
    }
}

/// The same of a walk.
fn walk_agrees(alloc: Global, tally: &mut Tally, text: &str) -> Result<Option<bool>, AllocError> {
    tally.walks = tally.walks.saturating_add(1);
    let Some(case) = walks::read_walk(alloc, text)? else {
        return Ok(None);
    };
    let same = walks::agrees(alloc, &case)?;
    tally.agreed_walks = tally.agreed_walks.saturating_add(u32::from(same));
    Ok(Some(same))
}

/// Sets the word of RAM that a line tells, `[PLACE]=WORD`.
fn put_ground(ground: &mut [u32], text: &str) -> Option<bool> {
    let (place, digits) = text.strip_prefix('[')?.split_once('=')?;
    let word = fields::hexadecimal(digits)?;
    put_word(ground, place, word).then_some(true)
}

/// Whether a line agrees; none where it isn't read. A comment agrees.
fn agrees(
    alloc: Global,
    ground: &mut Vec<u32>,
    tally: &mut Tally,
    line: &str,
) -> Result<Option<bool>, AllocError> {
    if line.starts_with('#') {
        return Ok(Some(true));
    }
    match line.split_once(' ') {
        Some(("ground", text)) => Ok(put_ground(ground, text)),
        Some(("turn", text)) => turn_agrees(alloc, ground, tally, text),
        Some(("walk", text)) => walk_agrees(alloc, tally, text),
        _ => Ok(None),
    }
}

/// Compares a line, and prints it where it doesn't agree.
fn compare(
    rt: &HostRuntime,
    ground: &mut Vec<u32>,
    tally: &mut Tally,
    line: &str,
) -> io::Result<()> {
    match agrees(rt.alloc(), ground, tally, line)? {
        Some(true) => Ok(()),
        Some(false) => println!(rt; "differs: {line}"),
        None => println!(rt; "not read: {line}"),
    }
}

/// Compares the lines of a reader. Its type stays open here, so that what stands in it takes no part in the proof.
fn compare_lines<R: BufRead + Drop>(
    rt: &HostRuntime,
    ground: &mut Vec<u32>,
    tally: &mut Tally,
    reader: R,
) -> io::Result<()> {
    for line in reader.lines(rt.alloc()) {
        compare(rt, ground, tally, line?.as_str())?;
    }
    Ok(())
}

fn main(rt: HostRuntime) -> io::Result<()> {
    let mut tally = Tally::NONE;
    let mut ground = vec![in rt.alloc(); 0; WORDS]?;
    compare_lines(&rt, &mut ground, &mut tally, rt.reader())?;
    tally.tell_lines(&rt)?;
    tally.tell_rows(&rt)?;
    tally.tell_traps(&rt)
}
