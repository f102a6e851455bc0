//! Measures turns of the board of eight windows, verification, and words.
//!
//! Drives the board with each image for a number of turns, in each way: turn by turn, in one run, in a raw run, in a
//! trace, and by a plain interpreter. Prints what the board counted and the register that the loops of `data` count
//! down, the bytes that were put out, or the lines of the trace; the times, loading included, go to standard error.
//! Then verifies each image, and prints the verdicts; the times go to standard error. Then decodes and encodes words,
//! and computes results, a thousand for each turn, and prints a checksum of each; the times go to standard error.
//!
//! Arguments: the number of turns, 100,000 where it isn't given; `step`, `run`, `raw`, `trace` or `plain` for that way
//! alone, `verify`, `words` or `results` for these alone, or `all`; and the paths of the images.
#![tactic(auto)]

mod plain;
mod tally;
mod verdicts;
mod ways;
mod words;

use anyhow::{Context, Result, anyhow};
use sbx_image::{Image, ImageFault, parse};
use std::time::Instant;
use std::{env, fs, io};
use verdicts::{Verdict, timed_verdict};
use ways::{Told, Way};
use words::Work;

/// What is measured: turns of the images in one way, their verification, or work with words.
#[derive(Clone, Copy)]
enum Subject {
    Way(Way),
    Verdicts,
    Work(Work),
}

const SUBJECTS: [(&str, Subject); 8] = [
    ("step", Subject::Way(Way::Step)),
    ("run", Subject::Way(Way::Run)),
    ("raw", Subject::Way(Way::Raw)),
    ("trace", Subject::Way(Way::Trace)),
    ("plain", Subject::Way(Way::Plain)),
    ("verify", Subject::Verdicts),
    ("words", Subject::Work(Work::Words)),
    ("results", Subject::Work(Work::Results)),
];

/// The name of all that is measured.
const ALL: &str = "all";

/// Turns where the arguments tell none.
const TURNS: u64 = 100_000;

/// Words, and results, for each turn.
const WORDS_PER_TURN: u64 = 1000;

/// The image of the file at a path.
fn image_at(rt: &HostRuntime, path: &str) -> Result<Image> {
    let bytes = fs::read(rt, path)?;
    match parse(rt.alloc(), bytes.as_slice()) {
        Ok(image) => Ok(image),
        Err(ImageFault::Memory(_)) => Err(anyhow!("memory was refused")),
        Err(fault) => Err(anyhow!("{path}: image {fault}")),
    }
}

/// Tells how long one measurement of an image took, in microseconds.
fn tell_time(rt: &HostRuntime, path: &str, name: &str, time: u128) -> io::Result<()> {
    eprintln!(rt; "{path} by {name}: {time} us")
}

/// What a way tells of an image, and its time in microseconds, loading included.
fn timed(rt: &HostRuntime, way: Way, image: &Image, turns: u64) -> Result<(Told, u128)> {
    let begin = Instant::now(rt)?;
    match way.drive(rt.alloc(), image, turns) {
        Ok(told) => Ok((told, begin.elapsed(rt)?.as_micros())),
        Err(_fault) => Err(anyhow!("memory was refused")),
    }
}

/// The same of the image of a file.
fn timed_file(rt: &HostRuntime, way: Way, path: &str, turns: u64) -> Result<(Told, u128)> {
    let image = image_at(rt, path)?;
    timed(rt, way, &image, turns)
}

/// Tells what a way told of an image.
fn tell_turns(rt: &HostRuntime, path: &str, name: &str, told: Told) -> io::Result<()> {
    println!(rt; "{path} by {name}: {told}")
}

/// Measures turns of the image of a file.
fn measure_turns(rt: &HostRuntime, path: &str, name: &str, way: Way, turns: u64) -> Result<()> {
    let (told, time) = timed_file(rt, way, path, turns)?;
    tell_turns(rt, path, name, told)?;
    tell_time(rt, path, name, time)?;
    Ok(())
}

/// Tells the verdict on an image.
fn tell_verdict(rt: &HostRuntime, path: &str, told: &Verdict) -> io::Result<()> {
    let words = told.words;
    match told.refusal {
        None => println!(rt; "{path} of {words} words: accepted"),
        Some(refusal) => println!(rt; "{path} of {words} words: {refusal}"),
    }
}

/// Measures the verification of the image of a file.
fn measure_verdict(rt: &HostRuntime, path: &str, name: &str) -> Result<()> {
    let told = timed_verdict(rt, image_at(rt, path)?)?;
    tell_verdict(rt, path, &told)?;
    tell_time(rt, path, name, told.time)?;
    Ok(())
}

/// Tells the checksum of work with so many words, and its time in microseconds.
fn tell_work(rt: &HostRuntime, name: &str, count: u64, sum: u32, time: u128) -> io::Result<()> {
    println!(rt; "{count} {name}: checksum {sum:08x}")?;
    eprintln!(rt; "{count} {name}: {time} us")
}

/// Measures work with so many words.
fn measure_work(rt: &HostRuntime, name: &str, work: Work, count: u64) -> Result<()> {
    let begin = Instant::now(rt)?;
    let sum = work.checksum(count);
    let time = begin.elapsed(rt)?;
    tell_work(rt, name, count, sum, time.as_micros())?;
    Ok(())
}

/// Measures turns of the images of these files in one way.
fn measure_way(rt: &HostRuntime, paths: &[String], name: &str, way: Way, turns: u64) -> Result<()> {
    for path in paths {
        measure_turns(rt, path.as_str(), name, way, turns)?;
    }
    Ok(())
}

/// Measures the verification of the images of these files.
fn measure_verdicts(rt: &HostRuntime, paths: &[String], name: &str) -> Result<()> {
    for path in paths {
        measure_verdict(rt, path.as_str(), name)?;
    }
    Ok(())
}

/// Measures what is called by this name, of the images of these files or of words.
fn measure(
    rt: &HostRuntime,
    name: &str,
    subject: Subject,
    turns: u64,
    paths: &[String],
) -> Result<()> {
    match subject {
        Subject::Way(way) => measure_way(rt, paths, name, way, turns),
        Subject::Verdicts => measure_verdicts(rt, paths, name),
        Subject::Work(work) => measure_work(rt, name, work, turns.saturating_mul(WORDS_PER_TURN)),
    }
}

/// Measures what is called by this name, or all.
fn measure_named(rt: &HostRuntime, only: &str, turns: u64, paths: &[String]) -> Result<()> {
    let mut is_known = false;
    for (name, subject) in SUBJECTS.as_slice() {
        if only == ALL || only == *name {
            is_known = true;
            measure(rt, *name, *subject, turns, paths)?;
        }
    }
    if is_known {
        Ok(())
    } else {
        Err(anyhow!("none of step, run, raw, trace, plain, verify, words, results and all: {only}"))
    }
}

/// Measures what the program's words ask for, the first of which is its name.
fn measure_by(rt: &HostRuntime, words: &[String]) -> Result<()> {
    let turns = match words.get(1) {
        Some(word) => word
            .as_str()
            .parse::<u64>()
            .context(format_args!("number of turns {word}"))?,
        None => TURNS,
    };
    let only = match words.get(2) {
        Some(word) => word.as_str(),
        None => ALL,
    };
    measure_named(rt, only, turns, words.get(3..).unwrap_or(&[]))
}

fn main(rt: HostRuntime) -> Result<()> {
    let words: Vec<String> = env::args(&rt)?.collect(rt.alloc())?;
    measure_by(&rt, words.as_slice())
}
