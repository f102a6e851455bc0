//! Compares what is told of images and sources with what isn't from here: with the verdicts of a model, and with what
//! stands beside the programs of `examples`.
//!
//! First it compares the verifier's verdicts, and runs of accepted images, with those of a model of the rules that was
//! written apart from the verifier and shares nothing with it: prints each line that differs, and how many agree.
//!
//! The lines stand on standard input, and their words a space apart. `image BYTES accepted` and `image BYTES RULE
//! FUNCTION ADDRESS` are verdicts: a rule by its number, as V14, a function in decimal, and an address of eight
//! hexadecimal digits. `run WINDOWS INPUT STATUS OUTPUT TURNS OVERFLOWS UNDERFLOWS` is about the image of the last such
//! line: a count of windows, the input's bytes, the exit word in hexadecimal, the output's bytes, and three decimal
//! counts. Bytes are hexadecimal, and `-` where there are none. A line that begins with `#` is a comment.
//!
//! A run is compared on a board of as many windows, on the fast flat machine, which counts for as many, at once and
//! byte by byte, as a program of the little language that native code is made of, and twice on the plain flat machine.
//!
//! Then it does with each program of `examples` what the sandbox's commands do, and prints what they tell.
#![tactic(auto)]

mod boards;
mod comparison;
mod engine;
mod examples;
mod faults;
mod fields;
mod flat;
mod native;
mod pieces;
mod runs;
mod verdicts;

use comparison::Comparison;
use examples::tell_programs;
use faults::LineFault;
use std::io::{self, BufRead};

/// What is told of a line that doesn't agree.
fn difference(answer: Result<bool, LineFault>) -> Option<&'static str> {
    match answer {
        Ok(true) => None,
        Ok(false) => Some("differs"),
        Err(LineFault::NotRead) => Some("not read"),
        Err(LineFault::Memory(_)) => Some("no memory"),
    }
}

/// Compares a line, and prints it where it doesn't agree.
fn compare(rt: &HostRuntime, comparison: &mut Comparison, line: &str) -> io::Result<()> {
    if line.starts_with('#') {
        return Ok(());
    }
    match difference(comparison.line(rt.alloc(), line)) {
        Some(told) => println!(rt; "{told}: {line}"),
        None => Ok(()),
    }
}

/// Compares the lines of a reader. Its type stays open here, so that what stands in it takes no part in the proof.
fn compare_lines<R: BufRead + Drop>(
    rt: &HostRuntime,
    comparison: &mut Comparison,
    reader: R,
) -> io::Result<()> {
    for line in reader.lines(rt.alloc()) {
        compare(rt, comparison, line?.as_str())?;
    }
    Ok(())
}

/// Compares the lines of standard input, and tells how many agree.
fn compare_input(rt: &HostRuntime) -> io::Result<()> {
    let mut comparison = Comparison::new();
    compare_lines(rt, &mut comparison, rt.reader())?;
    println!(rt;
        "{} images and {} runs agree",
        comparison.images, comparison.runs
    )
}

fn main(rt: HostRuntime) -> io::Result<()> {
    compare_input(&rt)?;
    tell_programs(&rt)
}
