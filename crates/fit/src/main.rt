//! The program `fit`: compiler-made SPARC assembly as an annotated source, and the image of that. Nothing rests on what
//! it makes: the verifier judges the image, whoever made it. An image that it writes was accepted by that verifier.
#![tactic(auto)]

mod annotate;

use cmd_files::command_words;
use fit_command::{
    ArgumentFault, Arguments, LACKING, NO_MEMORY, STACK, TURNS, finish_image, lacking,
    read_sources, tell_refusal, unread, write_source,
};
use fit_gas::Assembly;
use fit_legal::{JoinPlan, Legal, program_of};
use fit_passes::{FitPlan, Made, Reason, Refusal, make};
use std::alloc::Global;
use std::process::ExitCode;

/// A program of assembly, whose functions are joined where the counters of loops ask for that, or where they do by the
/// meter alone.
fn joined(
    alloc: Global,
    source: &Assembly,
    words: &Arguments<'_>,
    has_bounds: bool,
) -> Result<Legal, Refusal> {
    let joins = JoinPlan {
        stack: words.stack.unwrap_or(STACK),
        has_bounds,
    };
    match program_of(alloc, source, "main", joins) {
        Ok(legal) => Ok(legal),
        Err(fault) => Err(Refusal::of(alloc, fault)),
    }
}

/// Makes an annotated source of a program, with the counters of its loops or without.
fn attempt(
    alloc: Global,
    legal: Legal,
    words: &Arguments<'_>,
    has_bounds: bool,
) -> Result<Made, Refusal> {
    let plan = FitPlan {
        turns: words.turns.unwrap_or(TURNS),
        by_object: !words.by_region,
        has_bounds,
        pointer: legal.pointer,
    };
    make(alloc, legal.program, plan)
}

/// How many blocks each function of a program has; nothing where memory is refused.
fn block_counts(alloc: Global, legal: &Legal) -> Vec<usize> {
    let mut counts = Vec::new(alloc);
    for function in legal.program.functions.as_slice() {
        if counts.push(function.blocks.len()).is_err() {
            return Vec::new(alloc);
        }
    }
    counts
}

/// Makes a source by the meter alone, where there is none with the counters of loops: not where that has too many
/// blocks of functions that are joined alike, since these have no fewer by the meter.
fn make_metered(
    alloc: Global,
    source: &Assembly,
    words: &Arguments<'_>,
    (refusal, counts): (Refusal, Vec<usize>),
) -> Result<Made, Refusal> {
    let legal = joined(alloc, source, words, false)?;
    let found = block_counts(alloc, &legal);
    if !refusal.lines.is_empty() & !counts.is_empty() && found == counts {
        return Err(refusal);
    }
    attempt(alloc, legal, words, false)
}

/// Makes an annotated source of assembly: with the counters of its loops or, where these ask for more turns than there
/// are to be, by the meter alone.
fn make_source(alloc: Global, source: &Assembly, words: &Arguments<'_>) -> Result<Made, Refusal> {
    let mut counts = Vec::new(alloc);
    let made = match joined(alloc, source, words, true) {
        Ok(legal) => {
            counts = block_counts(alloc, &legal);
            attempt(alloc, legal, words, true)
        }
        Err(refusal) => Err(refusal),
    };
    match made {
        Ok(made) => Ok(made),
        Err(refusal) => {
            // Told, and not answered by another source.
            if matches!(refusal.fault.reason, Reason::Memory(_)) {
                return Err(refusal);
            }
            make_metered(alloc, source, words, (refusal, counts))
        }
    }
}

/// Tells each test, and writes what the words ask for, the source first; gives the exit status. Where there are tests,
/// and the words say that this is an error, nothing is written.
fn finish(rt: &HostRuntime, words: &Arguments<'_>, made: &Made) -> u8 {
    for test in made.tests.as_slice() {
        let _ = rt.eprintln(&test.shown(&made.program));
    }
    if words.is_strict && !made.tests.is_empty() {
        return LACKING;
    }
    let text = made.text.as_bytes();
    let status = match words.out {
        Some(_) => write_source(rt, words, text),
        None => 0,
    };
    match words.image {
        Some(path) if status == 0 => finish_image(rt, words, path, text),
        _ => status,
    }
}

/// Makes one source of assembly, and gives the exit status.
fn perform(rt: &HostRuntime, words: &Arguments<'_>) -> u8 {
    let mut source = Assembly::new(rt.alloc());
    match read_sources(rt, words, &mut source) {
        Ok(()) => match &make_source(rt.alloc(), &source, words) {
            Ok(made) => finish(rt, words, made),
            Err(Refusal { fault, lines }) => tell_refusal(rt, fault, lines.as_slice(), &source),
        },
        Err(status) => status,
    }
}

/// Does what the words behind `annotate` ask for, and gives the exit status.
fn perform_annotate<'a>(rt: &HostRuntime, all: &'a [String]) -> Result<u8, ArgumentFault<'a>> {
    let mut words = Arguments::new(rt.alloc());
    words.take(all)?;
    let source = words.source_to_annotate()?;
    Ok(annotate::perform(rt, &words, source))
}

/// Does what the words without a command ask for, and gives the exit status.
fn perform_fit<'a>(rt: &HostRuntime, all: &'a [String]) -> Result<u8, ArgumentFault<'a>> {
    if all.is_empty() {
        return Err(ArgumentFault::Usage);
    }
    let mut words = Arguments::new(rt.alloc());
    words.take(all)?;
    words.ask_for_source()?;
    Ok(perform(rt, &words))
}

/// Does what the words ask for, and gives the exit status.
fn answer(rt: &HostRuntime, all: &[String]) -> u8 {
    let done = match all {
        [first, others @ ..] if first.as_str() == "annotate" => perform_annotate(rt, others),
        _ => perform_fit(rt, all),
    };
    match done {
        Ok(status) => status,
        Err(lack) => lacking(rt, lack),
    }
}

fn main(rt: HostRuntime) -> ExitCode {
    let status = match command_words(&rt) {
        Ok(words) => answer(&rt, words.as_slice()),
        Err(error) => unread(&rt, "the command line", &error),
    };
    if status == NO_MEMORY {
        let _ = rt.eprintln("memory");
    }
    ExitCode::from(status)
}
