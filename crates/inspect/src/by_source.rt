//! The commands that read a source: what their words ask for, and their files.
use crate::faults::InspectFault;
use crate::naming::{Known, tell_by_source};
use crate::progress::Lines;
use crate::sources::{source_in, tell_check, tell_map};
use crate::words::{Form, InspectJob, read_words};
use crate::{opened, path_of};
use cmd_command::{CommandStop, MOST};
use cmd_files::{Counted, FileFault};
use std::alloc::{AllocError, Global};
use std::fs::File;
use std::io::{BufWriter, Read, Write};
use want::Want;

/// What is done with a source alone.
#[derive(Clone, Copy)]
enum Alone<'a> {
    /// What is wrong with it.
    Check(&'a str, Form),
    /// Where its lines and labels stand.
    Map(&'a str),
}

/// The words after the program's name, without `--source` and the one behind it, and that one.
#[derive(Drop)]
struct Split<'a> {
    words: Vec<String>,
    source: Option<&'a str>,
}

/// Parts the words; a second `--source`, and one that no word follows, stay.
fn parted(alloc: Global, words: &[String]) -> Result<Split<'_>, AllocError> {
    let mut rest = Vec::new(alloc);
    let mut source = None;
    let mut is_next = false;
    for word in words {
        if is_next {
            source = Some(word.as_str());
            is_next = false;
        } else if word.as_str() == "--source" && source.is_none() {
            is_next = true;
        } else {
            rest.push(String::from_str(alloc, word.as_str())?)?;
        }
    }
    if is_next {
        rest.push(String::from_str(alloc, "--source")?)?;
    }
    Ok(Split {
        words: rest,
        source,
    })
}

/// What `check` is asked for by one word or two.
fn checked<'a>(first: &'a str, second: Option<&'a str>) -> Option<Alone<'a>> {
    match (first, second) {
        ("--json", None) => None,
        (source, None) => Some(Alone::Check(source, Form::Text)),
        ("--json", Some(source)) | (source, Some("--json")) => {
            Some(Alone::Check(source, Form::Json))
        }
        _ => None,
    }
}

/// The job on a source alone that some words ask for.
fn job_alone(words: &[String]) -> Option<Alone<'_>> {
    let (command, rest) = words.split_first()?;
    let (first, others) = rest.split_first()?;
    match (command.as_str(), others) {
        ("check", []) => checked(first.as_str(), None),
        ("check", [second]) => checked(first.as_str(), Some(second.as_str())),
        ("map", []) => Some(Alone::Map(first.as_str())),
        _ => None,
    }
}

/// Whether a job is told by names too.
fn has_names(job: &InspectJob<'_>) -> bool {
    match *job {
        InspectJob::Image { form, .. } | InspectJob::Why { form, .. } => form == Form::Text,
        InspectJob::Trace { .. } | InspectJob::Data { .. } => true,
        InspectJob::Run { .. } | InspectJob::States { .. } | InspectJob::Machine { .. } => false,
    }
}

/// Tells of a source alone.
fn tell<F: Read, O: Write>(
    alloc: Global,
    job: Alone<'_>,
    file: &mut F,
    out: &mut O,
) -> Result<(), CommandStop> {
    match job {
        Alone::Check(source, form) => {
            tell_check(alloc, form, source, file, out)?;
            Ok(())
        }
        Alone::Map(_) => tell_map(alloc, file, out),
    }
}

/// A stop at the file of a path.
pub fn at_file<'a>(path: &'a str, stop: CommandStop) -> InspectFault<'a> {
    match stop {
        CommandStop::File => InspectFault::File(path, FileFault::Failing),
        stop => InspectFault::Stop(stop),
    }
}

/// Tells of the source at a path.
fn perform_alone<'a>(rt: &HostRuntime, job: Alone<'a>) -> Result<(), InspectFault<'a>> {
    let (Alone::Check(source, _) | Alone::Map(source)) = job;
    let mut file = opened(rt, source)?;
    let mut out = match BufWriter::new(rt.alloc(), rt.stdout()) {
        Ok(out) => out,
        Err(error) => return Err(InspectFault::Stop(CommandStop::of(&error, CommandStop::Output))),
    };
    match tell(rt.alloc(), job, &mut file, &mut out) {
        Ok(()) => Ok(()),
        Err(stop) => Err(at_file(source, stop)),
    }
}

/// The bytes of the source at a path.
fn source_at<'a>(rt: &HostRuntime, source: &'a str) -> Result<Vec<u8>, InspectFault<'a>> {
    let mut file = opened(rt, source)?;
    match source_in(rt.alloc(), &mut file) {
        Ok(bytes) => Ok(bytes),
        Err(stop) => Err(at_file(source, stop)),
    }
}

/// Does a job on the image file by a source that was read.
fn perform_on<'a>(
    rt: &HostRuntime,
    text: &[u8],
    job: &InspectJob<'a>,
    mut file: File,
) -> Result<Known, InspectFault<'a>> {
    let mut out = match BufWriter::new(rt.alloc(), rt.stdout()) {
        Ok(out) => out,
        Err(error) => return Err(InspectFault::Stop(CommandStop::of(&error, CommandStop::Output))),
    };
    let (alloc, mut input) = (rt.alloc(), Counted::new(rt.stdin()));
    let mut lines = Lines::new(rt);
    match tell_by_source(
        alloc, text, job, &mut file, &mut input, &mut out, &mut lines,
    ) {
        Ok(known) => Ok(known),
        Err(CommandStop::Input) if input.count() > MOST as u64 => Err(InspectFault::Input(
            FileFault::TooLong,
        )),
        Err(stop) => Err(at_file(path_of(job), stop)),
    }
}

/// Does a job on an image by the source at a path.
fn perform_by<'a>(
    rt: &HostRuntime,
    source: &'a str,
    job: &InspectJob<'a>,
) -> Result<(), InspectFault<'a>> {
    let text = source_at(rt, source)?;
    let file = opened(rt, path_of(job))?;
    match perform_on(rt, text.as_slice(), job, file)? {
        Known::Own => Ok(()),
        Known::Foreign => Err(InspectFault::Foreign(source)),
        Known::Broken(line) => Err(InspectFault::Broken(source, line)),
    }
}

/// What a job gives as the exit status.
fn status_of(rt: &HostRuntime, done: Result<(), InspectFault<'_>>) -> u8 {
    match done {
        Ok(()) => 0,
        Err(fault) => fault.report(rt),
    }
}

/// Does what words ask for of a source alone; none of words that ask for nothing of one.
fn answer_alone(rt: &HostRuntime, words: &[String]) -> Option<u8> {
    let job = job_alone(words)?;
    Some(status_of(rt, perform_alone(rt, job)))
}

/// Does what words ask for by a source; none of words that ask for nothing that has names.
fn answer_by<'a>(rt: &HostRuntime, words: &'a [String], source: &'a str) -> Option<u8> {
    let Some(job) = read_words(words) else {
        return None;
    };
    if !has_names(&job) {
        return None;
    }
    Some(status_of(rt, perform_by(rt, source, &job)))
}

/// Does what the words ask for of a source, and gives the exit status; none of words that ask for nothing of one.
pub fn answer(rt: &HostRuntime, words: &[String]) -> Option<u8> {
    let split = match parted(rt.alloc(), words) {
        Ok(split) => split,
        Err(error) => return Some(InspectFault::Stop(CommandStop::Memory(Want::from(error))).report(
            rt,
        )),
    };
    match split.source {
        None => answer_alone(rt, split.words.as_slice()),
        Some(source) => answer_by(rt, split.words.as_slice(), source),
    }
}
