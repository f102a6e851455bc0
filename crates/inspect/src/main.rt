//! The second program: it tells of an image file what it declares, what its run gives, turn by turn where that is asked
//! for, and why it is refused.
#![tactic(auto)]

mod by_source;
mod commands;
mod cycles;
mod data;
mod faults;
mod machine;
mod naming;
mod progress;
mod reports;
mod sources;
mod states;
mod words;

use cmd_command::{CommandStop, Full, MOST};
use cmd_files::{Counted, FileFault, command_words, hold_streams, open_file};
use commands::{explain_image, run_image, show_image, trace_image};
use data::data_image;
use faults::InspectFault;
use inspect_run::Progress;
use machine::run_machine;
use progress::Lines;
use states::state_image;
use std::alloc::{AllocError, Global};
use std::fs::File;
use std::io::{BufWriter, Read, Write};
use std::process::ExitCode;
use words::{InspectJob, USAGE, number_wanted, read_words};

/// The exit status of words that ask for nothing.
const OTHER_WORDS: u8 = 3;

/// The file at a path, to be read.
fn opened<'a>(rt: &HostRuntime, path: &'a str) -> Result<File, InspectFault<'a>> {
    match open_file(rt, path) {
        Ok(file) => Ok(file),
        Err(error) => Err(match Full::of(&error) {
            Some(full) => InspectFault::Stop(CommandStop::NoRoom(full)),
            None => InspectFault::File(path, FileFault::of(&error)),
        }),
    }
}

/// Does a job on its file, and tells on a writer.
fn tell<F: Read, I: Read, O: Write, P: Progress>(
    alloc: Global,
    job: &InspectJob<'_>,
    file: &mut F,
    input: &mut I,
    out: &mut O,
    progress: &mut P,
) -> Result<(), CommandStop> {
    match *job {
        InspectJob::Image { form, .. } => show_image(alloc, form, file, out),
        InspectJob::Run {
            windows,
            limit,
            form,
            ..
        } => run_image(alloc, form, windows, limit, file, input, out, progress),
        InspectJob::Trace { windows, limit, .. } => {
            trace_image(alloc, windows, limit, file, input, out, progress)
        }
        InspectJob::States { windows, limit, .. } => {
            state_image(alloc, windows, limit, file, input, out)
        }
        InspectJob::Data { windows, limit, .. } => {
            data_image(alloc, windows, limit, file, input, out)
        }
        InspectJob::Why { form, .. } => {
            explain_image(alloc, form, file, out)?;
            Ok(())
        }
        // (a machine is told by its own way, from its own files)
        InspectJob::Machine { .. } => Ok(()),
    }
}

/// Does a job on the file at a path, and tells on standard output.
fn perform_on<'a>(
    rt: &HostRuntime,
    job: &InspectJob<'a>,
    path: &'a str,
    mut file: File,
) -> Result<(), InspectFault<'a>> {
    let mut out = match BufWriter::new(rt.alloc(), rt.stdout()) {
        Ok(out) => out,
        Err(error) => return Err(InspectFault::Stop(CommandStop::of(&error, CommandStop::Output))),
    };
    let (alloc, mut input) = (rt.alloc(), Counted::new(rt.stdin()));
    match tell(
        alloc,
        job,
        &mut file,
        &mut input,
        &mut out,
        &mut Lines::new(rt),
    ) {
        Ok(()) => Ok(()),
        Err(CommandStop::File) => Err(InspectFault::File(path, FileFault::Failing)),
        Err(CommandStop::Input) if input.count() > MOST as u64 => Err(InspectFault::Input(
            FileFault::TooLong,
        )),
        Err(stop) => Err(InspectFault::Stop(stop)),
    }
}

/// The path of a job's file.
fn path_of<'a>(job: &InspectJob<'a>) -> &'a str {
    let (InspectJob::Image { image: path, .. }
    | InspectJob::Run { image: path, .. }
    | InspectJob::Trace { image: path, .. }
    | InspectJob::States { image: path, .. }
    | InspectJob::Data { image: path, .. }
    | InspectJob::Machine { file: path, .. }
    | InspectJob::Why { image: path, .. }) = *job;
    path
}

/// Does a job, and tells on standard output.
fn perform<'a>(rt: &HostRuntime, job: &InspectJob<'a>) -> Result<(), InspectFault<'a>> {
    let path = path_of(job);
    match job {
        InspectJob::Machine { setting, .. } => run_machine(rt, path, setting),
        _ => perform_on(rt, job, path, opened(rt, path)?),
    }
}

/// Does what the words ask for, and gives the exit status.
fn answer<'a>(rt: &HostRuntime, words: &'a [String]) -> Result<u8, InspectFault<'a>> {
    let Some(job) = read_words(words) else {
        let _ = match number_wanted(words) {
            Some(wanted) => eprintln!(rt; "inspect: {wanted}"),
            None => eprint!(rt; "{USAGE}"),
        };
        return Ok(OTHER_WORDS);
    };
    perform(rt, &job)?;
    Ok(0)
}

/// Does what the words ask for, and gives the exit status. What goes wrong is told on standard error.
fn status_of(rt: &HostRuntime, words: &[String]) -> u8 {
    if let Some(status) = cycles::answer(rt, words) {
        return status;
    }
    if let Some(status) = by_source::answer(rt, words) {
        return status;
    }
    match answer(rt, words) {
        Ok(status) => status,
        Err(fault) => fault.report(rt),
    }
}

fn main(rt: HostRuntime) -> ExitCode {
    let _held = hold_streams(&rt);
    let status = match command_words(&rt) {
        Ok(words) => status_of(&rt, words.as_slice()),
        Err(error) => match Full::of(&error) {
            Some(full) => InspectFault::Stop(CommandStop::NoRoom(full)).report(&rt),
            None => {
                let _ = eprint!(rt; "{USAGE}");
                OTHER_WORDS
            }
        },
    };
    ExitCode::from(status)
}
