//! The sandbox's command line.
#![tactic(auto)]

mod assembling;
mod conversing;
mod files;

use assembling::assemble_to;
use cmd_command::{CommandStop, Full};
use cmd_files::{command_words, hold_streams};
use cmd_words::{Job, Usage, read_words};
use conversing::converse;
use files::done_on;
use std::alloc::AllocError;
use std::io::BufWriter;
use std::process::ExitCode;

/// The exit status of words that ask for nothing.
const USAGE: u8 = 3;

/// The exit status of want of memory that `clap` told: its error is none of a file or a stream, and so no stop.
const MEMORY: u8 = 5;

/// Does a job on the file at `path`, from standard input to standard output, which is kept until there is much of it.
fn on_streams(rt: &HostRuntime, job: &Job<'_>, path: &str) -> Result<u8, CommandStop> {
    let mut out = match BufWriter::new(rt.alloc(), rt.stdout()) {
        Ok(out) => out,
        Err(error) => return Err(CommandStop::of(&error, CommandStop::Output)),
    };
    done_on(rt, job, path, &mut rt.stdin(), &mut out)
}

/// Does a job.
fn do_job(rt: &HostRuntime, job: &Job<'_>) -> Result<u8, CommandStop> {
    match *job {
        Job::Asm { source, object } => assemble_to(rt, job, source, object),
        Job::Run { image, .. } => converse(rt, job, image),
        Job::Verify { image } | Job::List { image } | Job::Trace { image, .. } => on_streams(
            rt, job, image,
        ),
    }
}

/// Tells of words that ask for nothing.
fn tell_usage(rt: &HostRuntime, usage: Usage) -> Result<u8, CommandStop> {
    match usage {
        Usage::Text(text) => {
            let _ = eprint!(rt; "{text}");
            Ok(USAGE)
        }
        Usage::Memory(want) => Err(CommandStop::Memory(want)),
        Usage::NoRoom(_) => {
            let _ = eprintln!(rt; "memory");
            Ok(MEMORY)
        }
    }
}

/// Does what the words ask for.
fn perform(rt: &HostRuntime, words: &[String]) -> Result<u8, CommandStop> {
    match read_words(rt.alloc(), words) {
        Ok(job) => do_job(rt, &job),
        Err(usage) => tell_usage(rt, usage),
    }
}

fn main(rt: HostRuntime) -> ExitCode {
    let _held = hold_streams(&rt);
    let status = match command_words(&rt) {
        Ok(words) => perform(&rt, words.as_slice()),
        Err(error) => match Full::of(&error) {
            Some(full) => Err(CommandStop::NoRoom(full)),
            None => {
                let _ = eprintln!(rt; "error: the words of a command line are UTF-8");
                Ok(USAGE)
            }
        },
    };
    match status {
        Ok(status) => ExitCode::from(status),
        Err(stop) => ExitCode::from(stop.report(&mut rt.stderr()).status),
    }
}
