//! A host: it refuses strangers' images that ask for more than its policy grants, and runs the rest, each on a
//! board of its own.
//!
//! `host run` takes the policy, the machine, the input and a bound of the output from its words; `host IMG
//! ..` has the usual ones, and shows on standard error what each image asks for and how its run ended. Standard
//! output takes the images' outputs in turn. One image reads its input as it asks for it, and what it puts out goes
//! on as it comes; several are run on the same input, which is read whole first. Where one image is denied, none is
//! run.
//!
//! The status is 0 where each image has run and its exit word is 0, 1 where one of these is another, 2 where one is
//! denied, also for want of memory in its check (I9, V19), or was stopped at the bound of its output, 3 where the
//! words ask for nothing, and 4 where a file or a stream fails, or memory.
#![tactic(auto)]

mod bounding;
mod faults;
mod judging;
mod policy;
mod running;
mod telling;
mod words;

use cmd_command::{Full, ReadFault, read_whole};
use cmd_files::{FileFault, command_words, hold_streams, open_file};
use faults::HostFault;
use judging::{MOST, judge};
use running::{HostRun, RunHalt, Source, converse};
use sbx_run::Accepted;
use std::fs::File;
use std::io::{Cursor, Read};
use std::process::ExitCode;
use std::{fs, io};
use telling::{tell_asked, tell_denial, tell_run, tell_stopped};
use words::{Asked, Lack, Terms, USAGE, read_words};

/// The status where an exit word isn't 0.
const OTHER_WORD: u8 = 1;

/// The status where an image is denied, or stopped.
const DENIED: u8 = 2;

/// The status of words that ask for nothing.
const OTHER_WORDS: u8 = 3;

/// The status where a file, a stream or memory fails.
const FAILED: u8 = 4;

/// What an error of the file at a path, or of the input, stops the host with.
fn fault_at<'a>(name: &'a str, error: &io::Error) -> HostFault<'a> {
    match Full::of(error) {
        Some(full) => HostFault::NoRoom(full),
        None => HostFault::File(name, FileFault::of(error)),
    }
}

/// What stops the host where the bytes of a file, or of the input, aren't there.
fn fault_of_read(name: &str, fault: ReadFault) -> HostFault<'_> {
    match fault {
        ReadFault::Memory(want) => HostFault::Memory(want),
        ReadFault::TooLong => HostFault::File(name, FileFault::TooLong),
        ReadFault::Reader => HostFault::File(name, FileFault::Failing),
    }
}

/// The file at a path, to be read.
fn opened<'a>(rt: &HostRuntime, path: &'a str) -> Result<File, HostFault<'a>> {
    match open_file(rt, path) {
        Ok(file) => Ok(file),
        Err(error) => Err(fault_at(path, &error)),
    }
}

/// Judges the image of the file at a path, and says whether it is admitted. What it asks for is told where the
/// terms say so, and why it is denied.
fn add<'a>(
    rt: &HostRuntime,
    terms: &Terms<'a>,
    path: &'a str,
    images: &mut Vec<Accepted>,
) -> Result<bool, HostFault<'a>> {
    let mut file = opened(rt, path)?;
    match judge(rt.alloc(), terms.policy, &mut file, images) {
        Ok(None) => {}
        Ok(Some(denial)) => {
            tell_denial(rt, terms.report, path, &denial)?;
            return Ok(false);
        }
        Err(fault) => return Err(fault_of_read(path, fault)),
    }
    if let Some(accepted) = images.as_slice().last() {
        tell_asked(rt, terms.report, accepted)?;
    }
    Ok(true)
}

/// The images at all paths, if each is admitted.
fn admitted<'a>(
    rt: &HostRuntime,
    asked: &Asked<'a>,
) -> Result<Option<Vec<Accepted>>, HostFault<'a>> {
    let mut images = Vec::new(rt.alloc());
    let mut all = true;
    for path in asked.paths.as_slice() {
        all &= add(rt, &asked.terms, *path, &mut images)?;
    }
    Ok(if all { Some(images) } else { None })
}

/// What a run that has no end of its own leaves: a status where it was stopped at the bound of its output, else
/// what stops the host.
fn stopped<'a>(
    rt: &HostRuntime,
    terms: &Terms<'a>,
    path: &'a str,
    halt: RunHalt,
) -> Result<u8, HostFault<'a>> {
    match halt {
        RunHalt::TooMuch(output) => {
            tell_stopped(rt, terms.report, path, output)?;
            Ok(DENIED)
        }
        RunHalt::Memory(want) => Err(HostFault::Memory(want)),
        RunHalt::NoRoom(full) => Err(HostFault::NoRoom(full)),
        RunHalt::Input => Err(HostFault::File(terms.input_name(), FileFault::Failing)),
        RunHalt::Output => Err(HostFault::Output),
    }
}

/// Tells what a run gave, and gives its status.
fn told<'a>(
    rt: &HostRuntime,
    terms: &Terms<'a>,
    path: &'a str,
    accepted: &Accepted,
    ran: Result<HostRun, RunHalt>,
) -> Result<u8, HostFault<'a>> {
    match ran {
        Ok(ran) => {
            tell_run(rt, terms.report, path, accepted, &ran)?;
            Ok(if ran.told.status == 0 { 0 } else { OTHER_WORD })
        }
        Err(halt) => stopped(rt, terms, path, halt),
    }
}

/// Whether standard input is a plain file, of which another byte can be asked for without waiting.
fn is_input_plain(rt: &HostRuntime) -> bool {
    match fs::metadata(rt, "/dev/stdin") {
        Ok(found) => found.is_file(),
        Err(_) => false,
    }
}

/// Runs one image on the input, which is read as it asks for it.
fn run_one<'a>(
    rt: &HostRuntime,
    terms: &Terms<'a>,
    accepted: &Accepted,
) -> Result<Result<HostRun, RunHalt>, HostFault<'a>> {
    let Some(path) = terms.input else {
        let source = Source::Standard(rt.stdin());
        return Ok(converse(rt, terms, accepted, source, is_input_plain(rt)));
    };
    let file = opened(rt, path)?;
    let is_plain = match file.metadata() {
        Ok(found) => found.is_file(),
        Err(_) => false,
    };
    let source = Source::File(file);
    Ok(converse(rt, terms, accepted, source, is_plain))
}

/// All of the input.
fn whole_input<'a>(rt: &HostRuntime, terms: &Terms<'a>) -> Result<Vec<u8>, HostFault<'a>> {
    let bytes = match terms.input {
        Some(path) => read_whole(rt.alloc(), &mut opened(rt, path)?, MOST),
        None => read_whole(rt.alloc(), &mut rt.stdin(), MOST),
    };
    match bytes {
        Ok(bytes) => Ok(bytes),
        Err(fault) => Err(fault_of_read(terms.input_name(), fault)),
    }
}

/// Runs several images on the same input, one after another, and gives the greatest status of one.
fn run_each<'a>(
    rt: &HostRuntime,
    asked: &Asked<'a>,
    images: &[Accepted],
) -> Result<u8, HostFault<'a>> {
    let input = whole_input(rt, &asked.terms)?;
    let mut status = 0;
    for (path, accepted) in asked.paths.as_slice().iter().zip(images) {
        let copy = Vec::from_slice(rt.alloc(), input.as_slice())?;
        let source = Source::Bytes(Cursor::new(copy));
        let ran = converse(rt, &asked.terms, accepted, source, true);
        status = status.max(told(rt, &asked.terms, *path, accepted, ran)?);
    }
    Ok(status)
}

/// Runs the images at the paths that the words give, where each is admitted, and gives the status.
fn perform<'a>(rt: &HostRuntime, asked: &Asked<'a>) -> Result<u8, HostFault<'a>> {
    let Some(images) = admitted(rt, asked)? else {
        return Ok(DENIED);
    };
    if let ([path], [accepted]) = (asked.paths.as_slice(), images.as_slice()) {
        let ran = run_one(rt, &asked.terms, accepted)?;
        return told(rt, &asked.terms, *path, accepted, ran);
    }
    run_each(rt, asked, images.as_slice())
}

/// Tells why words ask for nothing, and gives the status.
fn lacking(rt: &HostRuntime, lack: Lack<'_>) -> u8 {
    let told = match lack {
        Lack::Usage => eprint!(rt; "{USAGE}"),
        lack => eprintln!(rt; "host: {lack}"),
    };
    match lack {
        Lack::Memory(_) => FAILED,
        _ if told.is_err() => FAILED,
        _ => OTHER_WORDS,
    }
}

/// Does what the words ask for, and gives the status. What is wrong is told on standard error.
fn status_of(rt: &HostRuntime, words: &[String]) -> u8 {
    let asked = match read_words(rt.alloc(), words) {
        Ok(asked) => asked,
        Err(lack) => return lacking(rt, lack),
    };
    match perform(rt, &asked) {
        Ok(status) => status,
        Err(fault) => {
            let _ = eprintln!(rt; "host: {fault}");
            FAILED
        }
    }
}

fn main(rt: HostRuntime) -> ExitCode {
    let _held = hold_streams(&rt);
    let status = match command_words(&rt) {
        Ok(words) => status_of(&rt, words.as_slice()),
        Err(error) => {
            let fault = fault_at("the words of a command line", &error);
            let _ = eprintln!(rt; "host: {fault}");
            match fault {
                HostFault::NoRoom(_) => FAILED,
                _ => OTHER_WORDS,
            }
        }
    };
    ExitCode::from(status)
}
