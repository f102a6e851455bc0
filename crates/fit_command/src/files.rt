//! Files that are read and written, and what is told where there is no source.
use crate::words::{ArgumentFault, Arguments, USAGE};
use cmd_files::FileFault;
use fit_code::{Fault, Reason};
use fit_gas::Assembly;
use fit_text::FaultLine;
use sbx_put::put_through;
use std::fs::File;
use std::io::{ErrorKind, Read};
use std::os::unix::fs::MetadataExt;
use std::{fs, io};

/// The most bytes that a file may have.
const MOST: u64 = 64_000_000;

/// The exit status where something isn't shown, and words say that this is an error.
pub const LACKING: u8 = 1;

/// The exit status where the program is refused, or a file is too long, which was told.
pub const REFUSED: u8 = 2;

/// The exit status where words ask for nothing.
const WRONG_WORDS: u8 = 3;

/// The exit status where a file can't be read or written, which was told.
const NO_FILE: u8 = 4;

/// The exit status where memory was refused, which is told at the end.
pub const NO_MEMORY: u8 = 5;

/// Tells a fault of a program whose lines name these files, and gives the exit status.
pub fn refused(rt: &HostRuntime, fault: &Fault, files: &[String]) -> u8 {
    if matches!(fault.reason, Reason::Memory(_)) {
        return NO_MEMORY;
    }
    let _ = rt.eprintln(&FaultLine { fault, files });
    REFUSED
}

/// Tells what is wrong with the file at a path, which can't be read, and gives the exit status.
pub fn unread(rt: &HostRuntime, path: &str, error: &io::Error) -> u8 {
    if matches!(error.kind(), ErrorKind::OutOfMemory) {
        return NO_MEMORY;
    }
    let _ = eprintln!(rt; "fit: {path}: {}", FileFault::of(error));
    NO_FILE
}

/// Tells that the file at a path can't be written, and gives the exit status.
fn unwritten(rt: &HostRuntime, path: &str, error: &io::Error) -> u8 {
    match error.kind() {
        ErrorKind::OutOfMemory => NO_MEMORY,
        _ => {
            let _ = eprintln!(rt; "fit: {path}: can't be written");
            NO_FILE
        }
    }
}

/// All bytes of the file at a path. What is wrong with it is told: the exit status of that.
pub fn bytes_of(rt: &HostRuntime, path: &str) -> Result<Vec<u8>, u8> {
    let file: File = match fs::open(rt, path) {
        Ok(file) => file,
        Err(error) => return Err(unread(rt, path, &error)),
    };
    let mut bytes = Vec::new(rt.alloc());
    match file.take(MOST).read_to_end(&mut bytes) {
        Ok(_count) if bytes.len() as u64 == MOST => {
            let _ = eprintln!(rt; "{path}: refused: {MOST} bytes and more");
            Err(REFUSED)
        }
        Ok(_count) => Ok(bytes),
        Err(error) => Err(unread(rt, path, &error)),
    }
}

/// Reads the sources that words name. What is wrong with one is told: the exit status of that.
pub fn read_sources(
    rt: &HostRuntime,
    words: &Arguments<'_>,
    source: &mut Assembly,
) -> Result<(), u8> {
    for path in words.sources.as_slice() {
        let bytes = bytes_of(rt, path)?;
        if let Err(fault) = source.read(path, bytes.as_slice()) {
            return Err(refused(rt, &fault, source.files.as_slice()));
        }
    }
    Ok(())
}

/// Whether two paths have the same plain file.
fn is_same_file(rt: &HostRuntime, one: &str, other: &str) -> bool {
    match (fs::metadata(rt, one), fs::metadata(rt, other)) {
        (Ok(one), Ok(other)) => {
            one.is_file() && one.dev() == other.dev() && one.ino() == other.ino()
        }
        _ => false,
    }
}

/// Whether a path has the plain file of one of the sources that words name.
fn is_source(rt: &HostRuntime, words: &Arguments<'_>, path: &str) -> bool {
    let mut is_source = false;
    for source in words.sources.as_slice() {
        is_source |= is_same_file(rt, *source, path);
    }
    is_source
}

/// Tells that the file at a path has a source, and gives the exit status.
fn unwritten_source(rt: &HostRuntime, path: &str) -> u8 {
    let _ = eprintln!(rt;
        "fit: {path}: can't be written: it is a source itself; name another file"
    );
    NO_FILE
}

/// Writes bytes to the file at a path, or to standard output for none or `-`, and gives the exit status; what is wrong
/// with the file is told, as that it is one of the sources that words name.
fn write_bytes(rt: &HostRuntime, words: &Arguments<'_>, path: Option<&str>, bytes: &[u8]) -> u8 {
    let written = match path {
        None | Some("-") => put_through(&mut rt.stdout(), bytes),
        Some(path) if is_source(rt, words, path) => return unwritten_source(rt, path),
        Some(path) => match fs::create(rt, path) {
            Ok(file) => {
                let mut file: File = file;
                put_through(&mut file, bytes)
            }
            Err(error) => Err(error),
        },
    };
    match written {
        Ok(()) => 0,
        Err(error) => unwritten(rt, path.unwrap_or("standard output"), &error),
    }
}

/// Writes a source to the file that words name, or to standard output where they name none or `-`, and gives the exit
/// status; what is wrong with the file is told, as that it is a source itself.
pub fn write_source(rt: &HostRuntime, words: &Arguments<'_>, text: &[u8]) -> u8 {
    write_bytes(rt, words, words.out, text)
}

/// Writes an image to the file at a path, or to standard output for `-`, behind the source that was made of the words,
/// and gives the exit status; what is wrong with the file is told, as that it has that source or one of its own.
pub fn write_image(rt: &HostRuntime, words: &Arguments<'_>, path: &str, bytes: &[u8]) -> u8 {
    match words.out {
        Some(out) if is_same_file(rt, out, path) => unwritten_source(rt, path),
        _ => write_bytes(rt, words, Some(path), bytes),
    }
}

/// Tells why words ask for nothing, and gives the exit status. That memory was refused is told at the end.
pub fn lacking(rt: &HostRuntime, lack: ArgumentFault<'_>) -> u8 {
    match lack {
        ArgumentFault::Memory => return NO_MEMORY,
        ArgumentFault::Usage => {
            let _ = rt.eprint(USAGE);
        }
        lack => {
            let _ = eprintln!(rt; "fit: {lack}");
        }
    }
    WRONG_WORDS
}
