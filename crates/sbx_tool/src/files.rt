//! Files by their paths.
use cmd_command::{CommandStop, exit_status};
use cmd_words::Job;
use std::fs::File;
use std::io::{Read, Write};
use std::os::unix::fs::MetadataExt;
use std::{fs, io};
use want::Want;

/// The file at a path, to be read.
fn opened(rt: &HostRuntime, path: &str) -> Result<File, CommandStop> {
    match fs::open(rt, path) {
        Ok(file) => Ok(file),
        Err(error) => Err(CommandStop::of(&error, CommandStop::File)),
    }
}

/// Does a job on an open file, from a reader to a writer. What goes wrong within it is told on standard error.
fn status_on<I: Read, O: Write>(
    rt: &HostRuntime,
    job: &Job<'_>,
    file: &mut File,
    input: &mut I,
    out: &mut O,
) -> u8 {
    exit_status(rt.alloc(), job, file, input, out, &mut rt.stderr())
}

/// Does a job on the file at a path, from a reader to a writer. Both are `dyn`, so that the machines of the counts of
/// windows are compiled once and not for each reader and writer.
pub fn done_on(
    rt: &HostRuntime,
    job: &Job<'_>,
    path: &str,
    mut input: &mut dyn Read,
    mut out: &mut dyn Write,
) -> Result<u8, CommandStop> {
    match opened(rt, path) {
        Ok(mut file) => Ok(status_on(rt, job, &mut file, &mut input, &mut out)),
        Err(stop) => Err(stop),
    }
}

/// Whether two paths have the same plain file.
pub fn is_same_file(rt: &HostRuntime, one: &str, other: &str) -> bool {
    match (fs::metadata(rt, one), fs::metadata(rt, other)) {
        (Ok(one), Ok(other)) => {
            one.is_file() && one.dev() == other.dev() && one.ino() == other.ino()
        }
        _ => false,
    }
}

/// Whether a path has a plain file that may be written, or nothing.
fn is_plain(rt: &HostRuntime, path: &str) -> bool {
    match fs::symlink_metadata(rt, path) {
        Ok(found) => found.is_file() && !found.permissions().readonly(),
        Err(error) => error.kind() == io::ErrorKind::NotFound,
    }
}

/// A new file beside a path, with the permissions of the plain file that is there; none where that can't be made, or
/// where the path has something else.
fn made_beside(rt: &HostRuntime, path: &str, beside: &str) -> Option<File> {
    if !is_plain(rt, path) {
        return None;
    }
    let file = File::create_new(rt, beside).ok()?;
    if let Ok(found) = fs::metadata(rt, path) {
        let _ = file.set_permissions(found.permissions());
    }
    Some(file)
}

/// Writes all bytes to a new file, which then takes the place of the one at a path. Where that fails it is removed.
fn replaced(
    rt: &HostRuntime,
    mut file: File,
    beside: &str,
    path: &str,
    bytes: &[u8],
) -> io::Result<()> {
    let done = file
        .write_all(bytes)
        .and_then(|()| fs::rename(rt, beside, path));
    if done.is_err() {
        let _ = fs::remove_file(rt, beside);
    }
    done
}

/// Makes the file at a path, or replaces it, with all bytes. A plain file is whole or as it was: it is written beside,
/// to the path with `.part` behind it, and renamed. What else is at the path, as a device, a pipe or a link, is opened
/// and written.
pub fn stored(rt: &HostRuntime, path: &str, bytes: &[u8]) -> Result<(), CommandStop> {
    let beside = match format!(in rt.alloc(); "{path}.part") {
        Ok(beside) => beside,
        Err(error) => return Err(CommandStop::Memory(Want::from(error))),
    };
    let written = match made_beside(rt, path, beside.as_str()) {
        Some(file) => replaced(rt, file, beside.as_str(), path, bytes),
        None => fs::write(rt, path, bytes),
    };
    match written {
        Ok(()) => Ok(()),
        Err(error) => Err(CommandStop::of(&error, CommandStop::Output)),
    }
}
