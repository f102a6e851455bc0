//! Files and standard streams, as the system has them.
use std::fs::{self, File};
use std::io::{self, ErrorKind};

/// The file at a path, to be read. A directory is none.
pub fn open_file(rt: &HostRuntime, path: &str) -> io::Result<File> {
    let file = fs::open(rt, path)?;
    if file.metadata()?.is_dir() {
        return Err(io::Error::from(ErrorKind::IsADirectory));
    }
    Ok(file)
}

/// What stands in the place of the standard streams that are closed.
#[derive(Drop)]
pub struct Held {
    places: [Option<File>; 3],
}

/// Takes the lowest three descriptors that are free, so that no file which is opened later stands in the place of a
/// standard stream that is closed: the system gives each file the lowest one. They are a directory's, which nobody
/// can read or write: so a closed stream fails where it is used, and only there.
pub fn hold_streams(rt: &HostRuntime) -> Held {
    let places = [
        fs::open(rt, "/").ok(),
        fs::open(rt, "/").ok(),
        fs::open(rt, "/").ok(),
    ];
    Held { places }
}
