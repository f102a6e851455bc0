//! Why the host stops, and its line on standard error.
use cmd_command::Full;
use cmd_files::FileFault;
use std::alloc::AllocError;
use std::fmt::{self, Display, Formatter, Write};
use want::Want;

/// Why the host stops before its job is done. Its text is its line on standard error.
#[derive(Clone, Copy)]
pub enum HostFault<'a> {
    /// Memory was refused.
    Memory(Want),
    /// There was no room for a file or a stream.
    NoRoom(Full),
    /// There is something wrong with the file at a path, or with the input.
    File(&'a str, FileFault),
    /// The output can't be written.
    Output,
    /// Standard error can't be written.
    Report,
}

impl From<AllocError> for HostFault<'_> {
    fn from(error: AllocError) -> Self {
        HostFault::Memory(Want::from(error))
    }
}

impl Display for HostFault<'_> {
    fn fmt<W: Write>(&self, f: &mut Formatter<W>) -> fmt::Result {
        match self {
            HostFault::Memory(_) | HostFault::NoRoom(_) => f.write_str("memory"),
            HostFault::File(name, fault) => write!(f, "{name}: {fault}"),
            HostFault::Output => f.write_str("output: can't be written"),
            HostFault::Report => f.write_str("standard error: can't be written"),
        }
    }
}
