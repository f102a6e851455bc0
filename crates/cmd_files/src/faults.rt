//! What is wrong with a file, by name.
ghost use Rattle.std.specs.Prelude.{◌≡◌, Some};
ghost use Rattle.std.specs.IoError.{error_kind};
ghost use Rattle.cmd_files.specs.Faults.{fault_of, text_of};

use std::fmt::{self, Display, Formatter, Write};
use std::io::{self, ErrorKind};

/// What is wrong with a file. Its text says it to people.
#[derive(Clone, Copy, PartialEq, Eq)]
pub enum FileFault {
    /// Nothing has the path.
    Missing,
    /// The path is a directory's.
    Directory,
    /// Who asks has no right to.
    Forbidden,
    /// It has more than 16,777,216 bytes.
    TooLong,
    /// A call of the system fails for another reason.
    Failing,
}

impl FileFault {
    /// What the error of a call of the system says of the file.
    pub fn of(error: &io::Error) -> FileFault
        ensures { result ≡ fault_of (error_kind error.now) }
    {
        match error.kind() {
            ErrorKind::NotFound | ErrorKind::NotADirectory => FileFault::Missing,
            ErrorKind::IsADirectory => FileFault::Directory,
            ErrorKind::PermissionDenied => FileFault::Forbidden,
            _ => FileFault::Failing,
        }
    }
}

impl Display for FileFault {
    ghost output = { λ fault. Some (text_of fault) };

    fn fmt<W: Write>(&self, f: &mut Formatter<W>) -> fmt::Result {
        f.write_str(match self {
            FileFault::Missing => "no such file",
            FileFault::Directory => "is a directory",
            FileFault::Forbidden => "permission denied",
            FileFault::TooLong => "longer than 16,777,216 bytes",
            FileFault::Failing => "can't be read",
        })
    }
}
