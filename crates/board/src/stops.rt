//! Why nothing is written, with its line on standard error and its exit status.
use crate::words::WordsFault;
use cmd_files::FileFault;
use cmd_filing::ReadFault;
use sbx_image::ImageFault;
use sbx_raw::RunFault;
use sbx_verify::Refusal;
use std::alloc::AllocError;
use std::fmt::{self, Display, Formatter, Write};

/// Why nothing is written.
#[derive(Clone, Copy)]
pub enum BoardStop<'a> {
    /// The words ask for nothing.
    Words(WordsFault<'a>),
    /// A file can't be read.
    File(&'a str, FileFault),
    /// The bytes of a file are no image.
    Image(&'a str, ImageFault),
    /// The image breaks a rule.
    Refused(&'a str, Refusal),
    /// The input has more bytes than RAM has room for.
    Input(&'a str),
    /// The file can't be written.
    Output(&'a str, FileFault),
    /// Memory was refused.
    Memory,
}

impl BoardStop<'_> {
    /// 2 where the image is refused, 3 where the words ask for nothing, else 4.
    pub fn status(&self) -> u8 {
        match self {
            BoardStop::Image(_, _) | BoardStop::Refused(_, _) => 2,
            BoardStop::Words(_) => 3,
            BoardStop::File(_, _) | BoardStop::Input(_) => 4,
            BoardStop::Output(_, _) | BoardStop::Memory => 4,
        }
    }
}

/// What stops where the bytes of a file aren't there.
pub fn stop_of_read(path: &str, fault: ReadFault) -> BoardStop<'_> {
    match fault {
        ReadFault::Memory(_) => BoardStop::Memory,
        ReadFault::TooLong => BoardStop::File(path, FileFault::TooLong),
        ReadFault::Reader => BoardStop::File(path, FileFault::Failing),
    }
}

impl From<AllocError> for BoardStop<'_> {
    fn from(_error: AllocError) -> Self {
        BoardStop::Memory
    }
}

impl From<RunFault> for BoardStop<'_> {
    fn from(_error: RunFault) -> Self {
        BoardStop::Memory
    }
}

impl Display for WordsFault<'_> {
    fn fmt<W: Write>(&self, f: &mut Formatter<W>) -> fmt::Result {
        match self {
            WordsFault::Usage => f.write_str("board --help tells how it is called"),
            WordsFault::Unknown(word) => write!(f, "{word} is no option"),
            WordsFault::Value(text) | WordsFault::Places(text) => f.write_str(text),
        }
    }
}

impl Display for BoardStop<'_> {
    fn fmt<W: Write>(&self, f: &mut Formatter<W>) -> fmt::Result {
        match self {
            BoardStop::Words(fault) => write!(f, "{fault}"),
            BoardStop::File(path, fault) => write!(f, "{path}: {fault}"),
            BoardStop::Image(path, fault) => write!(f, "{path}: image {fault}"),
            BoardStop::Refused(path, refusal) => write!(f, "{path}: {refusal}"),
            BoardStop::Input(path) => write!(f, "{path}: the input has more than 131072 bytes"),
            BoardStop::Output(path, FileFault::Failing) => write!(f, "{path}: can't be written"),
            BoardStop::Output(path, fault) => write!(f, "{path}: can't be written: {fault}"),
            BoardStop::Memory => f.write_str("memory"),
        }
    }
}
