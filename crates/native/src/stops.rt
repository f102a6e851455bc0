//! Why no C is written, with its line on standard error and its exit status.
use cmd_files::FileFault;
use cmd_filing::ReadFault;
use sbx_image::ImageFault;
use sbx_verify::{Cause, Refusal};
use std::alloc::AllocError;
use std::fmt::{self, Display, Formatter, Write};
use std::io::{self, ErrorKind};

/// Why no C is written.
#[derive(Clone, Copy)]
pub enum NativeStop<'a> {
    /// The file of an image can't be read.
    File(&'a str, FileFault),
    /// The bytes of a file are no image.
    Image(&'a str, ImageFault),
    /// The image breaks a rule.
    Refused(&'a str, Refusal),
    /// The C can't be written.
    Output(&'a str, FileFault),
    /// Memory was refused.
    Memory,
}

impl NativeStop<'_> {
    /// 2 where the image is refused, else 4.
    pub fn status(&self) -> u8 {
        match self {
            NativeStop::Image(_, _) | NativeStop::Refused(_, _) => 2,
            NativeStop::File(_, _) | NativeStop::Output(_, _) | NativeStop::Memory => 4,
        }
    }
}

/// What stops where the bytes of a file aren't there.
pub fn stop_of_read(path: &str, fault: ReadFault) -> NativeStop<'_> {
    match fault {
        ReadFault::Memory(_) => NativeStop::Memory,
        ReadFault::TooLong => NativeStop::File(path, FileFault::TooLong),
        ReadFault::Reader => NativeStop::File(path, FileFault::Failing),
    }
}

/// What stops where bytes are no image.
pub fn stop_of_parse(path: &str, fault: ImageFault) -> NativeStop<'_> {
    match fault {
        ImageFault::Memory(_) => NativeStop::Memory,
        _ => NativeStop::Image(path, fault),
    }
}

/// What stops where an image isn't accepted.
pub fn stop_of_verify(path: &str, refusal: Refusal) -> NativeStop<'_> {
    match refusal.cause {
        Cause::NoMemory(_) => NativeStop::Memory,
        _ => NativeStop::Refused(path, refusal),
    }
}

/// What stops where a file can't be opened.
pub fn stop_of_open<'a>(path: &'a str, error: &io::Error) -> NativeStop<'a> {
    match error.kind() {
        ErrorKind::OutOfMemory => NativeStop::Memory,
        _ => NativeStop::File(path, FileFault::of(error)),
    }
}

/// What stops where a file can't be made or written.
pub fn stop_of_write<'a>(path: &'a str, error: &io::Error) -> NativeStop<'a> {
    match error.kind() {
        ErrorKind::OutOfMemory => NativeStop::Memory,
        _ => NativeStop::Output(path, FileFault::of(error)),
    }
}

impl From<AllocError> for NativeStop<'_> {
    fn from(_error: AllocError) -> Self {
        NativeStop::Memory
    }
}

impl Display for NativeStop<'_> {
    fn fmt<W: Write>(&self, f: &mut Formatter<W>) -> fmt::Result {
        match self {
            NativeStop::File(path, fault) => write!(f, "{path}: {fault}"),
            NativeStop::Image(path, fault) => write!(f, "{path}: image {fault}"),
            NativeStop::Refused(path, refusal) => write!(f, "{path}: {refusal}"),
            NativeStop::Output(path, FileFault::Failing) => write!(f, "{path}: can't be written"),
            NativeStop::Output(path, fault) => write!(f, "{path}: can't be written: {fault}"),
            NativeStop::Memory => f.write_str("memory"),
        }
    }
}
