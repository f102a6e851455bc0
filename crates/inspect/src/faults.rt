//! Why nothing is told, and how that is told.
use cmd_command::CommandStop;
use cmd_files::FileFault;
use inspect_cycles::TableFault;
use inspect_start::{StartCause, StartFault};
use std::io::Write;

/// The status where a file or a stream fails.
const FILE: u8 = 4;

/// The status where a source or a map is no image's or another one's, or a machine's file, or a table, doesn't say what
/// it has to.
const BYTES: u8 = 2;

/// Why nothing is told.
#[derive(Clone, Copy)]
pub enum InspectFault<'a> {
    /// The job has stopped.
    Stop(CommandStop),
    /// There is something wrong with the file at a path.
    File(&'a str, FileFault),
    /// The source at a path is another image's.
    Foreign(&'a str),
    /// The map at a path has a line of that number which no map has there.
    Broken(&'a str, usize),
    /// There is something wrong with the input.
    Input(FileFault),
    /// There is something wrong with a line of the file at the second path, or with the binary at the first.
    Start(&'a str, &'a str, StartFault),
    /// The file at a path is no table of cycles.
    Table(&'a str, TableFault),
}

impl InspectFault<'_> {
    /// Tells it on standard error, and gives the exit status.
    pub fn report(self, rt: &HostRuntime) -> u8 {
        match self {
            InspectFault::Stop(stop) => stop.report(&mut rt.stderr()).status,
            InspectFault::File(path, fault) => {
                let _ = eprintln!(rt; "inspect: {path}: {fault}");
                FILE
            }
            InspectFault::Foreign(path) => {
                let _ = eprintln!(rt; "inspect: {path}: the source is another image's");
                BYTES
            }
            InspectFault::Broken(path, line) => {
                let _ = eprintln!(rt; "inspect: {path}: line {line} is none of a map");
                BYTES
            }
            InspectFault::Start(binary, file, fault) => report_start(rt, binary, file, fault),
            InspectFault::Table(path, fault) => {
                let _ = eprintln!(rt; "inspect: {path}: {fault}");
                BYTES
            }
            InspectFault::Input(fault) => {
                let _ = eprintln!(rt; "inspect: input: {fault}");
                FILE
            }
        }
    }
}

/// Tells what is wrong with the start of a machine, and gives the exit status.
fn report_start(rt: &HostRuntime, binary: &str, file: &str, fault: StartFault) -> u8 {
    let StartFault { line, cause } = fault;
    if let StartCause::Memory(want) = cause {
        return CommandStop::Memory(want).report(&mut rt.stderr()).status;
    }
    let _ = if line == 0 {
        eprintln!(rt; "inspect: {binary}: {cause}")
    } else {
        eprintln!(rt; "inspect: {file}: line {line}: {cause}")
    };
    BYTES
}
