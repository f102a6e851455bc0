//! A machine of one's own that a file sets.
ghost use Rattle.inspect.specs.Machines.{MachineOf};

use crate::faults::InspectFault;
use crate::opened;
use cmd_command::{CommandStop, MOST, ReadFault, Windows, read_whole};
use cmd_files::FileFault;
use inspect_machine::machine_windows;
use inspect_start::{StartFault, read_start};
use std::alloc::Global;
use std::io::{BufWriter, Write};

/// Why nothing is told of a machine, or not all of it.
#[derive(Clone, Copy)]
pub enum MachineFault {
    /// The job has stopped.
    Stop(CommandStop),
    /// There is something wrong with its start.
    Start(StartFault),
}

/// What a machine is made of, beside the lines of its file: its windows, the most turns, and a binary from an address
/// on.
#[derive(Clone, Copy)]
pub struct InspectSetting<'a> {
    pub windows: Windows,
    pub limit: u64,
    pub binary: Option<&'a str>,
    pub at: u64,
}

/// Runs a machine from the start that the bytes of a binary and of a file spell, and tells its states, and the words of
/// RAM that it changed; or what is wrong with the file, and then nothing is written.
pub fn tell_machine<O: Write>(
    alloc: Global,
    setting: &InspectSetting<'_>,
    binary: &[u8],
    file: &[u8],
    out: &mut O,
) -> Result<(), MachineFault>
    ensures { MachineOf setting.now.windows setting.now.limit setting.now.at binary.now file.now (O.contents out.old)
        (O.contents out.new) result }
{
    let windows = setting.windows.count();
    let start = match read_start(alloc, windows, setting.at, binary, file) {
        Ok(start) => start,
        Err(fault) => return Err(MachineFault::Start(fault)),
    };
    match machine_windows(alloc, windows, &start, setting.limit, out) {
        Ok(()) => Ok(()),
        Err(fault) => Err(MachineFault::Stop(CommandStop::from(fault))),
    }
}

/// All bytes of the file at a path.
pub fn bytes_of<'a>(rt: &HostRuntime, path: &'a str) -> Result<Vec<u8>, InspectFault<'a>> {
    let mut file = opened(rt, path)?;
    match read_whole(rt.alloc(), &mut file, MOST) {
        Ok(bytes) => Ok(bytes),
        Err(ReadFault::Memory(want)) => Err(InspectFault::Stop(CommandStop::Memory(want))),
        Err(ReadFault::TooLong) => Err(InspectFault::File(path, FileFault::TooLong)),
        Err(ReadFault::Reader) => Err(InspectFault::File(path, FileFault::Failing)),
    }
}

/// The bytes of a setting's binary, none where there is none.
fn binary_of<'a>(
    rt: &HostRuntime,
    setting: &InspectSetting<'a>,
) -> Result<Vec<u8>, InspectFault<'a>> {
    match setting.binary {
        Some(path) => bytes_of(rt, path),
        None => Ok(Vec::new(rt.alloc())),
    }
}

/// Runs the machine of the file at a path, and tells it on standard output.
pub fn run_machine<'a>(
    rt: &HostRuntime,
    path: &'a str,
    setting: &InspectSetting<'a>,
) -> Result<(), InspectFault<'a>> {
    let binary = binary_of(rt, setting)?;
    let file = bytes_of(rt, path)?;
    let mut out = match BufWriter::new(rt.alloc(), rt.stdout()) {
        Ok(out) => out,
        Err(error) => return Err(InspectFault::Stop(CommandStop::of(&error, CommandStop::Output))),
    };
    match tell_machine(
        rt.alloc(),
        setting,
        binary.as_slice(),
        file.as_slice(),
        &mut out,
    ) {
        Ok(()) => Ok(()),
        Err(MachineFault::Stop(stop)) => Err(InspectFault::Stop(stop)),
        Err(MachineFault::Start(fault)) => Err(InspectFault::Start(
            setting.binary.unwrap_or(path),
            path,
            fault,
        )),
    }
}
