//! Why a command stops, its line on standard error and its exit status.
ghost use Rattle.std.specs.Prelude.{◌≡◌, ◌≢◌, ◌↔◌, IsSome, OnErr, OnOk, Some};
ghost use Rattle.std.specs.Io.KnownBytes.{Appends};
ghost use Rattle.std.specs.IoError.{error_kind};
ghost use Rattle.sbx_put.specs.Fronts.{WroteSome};
ghost use Rattle.cmd_stops.specs.Stops.{HasNoRoom, Told, line_of, status_of, stop_of_image, stop_of_run};
ghost use Rattle.cmd_stops.specs.Stops.{stop_of_source, whole_line};

use arrayvec::ArrayString;
use sbx_asm::{AsmFault, Cause};
use sbx_image::ImageFault;
use sbx_put::put_all;
use sbx_raw::RunFault;
use sbx_rules::Refusal;
use std::fmt::{self, Display, Formatter, Write};
use std::io::{self, ErrorKind};
use want::Want;

/// Why a command stops before its job is done. Its text is its line on standard error.
#[derive(Clone, Copy)]
pub enum CommandStop {
    /// The source means no image.
    Source(AsmFault),
    /// The bytes of the file are no image.
    Image(ImageFault),
    /// The image breaks a rule.
    Refused(Refusal),
    /// The file can't be read, or is longer than the bound.
    File,
    /// Standard input can't be read, or that of a trace is longer than the bound.
    Input,
    /// The output can't be written.
    Output,
    /// Memory was refused.
    Memory(Want),
    /// There was no room for a file or a stream.
    NoRoom(Full),
}

/// How a command ended.
#[derive(Clone, Copy)]
pub struct Ended {
    /// The exit status.
    pub status: u8,
    /// Whether standard error took all that was told: nothing of a job that is done, the whole line of a stop.
    pub told: bool,
}

/// Room for the longest line of a stop.
type Line = ArrayString<64>;

/// The evidence that there was no room for a file or a stream. It is made of an error of the kind `OutOfMemory`, and of
/// nothing else.
#[derive(Clone, Copy)]
pub struct Full(());

impl Full {
    /// The evidence that an error of a file or a stream holds, where it is of that kind.
    pub fn of(error: &io::Error) -> Option<Full>
        ensures { IsSome result ↔ (error_kind error.now ≡ ErrorKind.OutOfMemory) }
    {
        if error.kind() == ErrorKind::OutOfMemory {
            Some(Full(()))
        } else {
            None
        }
    }
}

impl CommandStop {
    /// What an error of a file or a stream stops with: want of memory where it is of the kind `OutOfMemory`, else the
    /// stop that is given.
    pub fn of(error: &io::Error, other: CommandStop) -> CommandStop
        ensures no_room { error_kind error.now ≡ ErrorKind.OutOfMemory → HasNoRoom result }
        ensures other { error_kind error.now ≢ ErrorKind.OutOfMemory → result ≡ other }
    {
        match Full::of(error) {
            Some(full) => CommandStop::NoRoom(full),
            None => other,
        }
    }

    /// The exit status: 2 where the bytes of the file are at fault, 4 where a file, an input or an output is, 5 for
    /// memory.
    pub fn status(self) -> u8
        ensures { result ≡ status_of self }
    {
        match self {
            CommandStop::Source(_) | CommandStop::Image(_) | CommandStop::Refused(_) => 2,
            CommandStop::File | CommandStop::Input | CommandStop::Output => 4,
            CommandStop::Memory(_) | CommandStop::NoRoom(_) => 5,
        }
    }

    /// Writes its line. Where the writer fails it has the first bytes.
    pub fn tell<E: io::Write>(self, err: &mut E) -> io::Result<()>
        ensures whole { OnOk result (Appends (E.contents err.old) (E.contents err.new) (whole_line self)) }
        ensures part { OnErr result (WroteSome (E.contents err.old) (E.contents err.new) (whole_line self)) }
    {
        let mut line = Line::new();
        match writeln!(line, "{self}") {
            Ok(()) => put_all(err, line.as_str().as_bytes()),
            Err(error) => Err(io::Error::from(error)),
        }
    }

    /// Tells it on standard error, whose own faults don't change the exit status.
    pub fn report<E: io::Write>(self, err: &mut E) -> Ended
        ensures status { result.status ≡ status_of self }
        ensures told { Told self result.told (E.contents err.old) (E.contents err.new) }
    {
        let told = self.tell(err).is_ok();
        Ended {
            status: self.status(),
            told,
        }
    }
}

impl Display for CommandStop {
    ghost output = { λ s. Some (line_of s) };

    fn fmt<W: Write>(&self, f: &mut Formatter<W>) -> fmt::Result {
        match self {
            CommandStop::Source(fault) => write!(f, "{fault}"),
            CommandStop::Image(fault) => write!(f, "image {fault}"),
            CommandStop::Refused(refusal) => write!(f, "{refusal}"),
            CommandStop::File => f.write_str("file"),
            CommandStop::Input => f.write_str("input"),
            CommandStop::Output => f.write_str("output"),
            CommandStop::Memory(_) | CommandStop::NoRoom(_) => f.write_str("memory"),
        }
    }
}

impl From<ImageFault> for CommandStop {
    ghost from_gives = { λ fault stop. stop ≡ stop_of_image fault };

    fn from(fault: ImageFault) -> CommandStop {
        match fault {
            ImageFault::Memory(want) => CommandStop::Memory(want),
            fault => CommandStop::Image(fault),
        }
    }
}

impl From<AsmFault> for CommandStop {
    ghost from_gives = { λ fault stop. stop ≡ stop_of_source fault };

    fn from(fault: AsmFault) -> CommandStop {
        match fault.cause {
            Cause::Memory(want) => CommandStop::Memory(want),
            _ => CommandStop::Source(fault),
        }
    }
}

impl From<RunFault> for CommandStop {
    ghost from_gives = { λ fault stop. stop ≡ stop_of_run fault };

    fn from(fault: RunFault) -> CommandStop {
        match fault {
            RunFault::Memory(want) => CommandStop::Memory(want),
            RunFault::Reader => CommandStop::Input,
            RunFault::Writer => CommandStop::Output,
        }
    }
}
