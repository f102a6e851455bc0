//! The command `run`.
ghost use Rattle.std.specs.Prelude.{◌≡◌, ◌<◌, IfErr, IfOk, IfSome};
ghost use Rattle.sbx_port.specs.Streams.{Streamed};
ghost use Rattle.cmd_stops.specs.Stops.{IsOfFile, IsTrueOf};
ghost use Rattle.cmd_command.specs.Streaming.{LeavesOn, Left, Ran, RanOn, status_of_word};
ghost use Rattle.cmd_filing.specs.Files.{IsAccepted};

use crate::streaming::stream_windows;
use cmd_filing::accepted_in;
use cmd_jobs::Windows;
use cmd_stops::CommandStop;
use sbx_stream::Accepted;
use std::alloc::Global;
use std::io::{Read, Write};

/// The status of a run with an exit word.
fn status_of_word(word: u32) -> u8
    ensures { result ≡ status_of_word word }
{
    if word == 0 { 0 } else { 1 }
}

/// Runs an accepted image over the input and the output, on so many windows, and flushes the output at the end.
fn run_through<I: Read, O: Write>(
    alloc: Global,
    windows: Windows,
    accepted: &Accepted,
    input: &mut I,
    out: &mut O,
) -> Result<u8, CommandStop>
    ensures range { IfOk result (λ status. status < 2) }
    ensures ran { IfOk result (λ status. RanOn windows accepted.now (I.remaining input.old) (I.remaining input.new)
        (O.contents out.old) (O.contents out.new) status) }
    ensures left { IfErr result (λ stop. Streamed (I.remaining input.old) (I.remaining input.new)
        (O.contents out.old) (O.contents out.new) (LeavesOn accepted.now stop)) }
{
    let finished = stream_windows(alloc, windows, accepted, input, out)?;
    match out.flush() {
        Ok(()) => Ok(status_of_word(finished.status)),
        Err(_) => Err(CommandStop::Output),
    }
}

/// Verifies the image of a file and runs it on the input, on so many windows. A byte is read where the program asks for
/// one, and what it puts out is written before it puts out more or a byte is read, and at latest some thousands of
/// turns later; nothing of either is kept. The status is 0, or 1 where the exit word is another.
pub fn run_file<F: Read, I: Read, O: Write>(
    alloc: Global,
    windows: Windows,
    file: &mut F,
    input: &mut I,
    out: &mut O,
) -> Result<u8, CommandStop>
    ensures range { IfOk result (λ status. status < 2) }
    ensures accepted { IfOk result (λ _. IfSome (F.remaining file.old) IsAccepted) }
    ensures ran { IfOk result (Ran windows (F.remaining file.old) (I.remaining input.old) (I.remaining input.new)
        (O.contents out.old) (O.contents out.new)) }
    ensures stop { IfErr result (λ stop. IfSome (F.remaining file.old) (IsTrueOf stop)) }
    ensures untouched { IfErr result (λ stop. IsOfFile stop
        → (input.new ≡ input.old) × (out.new ≡ out.old)) }
    ensures left { IfErr result (Left (F.remaining file.old) (I.remaining input.old) (I.remaining input.new)
        (O.contents out.old) (O.contents out.new)) }
{
    let accepted = accepted_in(alloc, file)?;
    run_through(alloc, windows, &accepted, input, out)
}
