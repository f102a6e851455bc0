//! Runs over a reader and a writer, by a count of windows that is a number.
ghost use Rattle.std.specs.Prelude.{◌≡◌, ◌≤◌};
ghost use Rattle.cmd_command.specs.Streaming.{RunGives};

use cmd_jobs::Windows;
use sbx_counts::on_windows;
use sbx_stream::{Accepted, Finished, RunFault, run_stream};
use std::alloc::Global;
use std::io::{Read, Write};

/// The run on `N` windows, which are as many as the number says.
fn stream_on<const N: usize, I: Read, O: Write>(
    alloc: Global,
    windows: u32,
    accepted: &Accepted,
    input: &mut I,
    out: &mut O,
) -> Result<Finished, RunFault>
    requires range { (4 ≤ N) × (N ≤ 32) }
    requires same { windows ≡ N }
    ensures { RunGives windows accepted.now (I.remaining input.old) (I.remaining input.new)
        (O.contents out.old) (O.contents out.new) result }
{
    let _ = windows;
    run_stream::<N, I, O>(alloc, accepted, input, out)
}

/// Runs an accepted image over a reader and a writer, on so many windows, as `run_stream` does. Each count is a machine
/// of its own.
pub fn stream_windows<I: Read, O: Write>(
    alloc: Global,
    windows: Windows,
    accepted: &Accepted,
    input: &mut I,
    out: &mut O,
) -> Result<Finished, RunFault>
    ensures { RunGives windows accepted.now (I.remaining input.old) (I.remaining input.new)
        (O.contents out.old) (O.contents out.new) result }
{
    let count = windows.count();
    on_windows!(count, stream_on [I O] (alloc, count, accepted, input, out), 4 to 32)
}
