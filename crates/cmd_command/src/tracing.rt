//! The command `trace`.
ghost use Rattle.std.specs.Prelude.{◌≡◌, ◌≤◌, ◌⊎◌, IfErr, IfOk, IfSome, OnOk};
ghost use Rattle.cmd_stops.specs.Stops.{IsOfFile, IsOfTrace, IsTrueOfImage};
ghost use Rattle.cmd_filing.specs.Files.{IsImage};
ghost use Rattle.cmd_command.specs.Verdicts.{OfSpelled, TraceGives, TraceLeft, Traced};
ghost use Rattle.want.specs.Wants.{refused};

use cmd_filing::{MOST, ReadFault, image_in, read_whole};
use cmd_jobs::Windows;
use cmd_stops::CommandStop;
use sbx_counts::on_windows;
use sbx_image::Image;
use sbx_stream::{Outcome, RunFault, trace};
use std::alloc::Global;
use std::io::{Read, Write};

/// All of standard input, up to `MOST` bytes.
pub fn input_of<I: Read>(alloc: Global, input: &mut I) -> Result<Vec<u8>, CommandStop>
    ensures whole { IfOk result (λ bytes. IfSome (I.remaining input.old) (λ all. bytes.items ≡ all)) }
    ensures stop { IfErr result (λ stop. (stop ≡ CommandStop.Memory refused) ⊎ (stop ≡ CommandStop.Input)) }
{
    match read_whole(alloc, input, MOST) {
        Ok(bytes) => Ok(bytes),
        Err(ReadFault::Memory(want)) => Err(CommandStop::Memory(want)),
        Err(ReadFault::Reader | ReadFault::TooLong) => Err(CommandStop::Input),
    }
}

/// Writes the trace on `N` windows, which are as many as the number says.
#[tactic(auto, using(crate::proofs::Traces::trace_at))]
fn trace_on<const N: usize, O: Write>(
    alloc: Global,
    windows: u32,
    image: &Image,
    input: &[u8],
    limit: u64,
    out: &mut O,
) -> Result<Outcome, RunFault>
    requires range { (4 ≤ N) × (N ≤ 32) }
    requires same { windows ≡ N }
    ensures { TraceGives windows image.now input.now limit (O.contents out.old) (O.contents out.new) result }
{
    let _ = windows;
    trace::<N, O>(alloc, image, input, limit, out)
}

/// Writes the trace of an image on an input, on so many windows, up to so many turns. Each count is a machine of
/// its own.
fn trace_windows<O: Write>(
    alloc: Global,
    windows: Windows,
    image: &Image,
    input: &[u8],
    limit: u64,
    out: &mut O,
) -> Result<Outcome, RunFault>
    ensures { TraceGives windows image.now input.now limit (O.contents out.old) (O.contents out.new) result }
{
    let count = windows.count();
    on_windows!(count, trace_on [O] (alloc, count, image, input, limit, out), 4 to 32)
}

/// Writes the trace of an image on the input, which is read whole before the run, on so many windows, up to so many
/// turns.
fn trace_image<I: Read, O: Write>(
    alloc: Global,
    windows: Windows,
    limit: u64,
    image: &Image,
    input: &mut I,
    out: &mut O,
) -> Result<(), CommandStop>
    ensures traced { OnOk result (OfSpelled image.now (λ file. Traced windows limit file (I.remaining input.old)
        (O.contents out.old) (O.contents out.new))) }
    ensures stop { IfErr result IsOfTrace }
    ensures left { IfErr result
        (λ stop. OfSpelled image.now (λ file. TraceLeft windows limit file (I.remaining input.old)
        (O.contents out.old) (O.contents out.new) stop)) }
{
    let bytes = input_of(alloc, input)?;
    match trace_windows(alloc, windows, image, bytes.as_slice(), limit, out) {
        Ok(_outcome) => Ok(()),
        Err(fault) => Err(CommandStop::from(fault)),
    }
}

/// Writes the trace of the image of a file on the input, on so many windows, up to so many turns. The input is read
/// whole before the run.
pub fn trace_file<F: Read, I: Read, O: Write>(
    alloc: Global,
    windows: Windows,
    limit: u64,
    file: &mut F,
    input: &mut I,
    out: &mut O,
) -> Result<(), CommandStop>
    ensures image { OnOk result (IfSome (F.remaining file.old) IsImage) }
    ensures traced { OnOk result (Traced windows limit (F.remaining file.old) (I.remaining input.old)
        (O.contents out.old) (O.contents out.new)) }
    ensures stop { IfErr result (λ stop. IfSome (F.remaining file.old) (IsTrueOfImage stop)) }
    ensures untouched { IfErr result (λ stop. IsOfFile stop
        → (input.new ≡ input.old) × (out.new ≡ out.old)) }
    ensures left { IfErr result (TraceLeft windows limit (F.remaining file.old) (I.remaining input.old)
        (O.contents out.old) (O.contents out.new)) }
{
    let image = image_in(alloc, file)?;
    trace_image(alloc, windows, limit, &image, input, out)
}
