//! What is told of the image of a file.
ghost use Rattle.std.specs.Prelude.{◌≡◌, ◌⊎◌, IfErr, IfOk, IfSome, OnOk};
ghost use Rattle.std.specs.Io.KnownBytes.{Appends};
ghost use Rattle.cmd_command.specs.Stops.{IsOfTrace, IsTrueOfImage};
ghost use Rattle.sbx_raw.specs.Fronts.{Wrote};
ghost use Rattle.inspect_run.specs.Watched.{IsWatched};
ghost use Rattle.inspect.specs.Told.{Explained, IsImageReport, IsRunReport, Ran, Shown, TellsRun, Traced};
ghost use Rattle.want.specs.Wants.{refused};

use crate::reports::{image_report, run_report, why_report};
use crate::words::Form;
use cmd_command::{CommandStop, Windows, image_in, input_of};
use inspect_run::{Progress, Run, run_windows, watch_windows};
use sbx_image::Image;
use sbx_put::put_through;
use sbx_rules::Refusal;
use std::alloc::Global;
use std::io::{Read, Write};
use want::Want;

/// Writes a text, through to the end.
pub fn put_out<O: Write>(out: &mut O, text: &[u8]) -> Result<(), CommandStop>
    ensures bytes { OnOk result (Appends (O.contents out.old) (O.contents out.new) text.now) }
    ensures stop { IfErr result (λ stop. stop ≡ CommandStop.Output) }
{
    match put_through(out, text) {
        Ok(()) => Ok(()),
        Err(_) => Err(CommandStop::Output),
    }
}

/// Tells what an image declares.
#[tactic(auto, using(crate::proofs::Telling::wrote_report))]
fn show<O: Write>(alloc: Global, form: Form, image: &Image, out: &mut O) -> Result<(), CommandStop>
    ensures shown { OnOk result (Wrote (O.contents out.old) (O.contents out.new) (IsImageReport form image.now)) }
    ensures stop { IfErr result (λ stop. (stop ≡ CommandStop.Memory refused) ⊎ (stop ≡ CommandStop.Output)) }
{
    match image_report(alloc, form, image) {
        Ok(text) => put_out(out, text.as_slice()),
        Err(error) => Err(CommandStop::Memory(Want::from(error))),
    }
}

/// Tells what the image of a file declares.
pub fn show_image<F: Read, O: Write>(
    alloc: Global,
    form: Form,
    file: &mut F,
    out: &mut O,
) -> Result<(), CommandStop>
    ensures shown { OnOk result (Shown form (F.remaining file.old) (O.contents out.old) (O.contents out.new)) }
    ensures stop { IfErr result (λ stop. IfSome (F.remaining file.old) (IsTrueOfImage stop)) }
{
    let image = image_in(alloc, file)?;
    show(alloc, form, &image, out)
}

/// Tells a run.
#[tactic(auto, using(crate::proofs::Telling::wrote_report))]
fn tell_run<O: Write>(
    alloc: Global,
    form: Form,
    windows: u32,
    limit: u64,
    run: &Run,
    out: &mut O,
) -> Result<(), CommandStop>
    ensures told { OnOk result
        (Wrote (O.contents out.old) (O.contents out.new) (IsRunReport form windows limit run.now)) }
    ensures stop { IfErr result (λ stop. (stop ≡ CommandStop.Memory refused) ⊎ (stop ≡ CommandStop.Output)) }
{
    match run_report(alloc, form, windows, limit, run) {
        Ok(text) => put_out(out, text.as_slice()),
        Err(error) => Err(CommandStop::Memory(Want::from(error))),
    }
}

/// Runs an image on an input, on so many windows, up to so many turns, and tells its run.
fn run_on<O: Write, P: Progress>(
    alloc: Global,
    form: Form,
    windows: Windows,
    limit: u64,
    image: &Image,
    input: &[u8],
    out: &mut O,
    progress: &mut P,
) -> Result<(), CommandStop>
    ensures told { OnOk result
        (TellsRun form windows limit image.now input.now (O.contents out.old) (O.contents out.new)) }
    ensures stop { IfErr result (λ stop. (stop ≡ CommandStop.Memory refused) ⊎ (stop ≡ CommandStop.Output)) }
{
    let count = windows.count();
    let run = run_windows(alloc, count, image, input, limit, progress)?;
    tell_run(alloc, form, count, limit, &run, out)
}

/// Runs an image on the input, which is read whole first, on so many windows, up to so many turns, and tells its run.
fn run_read<I: Read, O: Write, P: Progress>(
    alloc: Global,
    form: Form,
    windows: Windows,
    limit: u64,
    image: &Image,
    input: &mut I,
    out: &mut O,
    progress: &mut P,
) -> Result<(), CommandStop>
    ensures told { OnOk result
        (IfSome (I.remaining input.old)
        (λ all. TellsRun form windows limit image.now all (O.contents out.old) (O.contents out.new))) }
    ensures stop { IfErr result (λ stop. (stop ≡ CommandStop.Memory refused) ⊎ (stop ≡ CommandStop.Input)
        ⊎ (stop ≡ CommandStop.Output)) }
{
    let bytes = input_of(alloc, input)?;
    run_on(
        alloc,
        form,
        windows,
        limit,
        image,
        bytes.as_slice(),
        out,
        progress,
    )
}

/// Runs the image of a file on the input, which is read whole first, on so many windows, up to so many turns, and tells
/// its run.
pub fn run_image<F: Read, I: Read, O: Write, P: Progress>(
    alloc: Global,
    form: Form,
    windows: Windows,
    limit: u64,
    file: &mut F,
    input: &mut I,
    out: &mut O,
    progress: &mut P,
) -> Result<(), CommandStop>
    ensures ran { OnOk result
        (Ran form windows limit (F.remaining file.old) (I.remaining input.old) (O.contents out.old)
        (O.contents out.new)) }
    ensures stop { IfErr result (λ stop. IfSome (F.remaining file.old) (IsTrueOfImage stop)) }
{
    let image = image_in(alloc, file)?;
    run_read(alloc, form, windows, limit, &image, input, out, progress)
}

/// Runs an image on an input, on so many windows, up to so many turns, and tells each turn.
fn trace_on<O: Write, P: Progress>(
    alloc: Global,
    windows: Windows,
    limit: u64,
    image: &Image,
    input: &[u8],
    out: &mut O,
    progress: &mut P,
) -> Result<(), CommandStop>
    ensures told { OnOk result
        (Wrote (O.contents out.old) (O.contents out.new) (IsWatched windows image.now input.now limit)) }
    ensures stop { IfErr result IsOfTrace }
{
    match watch_windows(alloc, windows.count(), image, input, limit, out, progress) {
        Ok(()) => Ok(()),
        Err(fault) => Err(CommandStop::from(fault)),
    }
}

/// Runs an image on the input, which is read whole first, on so many windows, up to so many turns, and tells each turn.
fn trace_read<I: Read, O: Write, P: Progress>(
    alloc: Global,
    windows: Windows,
    limit: u64,
    image: &Image,
    input: &mut I,
    out: &mut O,
    progress: &mut P,
) -> Result<(), CommandStop>
    ensures told { OnOk result
        (IfSome (I.remaining input.old)
        (λ all. Wrote (O.contents out.old) (O.contents out.new) (IsWatched windows image.now all limit))) }
    ensures stop { IfErr result IsOfTrace }
{
    let bytes = input_of(alloc, input)?;
    trace_on(
        alloc,
        windows,
        limit,
        image,
        bytes.as_slice(),
        out,
        progress,
    )
}

/// Runs the image of a file on the input, which is read whole first, on so many windows, up to so many turns, and tells
/// each turn.
pub fn trace_image<F: Read, I: Read, O: Write, P: Progress>(
    alloc: Global,
    windows: Windows,
    limit: u64,
    file: &mut F,
    input: &mut I,
    out: &mut O,
    progress: &mut P,
) -> Result<(), CommandStop>
    ensures traced { OnOk result
        (Traced windows limit (F.remaining file.old) (I.remaining input.old) (O.contents out.old)
        (O.contents out.new)) }
    ensures stop { IfErr result (λ stop. IfSome (F.remaining file.old) (IsTrueOfImage stop)) }
{
    let image = image_in(alloc, file)?;
    trace_read(alloc, windows, limit, &image, input, out, progress)
}

/// Tells why the image of a file is refused, and gives the refusal; none of an image that breaks no rule, of which it
/// says so.
#[tactic(auto, using(crate::proofs::Telling::explained_on))]
pub fn explain_image<F: Read, O: Write>(
    alloc: Global,
    form: Form,
    file: &mut F,
    out: &mut O,
) -> Result<Option<Refusal>, CommandStop>
    ensures explained { IfOk result
        (λ found. Explained form (F.remaining file.old) found (O.contents out.old) (O.contents out.new)) }
    ensures stop { IfErr result (λ stop. IfSome (F.remaining file.old) (IsTrueOfImage stop)) }
{
    let image = image_in(alloc, file)?;
    let (found, text) = match why_report(alloc, form, image) {
        Ok(told) => told,
        Err(error) => return Err(CommandStop::Memory(Want::from(error))),
    };
    put_out(out, text.as_slice())?;
    Ok(found)
}
