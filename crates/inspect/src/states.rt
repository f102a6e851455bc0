//! The states of a run of the image of a file.
ghost use Rattle.std.specs.Prelude.{IfErr, IfSome, OnOk};
ghost use Rattle.cmd_command.specs.Stops.{IsOfTrace, IsTrueOfImage};
ghost use Rattle.sbx_raw.specs.Fronts.{Wrote};
ghost use Rattle.inspect_states.specs.Told.{IsStated};
ghost use Rattle.inspect.specs.States.{StatesOf};

use cmd_command::{CommandStop, Windows, image_in, input_of};
use inspect_states::state_windows;
use sbx_image::Image;
use std::alloc::Global;
use std::io::{Read, Write};

/// Runs an image on an input, on so many windows, up to so many turns, and tells its states.
fn states_on<O: Write>(
    alloc: Global,
    windows: Windows,
    limit: u64,
    image: &Image,
    input: &[u8],
    out: &mut O,
) -> Result<(), CommandStop>
    ensures told { OnOk result
        (Wrote (O.contents out.old) (O.contents out.new) (IsStated windows image.now input.now limit)) }
    ensures stop { IfErr result IsOfTrace }
{
    match state_windows(alloc, windows.count(), image, input, limit, out) {
        Ok(()) => Ok(()),
        Err(fault) => Err(CommandStop::from(fault)),
    }
}

/// Runs an image on the input, which is read whole first, on so many windows, up to so many turns, and tells its
/// states.
fn states_read<I: Read, O: Write>(
    alloc: Global,
    windows: Windows,
    limit: u64,
    image: &Image,
    input: &mut I,
    out: &mut O,
) -> Result<(), CommandStop>
    ensures told { OnOk result
        (IfSome (I.remaining input.old)
        (λ all. Wrote (O.contents out.old) (O.contents out.new) (IsStated windows image.now all limit))) }
    ensures stop { IfErr result IsOfTrace }
{
    let bytes = input_of(alloc, input)?;
    states_on(alloc, windows, limit, image, bytes.as_slice(), out)
}

/// Runs the image of a file on the input, which is read whole first, on so many windows, up to so many turns, and tells
/// its states.
pub fn state_image<F: Read, I: Read, O: Write>(
    alloc: Global,
    windows: Windows,
    limit: u64,
    file: &mut F,
    input: &mut I,
    out: &mut O,
) -> Result<(), CommandStop>
    ensures told { OnOk result
        (StatesOf windows limit (F.remaining file.old) (I.remaining input.old) (O.contents out.old)
        (O.contents out.new)) }
    ensures stop { IfErr result (λ stop. IfSome (F.remaining file.old) (IsTrueOfImage stop)) }
{
    let image = image_in(alloc, file)?;
    states_read(alloc, windows, limit, &image, input, out)
}
