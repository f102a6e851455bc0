//! The data of a page that shows a run of the image of a file.
ghost use Rattle.std.specs.Prelude.{OnOk};
ghost use Rattle.sbx_raw.specs.Fronts.{Wrote};
ghost use Rattle.inspect_page.specs.Alphabet.{IsPlainText};

use crate::commands::put_out;
use cmd_command::{CommandStop, Windows, image_in, input_of};
use inspect_page::page_windows;
use sbx_image::Image;
use std::alloc::Global;
use std::io::{Read, Write};

/// Runs an image on an input, on so many windows, up to so many turns, and tells the data of its page, with the lines
/// of its source, where there is one.
#[tactic(auto, using(crate::proofs::Telling::wrote_report))]
fn put_data<O: Write>(
    alloc: Global,
    windows: Windows,
    limit: u64,
    image: Image,
    source: Option<&[u8]>,
    input: &[u8],
    out: &mut O,
) -> Result<(), CommandStop>
    ensures { OnOk result (Wrote (O.contents out.old) (O.contents out.new) IsPlainText) }
{
    match page_windows(alloc, windows.count(), image, source, input, limit) {
        Ok(text) => put_out(out, text.as_slice()),
        Err(fault) => Err(CommandStop::from(fault)),
    }
}

/// Runs an image on the input, which is read whole first, and tells the data of its page as `put_data` does.
pub fn tell_data<I: Read, O: Write>(
    alloc: Global,
    windows: Windows,
    limit: u64,
    image: Image,
    source: Option<&[u8]>,
    input: &mut I,
    out: &mut O,
) -> Result<(), CommandStop>
    ensures { OnOk result (Wrote (O.contents out.old) (O.contents out.new) IsPlainText) }
{
    let bytes = input_of(alloc, input)?;
    put_data(alloc, windows, limit, image, source, bytes.as_slice(), out)
}

/// Runs the image of a file on the input, which is read whole first, on so many windows, up to so many turns, and tells
/// the data of its page.
pub fn data_image<F: Read, I: Read, O: Write>(
    alloc: Global,
    windows: Windows,
    limit: u64,
    file: &mut F,
    input: &mut I,
    out: &mut O,
) -> Result<(), CommandStop>
    ensures { OnOk result (Wrote (O.contents out.old) (O.contents out.new) IsPlainText) }
{
    let image = image_in(alloc, file)?;
    tell_data(alloc, windows, limit, image, None, input, out)
}
