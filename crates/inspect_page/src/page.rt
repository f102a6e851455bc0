//! The data of a page.
ghost use Rattle.std.specs.Prelude.{◌≤◌, IfOk};
ghost use Rattle.inspect_page.specs.Alphabet.{IsPlainText};

use crate::alphabet::make_plain;
use crate::declared::push_declared;
use crate::run::{RunLines, run_lines};
use crate::source::push_source;
use crate::verdict::push_verdict;
use sbx_image::Image;
use sbx_raw::RunFault;
use std::alloc::{AllocError, Global};

/// The lines of an image's source, of the image and of its run, those of the turns behind a line `t`.
fn joined(
    alloc: Global,
    image: Image,
    source: Option<&[u8]>,
    run: &RunLines,
) -> Result<String, AllocError> {
    let mut text = String::new(alloc);
    push_declared(&mut text, &image)?;
    text.push_str(run.head.as_str())?;
    if let Some(source) = source {
        push_source(alloc, &mut text, source)?;
    }
    push_verdict(alloc, &mut text, image)?;
    text.push_str("t\n")?;
    text.push_str(run.turns.as_str())?;
    Ok(text)
}

/// The data of a page that shows a run of an image on an input, on so many windows, 4 to 32, to an end, but at most so
/// many turns: a line for each thing that the image declares and holds, for the verdict on it and what explains it, for
/// each table word and register that isn't 0 when the run begins, for the words of the machine's own code that ran, for
/// each trap and fault status, and for each line of its source, which has to mean the image, and each name in it; then
/// a line `t`, and one for each turn, with an item for each thing that happened or changed. All bytes are of an
/// alphabet that has no markup; what may have others stands in hexadecimal. Memory grows with the turns.
pub fn page_windows(
    alloc: Global,
    windows: u32,
    image: Image,
    source: Option<&[u8]>,
    input: &[u8],
    limit: u64,
) -> Result<Vec<u8>, RunFault>
    requires { (4 ≤ windows) × (windows ≤ 32) }
    ensures { IfOk result (λ text. IsPlainText text.items) }
{
    let run = run_lines(alloc, windows, &image, input, limit)?;
    let mut text = joined(alloc, image, source, &run)?.into_bytes();
    make_plain(text.as_mut_slice());
    Ok(text)
}
