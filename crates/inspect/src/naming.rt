//! What is told of an image by the names and the lines of its source.
use crate::commands::put_out;
use crate::data::tell_data;
use crate::sources::digest_of;
use crate::words::InspectJob;
use cmd_command::{CommandStop, Windows, image_in, input_of};
use inspect_image::push_image;
use inspect_names::{MapText, NamedWriter, Names, SourceTold, names_in, push_renamed, read_map};
use inspect_refusal::push_why;
use inspect_run::{Progress, watch_windows};
use sbx_asm::assemble;
use sbx_image::Image;
use std::alloc::{AllocError, Global};
use std::io::{Read, Write};
use want::Want;

/// Whether an image is told by its source, or the source is another image's.
#[derive(Clone, Copy, PartialEq, Eq)]
pub enum Known {
    Own,
    Foreign,
    /// It is a map with a line that no map has there.
    Broken(usize),
}

/// Want of memory, as a stop.
fn stopped<T: Drop>(done: Result<T, AllocError>) -> Result<T, CommandStop> {
    match done {
        Ok(value) => Ok(value),
        Err(error) => Err(CommandStop::Memory(Want::from(error))),
    }
}

/// Writes a text by names.
fn put_renamed<O: Write>(
    alloc: Global,
    names: &Names<'_>,
    out: &mut O,
    text: &str,
) -> Result<(), CommandStop> {
    let mut renamed = String::new(alloc);
    stopped(push_renamed(&mut renamed, names, text.as_bytes(), SourceTold::Addresses))?;
    put_out(out, renamed.as_bytes())
}

/// Tells what an image declares.
fn show<O: Write>(
    alloc: Global,
    names: &Names<'_>,
    image: &Image,
    out: &mut O,
) -> Result<(), CommandStop> {
    let mut text = String::new(alloc);
    stopped(push_image(&mut text, image))?;
    put_renamed(alloc, names, out, text.as_str())
}

/// Runs an image on the input, which is read whole first, and tells each turn.
fn trace<I: Read, O: Write, P: Progress>(
    alloc: Global,
    names: &Names<'_>,
    windows: Windows,
    limit: u64,
    image: &Image,
    input: &mut I,
    out: &mut O,
    progress: &mut P,
) -> Result<(), CommandStop> {
    let bytes = input_of(alloc, input)?;
    let mut named = NamedWriter::new(alloc, names, out);
    let (count, bytes) = (windows.count(), bytes.as_slice());
    match watch_windows(alloc, count, image, bytes, limit, &mut named, progress) {
        Ok(()) => Ok(()),
        Err(fault) => Err(match named.want() {
            Some(want) => CommandStop::Memory(want),
            None => CommandStop::from(fault),
        }),
    }
}

/// Tells why an image is refused.
fn explain<O: Write>(
    alloc: Global,
    names: &Names<'_>,
    image: Image,
    out: &mut O,
) -> Result<(), CommandStop> {
    let mut text = String::new(alloc);
    stopped(push_why(alloc, &mut text, image))?;
    put_renamed(alloc, names, out, text.as_str())
}

/// Does a job on an image with names.
fn tell_named<I: Read, O: Write, P: Progress>(
    alloc: Global,
    names: &Names<'_>,
    job: &InspectJob<'_>,
    image: Image,
    input: &mut I,
    out: &mut O,
    progress: &mut P,
) -> Result<(), CommandStop> {
    match *job {
        InspectJob::Trace { windows, limit, .. } => {
            trace(alloc, names, windows, limit, &image, input, out, progress)
        }
        InspectJob::Why { .. } => explain(alloc, names, image, out),
        // (the other jobs aren't told by names, and don't come here)
        InspectJob::Image { .. }
        | InspectJob::Run { .. }
        | InspectJob::States { .. }
        | InspectJob::Data { .. }
        | InspectJob::Machine { .. } => { show(alloc, names, &image, out) }
    }
}

/// Whether two images are the same.
fn is_same(alloc: Global, image: &Image, other: &Image) -> Result<bool, CommandStop> {
    let digest = digest_of(alloc, image)?;
    let others = digest_of(alloc, other)?;
    Ok(digest.as_bytes() == others.as_bytes())
}

/// Whether an image is the one that a source means.
fn is_source(alloc: Global, text: &[u8], image: &Image) -> Result<bool, CommandStop> {
    let meant = assemble(alloc, text)?;
    is_same(alloc, &meant, image)
}

/// The names of a text that is no map, which is the image's source or not.
fn names_of_source<'s>(
    alloc: Global,
    text: &'s [u8],
    image: &Image,
) -> Result<Result<Names<'s>, Known>, CommandStop> {
    if !is_source(alloc, text, image)? {
        return Ok(Err(Known::Foreign));
    }
    Ok(Ok(stopped(names_in(alloc, text))?))
}

/// The names of a source or of its map, if the image is that one's.
fn names_for<'s>(
    alloc: Global,
    text: &'s [u8],
    image: &Image,
) -> Result<Result<Names<'s>, Known>, CommandStop> {
    match stopped(read_map(alloc, text))? {
        MapText::Other => names_of_source(alloc, text, image),
        MapText::Broken(line) => Ok(Err(Known::Broken(line))),
        MapText::Read(map) => {
            if digest_of(alloc, image)?.as_bytes() == map.digest {
                Ok(Ok(map.names))
            } else {
                Ok(Err(Known::Foreign))
            }
        }
    }
}

/// Tells the data of the page of an image's run with the lines of its source.
fn data_by_source<I: Read, O: Write>(
    alloc: Global,
    text: &[u8],
    windows: Windows,
    limit: u64,
    image: Image,
    input: &mut I,
    out: &mut O,
) -> Result<Known, CommandStop> {
    if !is_source(alloc, text, &image)? {
        return Ok(Known::Foreign);
    }
    tell_data(alloc, windows, limit, image, Some(text), input, out)?;
    Ok(Known::Own)
}

/// Does a job on an image with the names of a source or of its map, if the image is that one's.
fn tell_by_names<I: Read, O: Write, P: Progress>(
    alloc: Global,
    text: &[u8],
    job: &InspectJob<'_>,
    image: Image,
    input: &mut I,
    out: &mut O,
    progress: &mut P,
) -> Result<Known, CommandStop> {
    match names_for(alloc, text, &image)? {
        Ok(names) => {
            tell_named(alloc, &names, job, image, input, out, progress)?;
            Ok(Known::Own)
        }
        Err(known) => Ok(known),
    }
}

/// Does a job on the image of a file with the names and the lines of a source, or with the names of a map that was made
/// of it, if it is that image's.
pub fn tell_by_source<F: Read, I: Read, O: Write, P: Progress>(
    alloc: Global,
    text: &[u8],
    job: &InspectJob<'_>,
    file: &mut F,
    input: &mut I,
    out: &mut O,
    progress: &mut P,
) -> Result<Known, CommandStop> {
    let image = image_in(alloc, file)?;
    match *job {
        InspectJob::Data { windows, limit, .. } => {
            data_by_source(alloc, text, windows, limit, image, input, out)
        }
        InspectJob::Image { .. }
        | InspectJob::Run { .. }
        | InspectJob::Trace { .. }
        | InspectJob::States { .. }
        | InspectJob::Machine { .. }
        | InspectJob::Why { .. } => tell_by_names(alloc, text, job, image, input, out, progress),
    }
}
