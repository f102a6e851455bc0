//! Runs of an image on the flat machine, beside a line's run.
ghost use Rattle.std.specs.Prelude.{◌≡◌, ◌<◌, ◌≤◌, ◌^◌, ◌↔◌, IfOk, IfSome, IsTrue, length};
ghost use Rattle.sbx_verdicts.specs.Runs.{ExitsSo, FlatRunsSo, comes_to};

use crate::runs::{Counts, Run};
use flat_plain::{Ending, Plain, Ran, traffic};
use sbx_flat::Place;
use sbx_image::Image;
use std::alloc::{AllocError, Global};

/// The most steps that a run of so many turns has: each takes a turn or more. One more shows the exit.
fn most_steps(turns: u64) -> u32 {
    match u32::try_from(turns) {
        Ok(turns) => turns.saturating_add(1),
        Err(_) => u32::MAX,
    }
}

/// The path of the run on a line's input from a start whose open words, and those of its frames, are `fill`, where it
/// exits as the line has it.
fn path_of(
    alloc: Global,
    image: &Image,
    run: &Run,
    fill: u32,
) -> Result<Option<Vec<Place>>, AllocError>
    ensures exits { IfOk result (λ found. IfSome found (λ path. ExitsSo image.now run.now path.items)) }
    ensures bound { IfOk result (λ found. IfSome found (λ path. length path.items < 2 ^ 32)) }
{
    let mut machine = Plain::new(alloc, image, run.input.as_slice(), fill)?;
    let Ran { path, ending } = machine.run(alloc, image, fill, most_steps(run.counts.turns))?;
    let same = machine.output() == run.output.as_slice();
    match ending {
        Ending::Exit(status) if same && status == run.status => Ok(Some(path)),
        _ => Ok(None),
    }
}

/// Whether two steps are at one place.
fn is_same(one: &Place, other: &Place) -> bool
    ensures { IsTrue result ↔ (one.now ≡ other.now) }
{
    one.pc == other.pc && one.annulled == other.annulled && one.address == other.address
}

/// Whether two paths are one.
fn are_same(first: &[Place], second: &[Place]) -> bool
    ensures { IsTrue result → first.now ≡ second.now }
{
    let mut ours = first;
    let mut theirs = second;
    while let Some((place, rest)) = ours.split_first() {
        match theirs.split_first() {
            Some((beside, left)) if is_same(place, beside) => {
                ours = rest;
                theirs = left;
            }
            _ => return false,
        }
    }
    theirs.is_empty()
}

/// What a path comes to on so many windows.
fn counts_of(image: &Image, windows: u32, path: &[Place]) -> Counts
    requires { (2 ≤ windows) × (length path.now < 2 ^ 32) }
    ensures { result ≡ comes_to image.now windows path.now }
{
    let traffic = traffic(image, windows, path);
    Counts {
        turns: traffic.turns,
        overflows: traffic.overflows,
        underflows: traffic.underflows,
    }
}

/// Whether the image's runs on the flat machine, with words of zeros and with words of ones wherever a start or a new
/// frame leaves them open, go one way, exit as the line has it, and come to its counts on as many windows.
pub fn runs_flat(alloc: Global, image: &Image, run: &Run) -> Result<bool, AllocError>
    ensures { IfOk result (λ same. IsTrue same → FlatRunsSo image.now run.now) }
{
    if run.windows < 2 {
        return Ok(false);
    }
    let zeros = path_of(alloc, image, run, 0)?;
    let ones = path_of(alloc, image, run, u32::MAX)?;
    match (&zeros, &ones) {
        (Some(zeros), Some(ones)) => {
            Ok(are_same(zeros, ones) && counts_of(image, run.windows, zeros) == run.counts)
        }
        _ => Ok(false),
    }
}
