//! Runs of accepted images to their end, of a whole input.
ghost use Rattle.std.specs.Prelude.{◌≢◌, ◌<◌, ◌≤◌, ◌^◌, IfOk, length};
ghost use Rattle.std.specs.Arc.{arc_value};
ghost use Rattle.sbx_flat.specs.Runs.{AreBytes};
ghost use Rattle.engine_core.specs.Shows.{IsCodeOf};
ghost use Rattle.engine_runs.specs.Answer.{IsAnswer, Serves};
ghost use Rattle.engine_runs.specs.Halts.{HaltsSo};

use crate::flat_run::{FlatRun, FlatStop, MOST};
use crate::opened::{Opened, code_of};
use engine_store::DecodedCode;
use sbx_verify::Accepted;
use std::alloc::{AllocError, Global};
use std::sync::Arc;

/// What a run gave: the exit word, the bytes written, the turns that it would make on a machine with the windows that
/// were asked for, and how often that would have no window to save to or to restore from.
#[derive(Drop)]
pub struct FlatFinished {
    pub status: u32,
    pub output: Vec<u8>,
    pub turns: u64,
    pub overflows: u64,
    pub underflows: u64,
}

/// Tells that the elements are bytes, which is known of each one that is read.
fn tells_bytes(bytes: &[u8])
    ensures { AreBytes bytes.now }
{
    let _ = bytes;
}

/// Does what a run halted for, with its whole input, of which so many bytes are read, and its output so far; or gives
/// the exit word.
#[tactic(auto, using(crate::proofs::Stepping::byte_asks, crate::proofs::Stepping::room_asks, crate::proofs::Stepping::ended_exits, crate::proofs::Stepping::not_short))]
fn serve(
    course: &mut FlatRun,
    halt: FlatStop,
    input: &[u8],
    read: &mut usize,
    output: &mut Vec<u8>,
) -> Result<Option<u32>, AllocError>
    requires halts { HaltsSo (2 ^ 62) course.old halt }
    requires few { course.old.tally.traffic.turns < 2 ^ 40 }
    requires found { halt ≢ FlatStop.Lost }
    requires within { read.old ≤ length input.now }
    ensures { IfOk result (Serves input.now read.old output.old.items course.old read.new output.new.items course.new) }
{
    match halt {
        FlatStop::Byte(after) => {
            if *read < input.len() {
                course.take_byte(input[*read], after);
                *read += 1;
                return Ok(None);
            }
            course.take_end(after);
            Ok(None)
        }
        FlatStop::Room(after) => {
            output.push(course.give_byte(after))?;
            Ok(None)
        }
        FlatStop::Ended(status) => Ok(Some(status)),
        FlatStop::Refused(want) => Err(AllocError::from(want)),
        FlatStop::Short => unreachable!(),
        FlatStop::Lost => unreachable!(),
    }
}

/// The same as `run_flat`, by the image's code.
fn run_over(
    alloc: Global,
    accepted: &Accepted,
    code: Arc<DecodedCode>,
    windows: u32,
    input: &[u8],
) -> Result<FlatFinished, AllocError>
    requires many { 2 ≤ windows }
    requires decoded { IsCodeOf accepted.now (arc_value code) }
    ensures { IfOk result (λ finished. IsAnswer accepted.now windows input.now finished) }
{
    tells_bytes(input);
    let mut course = FlatRun::over(alloc, accepted, code, windows)?;
    let mut output = Vec::new(alloc);
    let mut read = 0;
    'rounds: for _round in 0..u64::MAX {
        let halt = course.advance_over(MOST, input, &mut read);
        match serve(&mut course, halt, input, &mut read, &mut output)? {
            None => {}
            Some(status) => {
                let counts = course.tally.traffic;
                return Ok(FlatFinished {
                    status,
                    output,
                    turns: counts.turns,
                    overflows: counts.overflows,
                    underflows: counts.underflows,
                });
            }
        }
    }
    unreachable!()
}

/// Runs an accepted image on an input to its end, on the flat machine. The output and the status are those of every run
/// on the flat machine, and so of `run_accepted`; turns, overflows and underflows are those of a board of so many
/// windows, 2 or more, which are counted and not made. The only fault is want of memory.
pub fn run_flat(
    alloc: Global,
    accepted: &Accepted,
    windows: u32,
    input: &[u8],
) -> Result<FlatFinished, AllocError>
    requires { 2 ≤ windows }
    ensures { IfOk result (λ finished. IsAnswer accepted.now windows input.now finished) }
{
    let code = code_of(alloc, accepted)?;
    run_over(alloc, accepted, code, windows, input)
}

/// The same of an image that is open, whose code is decoded.
pub fn run_opened(
    alloc: Global,
    opened: &Opened,
    windows: u32,
    input: &[u8],
) -> Result<FlatFinished, AllocError>
    requires { 2 ≤ windows }
    ensures { IfOk result (λ finished. IsAnswer opened.now windows input.now finished) }
{
    let code = opened.code()?;
    run_over(alloc, opened.accepted(), code, windows, input)
}
