//! Runs over a reader and a writer.
ghost use Rattle.std.specs.Prelude.{◌≢◌, ◌<◌, ◌≤◌, ◌^◌, List, ℕ, Option, IfErr, IfOk};
ghost use Rattle.sbx_flat.specs.Runs.{FlatSafe};
ghost use Rattle.engine_core.specs.declared.asking.Asked.TheVariants.{Byte, Room};
ghost use Rattle.sbx_port.specs.Streams.{Streamed};
ghost use Rattle.engine_runs.specs.Halts.{AsksWithin, HaltsSo};
ghost use Rattle.engine_stream.specs.Flows.{Exchanges, IsCutOff, IsFlowed};

use crate::bytes::{read_byte, write_byte};
use engine_runs::{FlatRun, FlatStop, Tally};
use sbx_flat::Traffic;
use sbx_run::RunFault;
use sbx_verify::Accepted;
use std::alloc::Global;
use std::io::{Read, Write};

/// More turns than any accepted image makes.
const MOST: u64 = 1 << 62;

/// What a run told at its end: the exit word, and its counts on the windows that were asked for.
#[derive(Clone, Copy)]
pub struct FlatEnded {
    pub status: u32,
    pub counts: Traffic,
}

/// Why a run goes no further.
#[derive(Clone, Copy)]
enum RunEnd {
    /// It has ended with this exit word.
    Ended(u32),
    /// Memory or a stream failed.
    Fault(RunFault),
}

/// Tells that an accepted image is safe.
fn tells_safe(accepted: &Accepted)
    ensures { FlatSafe accepted.now }
{
    let _ = accepted.image();
}

/// Tells that a byte is one.
fn tells_byte(byte: u8)
    ensures { byte < 2 ^ 8 }
{}

/// Makes the step of a get with the next byte of a reader, and tells whether the end is known then. An input that has
/// ended isn't asked again.
fn get<R: Read>(
    course: &mut FlatRun,
    after: Tally,
    met: bool,
    reader: &mut R,
) -> Result<bool, RunEnd>
    requires { AsksWithin Byte (2 ^ 62) course.old after }
    ensures { (out : Option (List ℕ)) →
        Exchanges met course.old (R.remaining reader.old) out course.new (R.remaining reader.new) out result }
{
    if met {
        course.take_end(after);
        return Ok(true);
    }
    match read_byte(reader) {
        Ok(Some(byte)) => {
            tells_byte(byte);
            course.take_byte(byte, after);
            Ok(false)
        }
        Ok(None) => {
            course.take_end(after);
            Ok(true)
        }
        Err(fault) => Err(RunEnd::Fault(fault)),
    }
}

/// Makes the step of a put, whose byte goes to a writer. Of the input's end is known what was.
fn put<W: Write>(
    course: &mut FlatRun,
    after: Tally,
    met: bool,
    writer: &mut W,
) -> Result<bool, RunEnd>
    requires { AsksWithin Room (2 ^ 62) course.old after }
    ensures { (input : Option (List ℕ)) →
        Exchanges met course.old input (W.contents writer.old) course.new input (W.contents writer.new) result }
{
    let byte = course.give_byte(after);
    match write_byte(writer, byte) {
        Ok(()) => Ok(met),
        Err(fault) => Err(RunEnd::Fault(fault)),
    }
}

/// Does what a run halted for, and tells whether the input's end is known then.
#[tactic(auto, using(crate::proofs::Flowing::ended_so, engine_runs::proofs::Stepping::not_short, engine_runs::proofs::Stepping::byte_asks, engine_runs::proofs::Stepping::byte_within, engine_runs::proofs::Stepping::room_asks, engine_runs::proofs::Stepping::room_within, engine_runs::proofs::Stepping::ended_exits))]
fn exchange<R: Read, W: Write>(
    course: &mut FlatRun,
    halt: FlatStop,
    met: bool,
    reader: &mut R,
    writer: &mut W,
) -> Result<bool, RunEnd>
    requires halts { HaltsSo (2 ^ 62) course.old halt }
    requires few { course.old.tally.traffic.turns < 2 ^ 40 }
    requires found { halt ≢ FlatStop.Lost }
    ensures { Exchanges met course.old (R.remaining reader.old) (W.contents writer.old) course.new
        (R.remaining reader.new) (W.contents writer.new) result }
{
    match halt {
        FlatStop::Byte(after) => get(course, after, met, reader),
        FlatStop::Room(after) => put(course, after, met, writer),
        FlatStop::Ended(word) => Err(RunEnd::Ended(word)),
        FlatStop::Refused(want) => Err(RunEnd::Fault(RunFault::Memory(want))),
        FlatStop::Short => unreachable!(),
        FlatStop::Lost => unreachable!(),
    }
}

/// Runs an accepted image to its end on the fast flat machine, over a reader and a writer, and counts on so many
/// windows, 2 or more. Where the program asks for a byte, one byte is read, and a byte that it puts out is written at
/// once. An input that has ended isn't asked again; a read that fails, whatever its error, is `Reader`, and a write
/// that fails or takes no byte is `Writer`: neither is tried again. Nothing is flushed, and no memory grows with the
/// input or the output.
///
/// On Ok what was written is all of the image's output, and status and counts are its own, on every input that begins
/// with the bytes read, or on these alone where their end was met. On a fault what was written are the first bytes of
/// that output. `Reader` comes where the input's end wasn't met, and `Writer` where the output goes on.
pub fn run_over<R: Read, W: Write>(
    alloc: Global,
    accepted: &Accepted,
    windows: u32,
    reader: &mut R,
    writer: &mut W,
) -> Result<FlatEnded, RunFault>
    requires { 2 ≤ windows }
    ensures whole { IfOk result
        (λ flowed. Streamed (R.remaining reader.old) (R.remaining reader.new) (W.contents writer.old)
        (W.contents writer.new)
        (IsFlowed accepted.now windows flowed)) }
    ensures part { IfErr result
        (λ fault. Streamed (R.remaining reader.old) (R.remaining reader.new) (W.contents writer.old)
        (W.contents writer.new)
        (IsCutOff accepted.now fault)) }
{
    tells_safe(accepted);
    let mut course = match FlatRun::new(alloc, accepted, windows) {
        Ok(course) => course,
        Err(error) => return Err(RunFault::from(error)),
    };
    let mut met = false;
    'rounds: for _round in 0..u64::MAX {
        let halt = course.advance(MOST);
        match exchange(&mut course, halt, met, reader, writer) {
            Ok(now_met) => met = now_met,
            Err(RunEnd::Ended(status)) => {
                return Ok(FlatEnded {
                    status,
                    counts: course.tally().traffic,
                });
            }
            Err(RunEnd::Fault(fault)) => return Err(fault),
        }
    }
    unreachable!()
}
