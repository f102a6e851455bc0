//! A command from its job to its exit status.
ghost use Rattle.std.specs.Prelude.{◌≡◌, ◌<◌, ◌≤◌, IfErr, IfOk, IfSome, true};
ghost use Rattle.cmd_stops.specs.Stops.{Told};
ghost use Rattle.cmd_command.specs.Verdicts.{Deserves, Gave, HasGiven, HasStopped, IsBefore, IsTold, LeftBy, StopsFor};

use crate::running::run_file;
use crate::tracing::trace_file;
use cmd_filing::{assemble_file, list_file, verify_file};
use cmd_jobs::Job;
use cmd_stops::{CommandStop, Ended};
use std::alloc::Global;
use std::io::{Read, Write};

/// Does a job. The status is 0, or 1 where a run's exit word isn't 0.
fn perform<F: Read, I: Read, O: Write>(
    alloc: Global,
    job: &Job<'_>,
    file: &mut F,
    input: &mut I,
    out: &mut O,
) -> Result<u8, CommandStop>
    ensures range { IfOk result (λ status. status < 2) }
    ensures done { IfOk result (λ status. IfSome (F.remaining file.old) (Deserves job.now)) }
    ensures ran { IfOk result (Gave job.now (F.remaining file.old) (I.remaining input.old) (I.remaining input.new)
        (O.contents out.old) (O.contents out.new)) }
    ensures stop { IfErr result (λ stop. IfSome (F.remaining file.old) (IsTold job.now stop)) }
    ensures untouched { IfErr result (λ stop. IsBefore job.now stop
        → (input.new ≡ input.old) × (out.new ≡ out.old)) }
    ensures left { IfErr result (LeftBy job.now (F.remaining file.old) (I.remaining input.old) (I.remaining input.new)
        (O.contents out.old) (O.contents out.new)) }
{
    match *job {
        Job::Asm { .. } => {
            assemble_file(alloc, file, out)?;
            Ok(0)
        }
        Job::Verify { .. } => {
            verify_file(alloc, file, out)?;
            Ok(0)
        }
        Job::Run { windows, .. } => run_file(alloc, windows, file, input, out),
        Job::List { .. } => {
            list_file(alloc, file, out)?;
            Ok(0)
        }
        Job::Trace { windows, limit, .. } => {
            trace_file(alloc, windows, limit, file, input, out)?;
            Ok(0)
        }
    }
}

/// Does a job and gives its exit status, and whether a stop was told on standard error; what the system opened for it
/// is passed in: the file that the job reads, standard input, where its result goes, and standard error. The result of
/// an assembly goes to a writer in memory, so that the object file is opened only where the status is 0.
pub fn command<F: Read, I: Read, O: Write, E: Write>(
    alloc: Global,
    job: &Job<'_>,
    file: &mut F,
    input: &mut I,
    out: &mut O,
    err: &mut E,
) -> Ended
    ensures range { result.status < 6 }

    // A job is done only with bytes that deserve it.
    ensures done { result.status < 2 → IfSome (F.remaining file.old) (Deserves job.now) }

    // A run puts out what its image does on the bytes that it has read of the input, whatever comes after them, and has
    // the status of its exit word: a law says what that is on an input that is known whole. A trace puts out the lines
    // of the image's turns on the input.
    ensures ran { result.status < 2 →
        Gave job.now (F.remaining file.old) (I.remaining input.old) (I.remaining input.new)
        (O.contents out.old) (O.contents out.new) result.status }

    // Any other status is that of a stop that tells what is so, and whose line is on standard error: all of it, or the
    // first bytes where standard error failed. Bytes that are refused don't deserve the job, and a refusal takes no
    // input and puts nothing out. A job that stops otherwise has put out the first bytes of what it puts out when it is
    // done, a run those of what its image puts out on every input that begins with the bytes read.
    ensures stopped { 2 ≤ result.status →
        StopsFor job.now (F.remaining file.old) ((input.new ≡ input.old) × (out.new ≡ out.old))
        (λ stop. LeftBy job.now (F.remaining file.old) (I.remaining input.old) (I.remaining input.new)
        (O.contents out.old) (O.contents out.new) stop
        × Told stop result.told (E.contents err.old) (E.contents err.new))
        result.status }

    // A job that is done says nothing on standard error.
    ensures quiet { result.status < 2 → (err.new ≡ err.old) × (result.told ≡ true) }
{
    match perform(alloc, job, file, input, out) {
        Ok(status) => Ended { status, told: true },
        Err(stop) => stop.report(err),
    }
}

/// Does a job as [`command`] does, and gives its exit status alone. It says of the status what `command` says, and
/// nothing of standard error; in closed words, so that a caller that has nothing to prove by them doesn't bear what
/// they stand on.
pub fn exit_status<F: Read, I: Read, O: Write, E: Write>(
    alloc: Global,
    job: &Job<'_>,
    file: &mut F,
    input: &mut I,
    out: &mut O,
    err: &mut E,
) -> u8
    ensures range { result < 6 }
    ensures done { result < 2 → IfSome (F.remaining file.old) (Deserves job.now) }
    ensures ran { result < 2 → HasGiven job.now (F.remaining file.old) (I.remaining input.old) (I.remaining input.new)
        (O.contents out.old) (O.contents out.new) result }
    ensures stopped { 2 ≤ result →
        HasStopped job.now (F.remaining file.old) (I.remaining input.old) (I.remaining input.new)
        (O.contents out.old) (O.contents out.new) ((input.new ≡ input.old) × (out.new ≡ out.old)) result }
{
    command(alloc, job, file, input, out, err).status
}
