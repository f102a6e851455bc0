//! Runs of admitted images.
ghost use Rattle.std.specs.Prelude.{◌≡◌, ◌≤◌};
ghost use Rattle.cmd_command.specs.Streaming.{RunGives};
ghost use Rattle.host.specs.Runs.{EngineGives, RunsSo, told_of, told_of_flow};

use crate::bounding::Bounded;
use crate::words::Terms;
use cmd_command::Full;
use cmd_files::{Counted, Hearer, Speaker};
use cmd_jobs::Windows;
use engine_stream::{FlatEnded, run_over};
use sbx_counts::on_windows;
use sbx_stream::{Accepted, Finished, RunFault, run_stream};
use std::alloc::Global;
use std::cell::RefCell;
use std::fs::File;
use std::io::{self, BufReader, Cursor, LineWriter, Read, Stdin, Write};
use want::Want;

/// What a run told at its end: the exit word, and the counts.
#[derive(Clone, Copy)]
pub struct EndCounts {
    pub status: u32,
    pub turns: u64,
    pub overflows: u64,
    pub underflows: u64,
}

/// What a run gave.
#[derive(Clone, Copy)]
pub struct HostRun {
    /// The exit word, and the counts.
    pub told: EndCounts,
    /// How many bytes were put out.
    pub output: u64,
    /// Whether input was left; None where nobody can know without waiting for it.
    pub has_left: Option<bool>,
}

/// Why a run has no end of its own.
#[derive(Clone, Copy)]
pub enum RunHalt {
    /// Memory was refused.
    Memory(Want),
    /// There was no room for a stream.
    NoRoom(Full),
    /// The input can't be read.
    Input,
    /// The output can't be written.
    Output,
    /// More was put out than is allowed; this much was passed on.
    TooMuch(u64),
}

impl RunHalt {
    /// What an error of a stream halts a run with: want of memory where it is of that kind, else what is given.
    fn of(error: &io::Error, other: RunHalt) -> RunHalt {
        match Full::of(error) {
            Some(full) => RunHalt::NoRoom(full),
            None => other,
        }
    }
}

/// The run on `N` windows, which are as many as the number says.
fn stream_on<const N: usize, I: Read, O: Write>(
    alloc: Global,
    windows: u32,
    accepted: &Accepted,
    input: &mut I,
    out: &mut O,
) -> Result<Finished, RunFault>
    requires range { (4 ≤ N) × (N ≤ 32) }
    requires same { windows ≡ N }
    ensures { RunGives windows accepted.now (I.remaining input.old) (I.remaining input.new)
        (O.contents out.old) (O.contents out.new) result }
{
    let _ = windows;
    run_stream::<N, I, O>(alloc, accepted, input, out)
}

/// Runs an admitted image over a reader and a writer on so many windows. Each count is a machine of its own.
pub fn stream_windows<I: Read, O: Write>(
    alloc: Global,
    windows: Windows,
    accepted: &Accepted,
    input: &mut I,
    out: &mut O,
) -> Result<Finished, RunFault>
    ensures { RunGives windows accepted.now (I.remaining input.old) (I.remaining input.new)
        (O.contents out.old) (O.contents out.new) result }
{
    let count = windows.count();
    on_windows!(count, stream_on [I O] (alloc, count, accepted, input, out), 4 to 32)
}

/// What a run on a board told.
fn told_by_board(finished: &Finished) -> EndCounts
    ensures { result ≡ told_of finished.now }
{
    EndCounts {
        status: finished.status,
        turns: finished.turns,
        overflows: finished.overflows,
        underflows: finished.underflows,
    }
}

/// What a run on the flat machine told.
fn told_by_engine(flowed: &FlatEnded) -> EndCounts
    ensures { result ≡ told_of_flow flowed.now }
{
    EndCounts {
        status: flowed.status,
        turns: flowed.counts.turns,
        overflows: flowed.counts.overflows,
        underflows: flowed.counts.underflows,
    }
}

/// Runs an admitted image over a reader and a writer on the flat machine, which counts for so many windows.
fn stream_flat<I: Read, O: Write>(
    alloc: Global,
    windows: Windows,
    accepted: &Accepted,
    input: &mut I,
    out: &mut O,
) -> Result<FlatEnded, RunFault>
    ensures { EngineGives windows accepted.now (I.remaining input.old) (I.remaining input.new)
        (O.contents out.old) (O.contents out.new) result }
{
    run_over(alloc, accepted, windows.count(), input, out)
}

/// Runs an admitted image over a reader and a writer, on a board of so many windows or on the flat machine.
#[tactic(auto, using(crate::proofs::Machines::engine_told, crate::proofs::Machines::engine_failed, crate::proofs::Machines::board_told, crate::proofs::Machines::board_failed))]
pub fn stream_so<I: Read, O: Write>(
    alloc: Global,
    terms: &Terms<'_>,
    accepted: &Accepted,
    input: &mut I,
    out: &mut O,
) -> Result<EndCounts, RunFault>
    ensures { RunsSo terms.now.engine terms.now.windows accepted.now (I.remaining input.old) (I.remaining input.new)
        (O.contents out.old) (O.contents out.new) result }
{
    if terms.engine {
        return match stream_flat(alloc, terms.windows, accepted, input, out) {
            Ok(flowed) => Ok(told_by_engine(&flowed)),
            Err(fault) => Err(fault),
        };
    }
    match stream_windows(alloc, terms.windows, accepted, input, out) {
        Ok(finished) => Ok(told_by_board(&finished)),
        Err(fault) => Err(fault),
    }
}

/// What a run's fault is, beside the writer that it had.
fn halt_of<W: Write>(fault: RunFault, out: &Bounded<W>) -> RunHalt {
    match fault {
        RunFault::Memory(want) => RunHalt::Memory(want),
        RunFault::Reader => RunHalt::Input,
        RunFault::Writer if out.is_over() => RunHalt::TooMuch(out.count()),
        RunFault::Writer => RunHalt::Output,
    }
}

/// Why a run stopped, once what it put out up to its bound was handed on.
fn left_off<W: Write>(fault: RunFault, out: &mut Bounded<W>) -> RunHalt {
    match halt_of(fault, out) {
        RunHalt::TooMuch(count) => match out.flush() {
            Ok(()) => RunHalt::TooMuch(count),
            Err(_) => RunHalt::Output,
        },
        halt => halt,
    }
}

/// What a run told, once all that it put out was handed on.
fn told_at_last<W: Write>(
    ran: Result<EndCounts, RunFault>,
    out: &mut Bounded<W>,
) -> Result<EndCounts, RunHalt> {
    let told = match ran {
        Ok(told) => told,
        Err(fault) => return Err(left_off(fault, out)),
    };
    match out.flush() {
        Ok(()) => Ok(told),
        Err(_) => Err(RunHalt::Output),
    }
}

/// Whether a run has left input behind, of an input that is plain where asking it for a byte more never waits.
fn left_behind<R: Read + Drop, W: Write + Drop>(
    heard: Counted<Hearer<'_, R, W>>,
    is_plain: bool,
) -> Option<bool> {
    let met = heard.has_met_the_end();
    let mut heard = heard.into_inner();
    if met || heard.has_more_at_hand() {
        return Some(!met);
    }
    if !is_plain {
        return None;
    }
    match heard.read(&mut [0u8; 1]) {
        Ok(count) => Some(count > 0),
        Err(_) => None,
    }
}

/// What gives an image its input.
#[derive(Drop)]
pub enum Source {
    Standard(Stdin),
    File(File),
    Bytes(Cursor<Vec<u8>>),
}

impl Read for Source {
    fn read(&mut self, buf: &mut [u8]) -> io::Result<usize> {
        match self {
            Source::Standard(input) => input.read(buf),
            Source::File(file) => file.read(buf),
            Source::Bytes(bytes) => bytes.read(buf),
        }
    }
}

/// Runs an admitted image on a source and standard output, as a conversation, and flushes the output at the end. A
/// source is plain where asking it for a byte more never waits.
pub fn converse(
    rt: &HostRuntime,
    terms: &Terms<'_>,
    accepted: &Accepted,
    source: Source,
    is_plain: bool,
) -> Result<HostRun, RunHalt> {
    let input = match BufReader::new(rt.alloc(), source) {
        Ok(input) => input,
        Err(error) => return Err(RunHalt::of(&error, RunHalt::Input)),
    };
    let out = match LineWriter::new(rt.alloc(), rt.stdout()) {
        Ok(out) => out,
        Err(error) => return Err(RunHalt::of(&error, RunHalt::Output)),
    };
    let out = RefCell::new(out);
    let mut heard = Counted::new(Hearer::new(input, &out));
    let mut said = Bounded::new(Speaker::new(&out), terms.most);
    let ran = stream_so(rt.alloc(), terms, accepted, &mut heard, &mut said);
    let told = told_at_last(ran, &mut said)?;
    let output = said.count();
    Ok(HostRun {
        told,
        output,
        has_left: left_behind(heard, is_plain),
    })
}
