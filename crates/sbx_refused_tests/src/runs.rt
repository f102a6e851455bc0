//! Runs of an image that is accepted. At a want of memory each call is asked once more, and then has to give what it
//! gives with ample memory; any other fault fails the test.
use crate::images::{HELLO, image_of};
use crate::passing::passes;
use crate::sheet::Sheet;
use sbx_batch::{Batch, run_batch};
use sbx_image::{Image, write};
use sbx_run::{
    Accepted, Cause, Ending, Finished, Outcome, Raw, RunFault, run_accepted, run_raw, run_windows,
    trace,
};
use sbx_verify::verify;
use std::alloc::{AllocError, Global};

/// The image as an accepted one. Where memory is refused it comes back, and is verified again.
fn accept(alloc: Global, image: Image) -> Option<Accepted> {
    match verify(alloc, image) {
        Ok(accepted) => Some(accepted),
        Err((image, refusal)) => match refusal.cause {
            Cause::NoMemory(_) => verify(alloc, image).ok(),
            _ => None,
        },
    }
}

/// HELLO as an accepted image.
fn accepted(alloc: Global) -> Option<Accepted> {
    match image_of(alloc, HELLO) {
        Some(image) => accept(alloc, image),
        None => None,
    }
}

/// The spelling of an image, asked for once more where a growth is refused.
fn spelling_of(alloc: Global, image: &Image) -> Result<Vec<u8>, AllocError> {
    match write(image, alloc) {
        Err(AllocError) => write(image, alloc),
        first => first,
    }
}

/// Whether an image is spelled as HELLO.
fn is_hello(alloc: Global, image: &Image) -> bool {
    match spelling_of(alloc, image) {
        Ok(bytes) => bytes.as_slice() == HELLO,
        Err(AllocError) => false,
    }
}

#[test]
fn an_image_is_read_verified_and_written(rt: HostRuntime) {
    passes(&rt, "the spelling", holds(rt.alloc(), Asked::Spelling));
}

/// Whether it exits after 16 turns and has put out `Hi`.
fn greets(raw: &Raw) -> bool {
    raw.outcome.ending == Ending::Exit(0)
        && raw.outcome.turns == 16
        && raw.output.as_slice() == b"Hi".as_slice()
}

fn run_once(alloc: Global, image: &Image) -> Result<Raw, RunFault> {
    run_raw::<8>(alloc, image, b"", 100)
}

/// Whether the raw run of an image on 8 windows is as it has to be. Where memory is refused, it is asked for once more.
fn is_greeting(alloc: Global, image: &Image) -> bool {
    let run = match run_once(alloc, image) {
        Err(RunFault::Memory(_)) => run_once(alloc, image),
        first => first,
    };
    match run {
        Ok(raw) => greets(&raw),
        Err(_) => false,
    }
}

#[test]
fn a_raw_run_ends(rt: HostRuntime) {
    passes(&rt, "the raw run", holds_raw(rt.alloc(), RawAsked::Run));
}

/// Whether it exits with 0 after 16 turns and has put out `Hi`.
fn is_finished(finished: &Finished) -> bool {
    finished.status == 0 && finished.turns == 16 && finished.output.as_slice() == b"Hi".as_slice()
}

/// Whether a run is as it has to be.
fn is_well(run: Result<Finished, RunFault>) -> bool {
    match run {
        Ok(finished) => is_finished(&finished),
        Err(_) => false,
    }
}

fn finish_once(alloc: Global, accepted: &Accepted) -> Result<Finished, RunFault> {
    run_accepted::<32>(alloc, accepted, b"")
}

/// Whether the run of an accepted image on 32 windows is as it has to be. Where memory is refused, it is asked for once
/// more.
fn is_run(alloc: Global, accepted: &Accepted) -> bool {
    is_well(match finish_once(alloc, accepted) {
        Err(RunFault::Memory(_)) => finish_once(alloc, accepted),
        first => first,
    })
}

#[test]
fn a_run_ends(rt: HostRuntime) {
    passes(&rt, "the run on 32 windows", holds(rt.alloc(), Asked::Run));
}

/// The run on four windows, as a number says.
fn finish_on_four(alloc: Global, accepted: &Accepted) -> Option<Result<Finished, RunFault>> {
    run_windows(alloc, 4, accepted, b"")
}

/// Whether the run of an accepted image on four windows is as it has to be. Where memory is refused, it is asked for
/// once more.
fn is_run_on_four(alloc: Global, accepted: &Accepted) -> bool {
    let run = match finish_on_four(alloc, accepted) {
        Some(Err(RunFault::Memory(_))) => finish_on_four(alloc, accepted),
        first => first,
    };
    match run {
        Some(run) => is_well(run),
        None => false,
    }
}

#[test]
fn a_run_on_a_count_of_windows_ends(rt: HostRuntime) {
    passes(
        &rt,
        "the run on four windows",
        holds(rt.alloc(), Asked::RunOnFour),
    );
}

/// The runs of an image on an input of one byte and on none, on one board of four windows.
fn batch_once(alloc: Global, image: &Accepted) -> Result<Vec<Finished>, RunFault> {
    let batch = [Batch { image, input: b"A" }, Batch { image, input: b"" }];
    run_batch::<4>(alloc, &batch)
}

/// Whether there are two, each as it has to be.
fn are_finished(answers: &[Finished]) -> bool {
    match answers {
        [first, second] => is_finished(first) && is_finished(second),
        _ => false,
    }
}

/// Whether the runs of an image on one board are as they have to be. Where memory is refused, they are asked for once
/// more.
fn are_run(alloc: Global, image: &Accepted) -> bool {
    let runs = match batch_once(alloc, image) {
        Err(RunFault::Memory(_)) => batch_once(alloc, image),
        first => first,
    };
    match runs {
        Ok(answers) => are_finished(answers.as_slice()),
        Err(_) => false,
    }
}

#[test]
fn runs_on_one_board_end(rt: HostRuntime) {
    passes(
        &rt,
        "the runs on one board",
        holds(rt.alloc(), Asked::Batch),
    );
}

/// What 8 windows' trace of the first two turns has to be.
const TWO_TURNS: &[u8] = b"0000000001 00 u 00040000 90102048 ran
0000000002 00 u 00040004 91D02002 trap 82
";

fn trace_once(
    alloc: Global,
    image: &Image,
    limit: u64,
    sheet: &mut Sheet,
) -> Result<Outcome, RunFault> {
    trace::<8, Sheet>(alloc, image, b"", limit, sheet)
}

/// What a trace to a writer of so many bytes has left there, and whether it was told as a failed writer. Where memory
/// is refused, it is asked for once more.
fn traced(alloc: Global, image: &Image, limit: u64, most: usize) -> (Sheet, bool) {
    let mut sheet = Sheet::new(most);
    let mut done = trace_once(alloc, image, limit, &mut sheet);
    if matches!(done, Err(RunFault::Memory(_))) {
        sheet = Sheet::new(most);
        done = trace_once(alloc, image, limit, &mut sheet);
    }
    (sheet, matches!(done, Err(RunFault::Writer)))
}

/// Whether an image's trace of two turns is written whole, and one to a writer that takes 60 bytes leaves the first 60.
fn has_trace(alloc: Global, image: &Image) -> bool {
    let (whole, failed) = traced(alloc, image, 2, 1024);
    let (front, full) = traced(alloc, image, 100, 60);
    !failed
        && full
        && whole.front() == TWO_TURNS
        && front.front().len() == 60
        && TWO_TURNS.starts_with(front.front())
}

#[test]
fn a_trace_is_written(rt: HostRuntime) {
    passes(&rt, "the traces", holds_raw(rt.alloc(), RawAsked::Trace));
}

/// What is asked of the accepted image.
#[derive(Clone, Copy)]
enum Asked {
    /// Whether it is spelled as its bytes.
    Spelling,
    /// Whether its run on 32 windows is as it has to be.
    Run,
    /// Whether its run on four windows is.
    RunOnFour,
    /// Whether its runs on one board are.
    Batch,
}

/// Whether what is asked of an accepted image is so.
fn is_so(alloc: Global, accepted: &Accepted, asked: Asked) -> bool {
    match asked {
        Asked::Spelling => is_hello(alloc, accepted.image()),
        Asked::Run => is_run(alloc, accepted),
        Asked::RunOnFour => is_run_on_four(alloc, accepted),
        Asked::Batch => are_run(alloc, accepted),
    }
}

/// Whether it is so of HELLO. All questions go through here, since what owns an image takes long to check.
fn holds(alloc: Global, asked: Asked) -> bool {
    match accepted(alloc) {
        Some(accepted) => is_so(alloc, &accepted, asked),
        None => false,
    }
}

/// What is asked of an image that nobody has verified.
#[derive(Clone, Copy)]
enum RawAsked {
    /// Whether its raw run is as it has to be.
    Run,
    /// Whether its traces are.
    Trace,
}

/// Whether what is asked of an image is so.
fn is_so_raw(alloc: Global, image: &Image, asked: RawAsked) -> bool {
    match asked {
        RawAsked::Run => is_greeting(alloc, image),
        RawAsked::Trace => has_trace(alloc, image),
    }
}

/// Whether it is so of HELLO.
fn holds_raw(alloc: Global, asked: RawAsked) -> bool {
    match image_of(alloc, HELLO) {
        Some(image) => is_so_raw(alloc, &image, asked),
        None => false,
    }
}
