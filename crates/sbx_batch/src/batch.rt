//! Runs that follow one another on one board.
ghost use Rattle.std.specs.Prelude.{◌≡◌, ◌≤◌, [], IfErr, IfOk, OnOk};
ghost use Rattle.v8_loaded.specs.States.{IsState};
ghost use Rattle.sbx_sound.specs.Law.{IsFormed};
ghost use Rattle.sbx_batch.specs.Batches.{AreAnswers, LeavesNext, with_input};
ghost use Rattle.want.specs.Wants.{refused};

use sbx_image::Image;
use sbx_raw::{SlicePort, fault_of, take_output};
use sbx_run::{Accepted, Finished, RunFault, run_board, tells_limits};
use std::alloc::Global;
use v8_board::Board;
use want::Want;

/// An accepted image, and the input that it is run on.
#[derive(Clone, Copy)]
pub struct Batch<'a> {
    pub image: &'a Accepted,
    pub input: &'a [u8],
}

/// Gives a board another input, and takes away what was put out. Registers, Y and RAM stay.
fn set_back<'a, const N: usize>(alloc: Global, board: &mut Board<N, SlicePort<'a>>, input: &'a [u8])
    ensures { board.new.state ≡ with_input board.old.state input.now }
{
    *board.port_mut() = SlicePort::new(alloc, input);
}

/// Tells that an image has the form which the rules speak of.
fn tells_form(image: &Image)
    ensures { IsFormed image.now }
{
    image.keeps_its_format();
}

/// Runs an accepted image on an input to its end, on a board as an earlier run has left it, and takes what it put out.
/// The only fault is `RunFault::Memory`.
fn run_next<'a, const N: usize>(
    alloc: Global,
    board: &mut Board<N, SlicePort<'a>>,
    accepted: &Accepted,
    input: &'a [u8],
) -> Result<Finished, RunFault>
    requires { IsState N board.old.state.mmu board.old.state.world }
    ensures next { IfOk result
        (λ finished. LeavesNext N accepted.now input.now finished board.old.state board.new.state) }
    ensures state { OnOk result (IsState N board.new.state.mmu board.new.state.world) }
    ensures fault { IfErr result (λ fault. fault ≡ RunFault.Memory refused) }
{
    let image = accepted.image();
    tells_limits(image);
    tells_form(image);
    set_back(alloc, board, input);
    let ended = match run_board(board, accepted) {
        Ok(ended) => ended,
        Err(fault) => return Err(fault_of(board, fault)),
    };
    Ok(Finished {
        status: ended.status,
        output: take_output(alloc, board),
        turns: ended.turns,
        overflows: ended.overflows,
        underflows: ended.underflows,
        pages: ended.pages,
    })
}

/// No answer yet, and room for so many, so that a run that is over wants no memory.
fn with_room(alloc: Global, count: usize) -> Result<Vec<Finished>, RunFault>
    ensures empty { IfOk result (λ answers. answers.items ≡ []) }
    ensures fault { IfErr result (λ fault. fault ≡ RunFault.Memory refused) }
{
    match Vec::with_capacity(alloc, count) {
        Ok(empty) => Ok(empty),
        Err(error) => Err(RunFault::from(error)),
    }
}

/// Runs accepted images, each on its input and to its end, one after another on one board of `N` windows, 4 to 32, and
/// gives what each run gave, in order. Between two of them the board is loaded, and nothing is cleared: registers, Y
/// and the stack's bytes are what the run before left. Yet status, output, turns, overflows, underflows and pages are
/// those of `run_accepted` on the image and the input alone; an image of version 3 overflows and underflows no window
/// where `N` is at least two more than its first function's declared depth. The only fault is `RunFault::Memory`, and
/// then nothing is given.
pub fn run_batch<const N: usize>(
    alloc: Global,
    batch: &[Batch<'_>],
) -> Result<Vec<Finished>, RunFault>
    requires { (4 ≤ N) × (N ≤ 32) }
    ensures answers { IfOk result (λ answers. AreAnswers N batch.now answers.items) }
    ensures fault { IfErr result (λ fault. fault ≡ RunFault.Memory refused) }
{
    let mut board = match Board::<N, _>::new(alloc, SlicePort::new(alloc, b"")) {
        Ok(board) => board,
        Err(error) => return Err(RunFault::from(error)),
    };
    let mut answers = with_room(alloc, batch.len())?;
    for each in batch {
        let finished = run_next(alloc, &mut board, each.image, each.input)?;
        match answers.push(finished) {
            Ok(()) => {}
            Err(failed) => return Err(RunFault::Memory(Want::from(failed))),
        }
    }
    Ok(answers)
}
