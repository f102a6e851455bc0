//! Runs of accepted images over a reader and a writer.
ghost use Rattle.std.specs.Prelude.{◌≡◌, ◌≤◌, ℕ, [], IfErr, IfOk};
ghost use Rattle.v8_board.specs.declared.outcome.Ending.TheVariants.{Exit};
ghost use Rattle.sbx_port.specs.Streams.{Streamed};
ghost use Rattle.sbx_run.specs.Answer.{KeepsItsDepth, told_of};
ghost use Rattle.sbx_stream.specs.Streams.{IsContainedBeyond, IsFront, IsReady, IsStreamed, named};
ghost use Rattle.want.specs.Wants.{refused};

use sbx_image::Image;
use sbx_port::{Mailbox, StreamFault, carry};
use sbx_run::{Accepted, Ending, Finished, Outcome, PageUse, RunFault, budget, tells_limits};
use std::alloc::Global;
use std::io::{Read, Write};
use v8_board::Board;

/// A new board into which an image was loaded, and of whose input nothing is known. The only fault is
/// `RunFault::Memory`.
fn ready<const N: usize>(alloc: Global, image: &Image) -> Result<Board<N, Mailbox>, RunFault>
    requires { (4 ≤ N) × (N ≤ 32) }
    ensures ready { IfOk result (λ board. IsReady N image.now board) }
    ensures fault { IfErr result (λ fault. fault ≡ RunFault.Memory refused) }
{
    match Board::new(alloc, Mailbox::new()) {
        Ok(board) => {
            let mut board = board;
            board.load(image);
            Ok(board)
        }
        Err(error) => Err(RunFault::from(error)),
    }
}

/// What is told of a run that has exited: no output, since that was written.
fn finish(alloc: Global, outcome: Outcome, pages: PageUse) -> Finished
    requires { (status : ℕ) × (outcome.ending ≡ Exit status) }
    ensures told { told_of result ≡ outcome }
    ensures pages { result.pages ≡ pages }
    ensures output { result.output.items ≡ [] }
{
    match outcome.ending {
        Ending::Exit(status) => Finished {
            status,
            output: Vec::new(alloc),
            turns: outcome.turns,
            overflows: outcome.overflows,
            underflows: outcome.underflows,
            pages,
        },
        Ending::Trapped(_) | Ending::ErrorMode(_) | Ending::Limit => unreachable!(),
    }
}

/// The fault of a run whose stream failed.
fn fault_of(fault: StreamFault) -> RunFault
    ensures { result ≡ named fault }
{
    match fault {
        StreamFault::Reader => RunFault::Reader,
        StreamFault::Writer => RunFault::Writer,
    }
}

/// Runs an accepted image to its end on a new board of `N` windows, 4 to 32, over a reader and a writer. Where the
/// program asks for a byte, one byte is read; a byte that it puts out is written before it puts out the next one or one
/// is read, and at latest some thousands of turns later. An input that has ended isn't asked again; a read that fails,
/// whatever its error, is `Reader`, and a write that fails or takes no byte is `Writer`: neither is tried again.
/// Nothing is flushed, and no memory grows with the input or the output.
///
/// On Ok what was written is the output that `run_accepted` has, and the status, the counts and the pages are its own,
/// on every input that begins with the bytes read, or on these alone where their end was met; `output` is empty. An
/// image of version 3 overflows and underflows no window where `N` is at least two more than its first function's
/// declared depth. On a fault what was written are the first bytes of that output, and the run that the fault ended is
/// contained. `Memory` comes before anything is read or written, `Reader` where the input's end wasn't met, and
/// `Writer` where the output goes on.
pub fn run_stream<const N: usize, R: Read, W: Write>(
    alloc: Global,
    accepted: &Accepted,
    reader: &mut R,
    writer: &mut W,
) -> Result<Finished, RunFault>
    requires { (4 ≤ N) × (N ≤ 32) }
    ensures whole { IfOk result
        (λ finished. Streamed (R.remaining reader.old) (R.remaining reader.new) (W.contents writer.old)
        (W.contents writer.new)
        (IsStreamed accepted.now N finished)) }
    ensures depth { IfOk result (λ finished. KeepsItsDepth accepted.now N (told_of finished)) }
    ensures part { IfErr result
        (λ fault. Streamed (R.remaining reader.old) (R.remaining reader.new) (W.contents writer.old)
        (W.contents writer.new)
        (IsFront accepted.now fault)) }
    ensures contained { IfErr result
        (λ fault. Streamed (R.remaining reader.old) (R.remaining reader.new) (W.contents writer.old)
        (W.contents writer.new)
        (IsContainedBeyond accepted.now N fault)) }
    ensures output { IfOk result (λ finished. finished.output.items ≡ []) }
{
    let image = accepted.image();
    tells_limits(image);
    let mut board = ready::<N>(alloc, image)?;
    match carry(&mut board, budget(image), reader, writer) {
        Ok(()) => Ok(finish(alloc, board.outcome(), board.page_use())),
        Err(fault) => Err(fault_of(fault)),
    }
}
