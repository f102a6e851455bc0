//! The turns of a run, one after the other.
ghost use Rattle.std.specs.Prelude.{◌≡◌, ◌≢◌, ◌≤◌, IfErr, OnErr, OnOk};
ghost use Rattle.std.specs.Io.KnownBytes.{Appends};
ghost use Rattle.v8_board.specs.Seen.{ending_of};
ghost use Rattle.sbx_put.specs.Fronts.{Wrote, WroteSome};
ghost use Rattle.sbx_raw.specs.Outputs.{Alike};
ghost use Rattle.inspect_run.specs.Watched.{BeginsRun, TellsRun, Watched, WatchedPart, WatchedRun, WatchedSome};
ghost use Rattle.inspect_run.specs.Watched.{WatchedTurn, last_text};

use crate::slices::Progress;
use crate::teller::Teller;
use sbx_counts::on_windows;
use sbx_image::{Function, Image};
use sbx_put::put_all;
use sbx_raw::{RunFault, SlicePort, begun, fault_of};
use std::alloc::Global;
use std::io::Write;
use v8_board::Board;

/// The turns of a slice, between which it is told how far the run has come: so many that who reads the first pages of a
/// trace isn't disturbed.
const SLICE: u64 = 262_144;

/// Tells how far a run has come that goes on, where a slice is done.
fn tell_slice<P: Progress>(progress: &mut P, done: u64) {
    if done > 0 && done % SLICE == 0 {
        progress.made(done);
    }
}

/// Forgets what the device has put out, which was told.
fn forget_output<const N: usize>(board: &mut Board<N, SlicePort<'_>>)
    ensures { Alike N board.new.state board.old.state }
{
    // (a port that is lent takes the translations that are kept with it)
    if !board.port().output().is_empty() {
        board.port_mut().forget();
    }
}

/// Makes a turn, and writes its text. What the device has put out is forgotten then, so that memory doesn't grow.
fn watch_turn<const N: usize, W: Write>(
    board: &mut Board<N, SlicePort<'_>>,
    functions: &[Function],
    number: u64,
    teller: &mut Teller<N>,
    out: &mut W,
) -> Result<(), RunFault>
    ensures whole { OnOk result
        (WatchedTurn N functions.now number board.old.state board.new.state (W.contents out.old) (W.contents out.new)) }
    ensures part { OnErr result
        (WatchedSome N functions.now number board.old.state (W.contents out.old) (W.contents out.new)) }
    ensures fault { IfErr result (λ fault. fault ≢ RunFault.Reader) }
{
    let turn = match board.step() {
        Ok(turn) => turn,
        Err(fault) => return Err(fault_of(board, fault)),
    };
    match teller.make_turn(functions, number, &turn, board) {
        Ok(()) => {}
        Err(error) => return Err(RunFault::from(error)),
    }
    match put_all(out, teller.line.as_bytes()) {
        Ok(()) => {
            forget_output(board);
            Ok(())
        }
        Err(_) => Err(RunFault::Writer),
    }
}

/// Runs a board to an end, but at most so many turns, and writes the text of each.
fn watch_turns<const N: usize, W: Write, P: Progress>(
    board: &mut Board<N, SlicePort<'_>>,
    functions: &[Function],
    limit: u64,
    teller: &mut Teller<N>,
    out: &mut W,
    progress: &mut P,
) -> Result<(), RunFault>
    ensures whole { OnOk result
        (WatchedRun N functions.now limit board.old.state board.new.state (W.contents out.old) (W.contents out.new)) }
    ensures part { OnErr result
        (WatchedPart N functions.now limit board.old.state (W.contents out.old) (W.contents out.new)) }
    ensures fault { IfErr result (λ fault. fault ≢ RunFault.Reader) }
{
    for done in 0..limit {
        let None = board.ending() else {
            return Ok(());
        };
        tell_slice(progress, done);
        watch_turn(board, functions, done + 1, teller, out)?;
    }
    Ok(())
}

/// Writes the last line, where the limit cuts the run short.
fn watch_last<const N: usize, W: Write>(
    alloc: Global,
    board: &Board<N, SlicePort<'_>>,
    limit: u64,
    out: &mut W,
) -> Result<(), RunFault>
    ensures whole { OnOk result
        (Appends (W.contents out.old) (W.contents out.new) (last_text limit (ending_of N board.now.state.world))) }
    ensures part { OnErr result
        (WroteSome (W.contents out.old) (W.contents out.new) (last_text limit (ending_of N board.now.state.world))) }
    ensures fault { IfErr result (λ fault. fault ≢ RunFault.Reader) }
{
    let None = board.ending() else {
        return Ok(());
    };
    let line = match format!(in alloc; "limit: the run would go on behind turn {limit}\n") {
        Ok(line) => line,
        Err(error) => return Err(RunFault::from(error)),
    };
    match put_all(out, line.as_bytes()) {
        Ok(()) => Ok(()),
        Err(_) => Err(RunFault::Writer),
    }
}

/// Runs a board that was loaded with an image, and writes the text of each turn, and the last line, through to the end.
fn watch_board<const N: usize, W: Write, P: Progress>(
    alloc: Global,
    board: &mut Board<N, SlicePort<'_>>,
    functions: &[Function],
    limit: u64,
    out: &mut W,
    progress: &mut P,
) -> Result<(), RunFault>
    requires { (4 ≤ N) × (N ≤ 32) }
    ensures whole { OnOk result
        (Wrote (W.contents out.old) (W.contents out.new) (TellsRun N functions.now limit board.old.state)) }
    ensures part { OnErr result
        (BeginsRun N functions.now limit board.old.state (W.contents out.old) (W.contents out.new)) }
    ensures fault { IfErr result (λ fault. fault ≢ RunFault.Reader) }
{
    let mut teller = Teller::new(alloc, board);
    watch_turns(board, functions, limit, &mut teller, out, progress)?;
    watch_last(alloc, board, limit, out)?;
    match out.flush() {
        Ok(()) => Ok(()),
        Err(_) => Err(RunFault::Writer),
    }
}

/// The turns on `N` windows, which are as many as the number says.
fn watch_on<const N: usize, W: Write, P: Progress>(
    alloc: Global,
    windows: u32,
    image: &Image,
    input: &[u8],
    limit: u64,
    out: &mut W,
    progress: &mut P,
) -> Result<(), RunFault>
    requires range { (4 ≤ N) × (N ≤ 32) }
    requires same { windows ≡ N }
    ensures { Watched windows image.now input.now limit (W.contents out.old) (W.contents out.new) result }
{
    let _ = windows;
    let mut board = begun::<N>(alloc, image, input)?;
    let functions = image.functions();
    watch_board(alloc, &mut board, functions, limit, out, progress)
}

/// Runs an image on an input, on so many windows, 4 to 32, to an end, but at most so many turns, and writes a text for
/// each: its number, the window, the mode, PC and the name of the place before it, and the instruction; then a trap by
/// its name, the registers that it changed, PSR, WIM and Y, pages that it referenced or modified for the first time,
/// the words that it stored, and the byte that it put out. Lines have at most 100 columns, and those that go on begin
/// with blanks. Where the limit cuts the run short a last line says so. Where the writer fails, or memory is refused,
/// it has the first bytes of such a text. It tells in between how far the run has come. Nothing grows with the turns or
/// with what is put out. Each count is a machine of its own.
pub fn watch_windows<W: Write, P: Progress>(
    alloc: Global,
    windows: u32,
    image: &Image,
    input: &[u8],
    limit: u64,
    out: &mut W,
    progress: &mut P,
) -> Result<(), RunFault>
    requires { (4 ≤ windows) × (windows ≤ 32) }
    ensures { Watched windows image.now input.now limit (W.contents out.old) (W.contents out.new) result }
{
    on_windows!(windows, watch_on [W P] (alloc, windows, image, input, limit, out, progress), 4 to 32)
}
