//! Runs of any image, on a count of windows that is a number.
ghost use Rattle.std.specs.Prelude.{◌≡◌, ◌≤◌, IfErr, IfOk};
ghost use Rattle.inspect_run.specs.Runs.{IsRun, IsRunOf, IsToldOf};
ghost use Rattle.want.specs.Wants.{refused};

use crate::slices::{Progress, run_slices};
use sbx_counts::on_windows;
use sbx_image::Image;
use sbx_raw::{Raw, RunFault, SlicePort, begun};
use std::alloc::Global;
use v8_board::Board;
use v8_word::Reg;

/// A run, and %l1 of the window in which it ended: after a trap that no handler serves, the address of the instruction
/// that trapped (chapter 7).
#[derive(Drop)]
pub struct Run {
    pub raw: Raw,
    pub trapped_at: u32,
}

/// What a board tells of a run that stopped there.
fn told_of<const N: usize>(alloc: Global, board: &Board<N, SlicePort<'_>>) -> Result<Run, RunFault>
    ensures told { IfOk result (IsToldOf N board.now.state) }
    ensures fault { IfErr result (λ fault. fault ≡ RunFault.Memory refused) }
{
    let (outcome, pages) = (board.outcome(), board.page_use());
    let (fault_status, trapped_at) = (board.fault_status(), board.reg(Reg::L1));
    let mut output = Vec::new(alloc);
    match output.extend_from_slice(board.port().output()) {
        Ok(()) => Ok(Run {
            raw: Raw {
                outcome,
                output,
                pages,
                fault_status,
            },
            trapped_at,
        }),
        Err(error) => Err(RunFault::from(error)),
    }
}

/// Runs a board to an end, but at most so many turns, and tells its run.
fn run_board<const N: usize, P: Progress>(
    alloc: Global,
    board: &mut Board<N, SlicePort<'_>>,
    limit: u64,
    progress: &mut P,
) -> Result<Run, RunFault>
    ensures run { IfOk result (IsRunOf N limit board.old.state board.new.state) }
    ensures fault { IfErr result (λ fault. fault ≡ RunFault.Memory refused) }
{
    run_slices(board, limit, progress)?;
    told_of(alloc, board)
}

/// The run on `N` windows, which are as many as the number says.
fn run_on<const N: usize, P: Progress>(
    alloc: Global,
    windows: u32,
    image: &Image,
    input: &[u8],
    limit: u64,
    progress: &mut P,
) -> Result<Run, RunFault>
    requires range { (4 ≤ N) × (N ≤ 32) }
    requires same { windows ≡ N }
    ensures run { IfOk result (λ run. IsRun windows image.now input.now limit run) }
    ensures fault { IfErr result (λ fault. fault ≡ RunFault.Memory refused) }
{
    let _ = windows;
    let mut board = begun::<N>(alloc, image, input)?;
    run_board(alloc, &mut board, limit, progress)
}

/// Runs an image that need not be verified on so many windows, 4 to 32, as `sbx_raw::run_raw` does, and tells in
/// between how far it has come. Each count is a machine of its own. The only fault is `RunFault::Memory`.
pub fn run_windows<P: Progress>(
    alloc: Global,
    windows: u32,
    image: &Image,
    input: &[u8],
    limit: u64,
    progress: &mut P,
) -> Result<Run, RunFault>
    requires { (4 ≤ windows) × (windows ≤ 32) }
    ensures run { IfOk result (λ run. IsRun windows image.now input.now limit run) }
    ensures fault { IfErr result (λ fault. fault ≡ RunFault.Memory refused) }
{
    on_windows!(windows, run_on [P] (alloc, windows, image, input, limit, progress), 4 to 32)
}
