//! Runs in slices, between which it is told how far they have come.
ghost use Rattle.std.specs.Prelude.{◌≡◌, IfErr, IfOk};
ghost use Rattle.v8_board.specs.Contains.{Keeps};
ghost use Rattle.v8_board.specs.Runs.{IsRun};
ghost use Rattle.want.specs.Wants.{refused};

use sbx_raw::{Ending, RunFault, SlicePort, fault_of};
use v8_board::Board;

/// Who is told how far a run has come.
pub trait Progress {
    /// So many turns were made, and the run goes on.
    fn made(&mut self, turns: u64);
}

/// The turns of a slice, of which an interpreter makes some ten a second.
const SLICE: u64 = 4_194_304;

/// Runs to an end, but at most so many turns, as `Board::run` does.
pub fn run_slices<const N: usize, P: Progress>(
    board: &mut Board<N, SlicePort<'_>>,
    limit: u64,
    progress: &mut P,
) -> Result<(), RunFault>
    ensures run { IfOk result (λ _. IsRun N limit board.old.state board.new.state) }
    ensures contained { IfOk result (λ _. Keeps N board.old.state board.new.state) }
    ensures fault { IfErr result (λ fault. fault ≡ RunFault.Memory refused) }
{
    for _ in 0..limit / SLICE {
        match board.run(SLICE) {
            Ok(outcome) if outcome.ending == Ending::Limit => progress.made(outcome.turns),
            Ok(_ended) => {}
            Err(fault) => return Err(fault_of(board, fault)),
        }
    }
    match board.run(limit % SLICE) {
        Ok(_outcome) => Ok(()),
        Err(fault) => Err(fault_of(board, fault)),
    }
}
