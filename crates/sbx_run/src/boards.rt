//! Runs of accepted images on a board of the caller's.
ghost use Rattle.std.specs.Prelude.{◌≡◌, IfErr, IfOk, OnErr};
ghost use Rattle.v8_mmu.specs.Answers.{failed_after};
ghost use Rattle.v8_loaded.specs.States.{IsState};
ghost use Rattle.v8_board.specs.Contains.{Contains};
ghost use Rattle.sbx_run.specs.Answer.{AsksOn, EndsOn, KeepsItsDepth, StandsOn, told_of_board};

use crate::limits::tells_limits;
use sbx_raw::{Ending, PageUse};
use sbx_verify::{Accepted, budget};
use v8_board::{Board, Port};
use v8_mmu::PortFault;

/// What a run on a board gave: the exit word, the turns, how often there was no window to save to or to restore from,
/// and which pages were referenced and modified. The port has what the program put out.
#[derive(Clone, Copy)]
pub struct Ended {
    pub status: u32,
    pub turns: u64,
    pub overflows: u64,
    pub underflows: u64,
    pub pages: PageUse,
}

/// Loads an accepted image into a board and runs it to its end, on the input that the board's port has to give:
/// whatever the board's registers, its stack and the image before left. The image exits within its budget, as every run
/// on the flat machine does, and the board stands where the last turn left it; with so many windows as `run_accepted`
/// says none overflows or underflows. On a fault of the port it stands after the last whole turn, and `Board::run` goes
/// on with the turns that are left of the budget; the port's count of failures rose by one, as it does nowhere else. In
/// all, the port is called at most once for each turn made, and once more where it fails.
pub fn run_board<const N: usize, P: Port>(
    board: &mut Board<N, P>,
    accepted: &Accepted,
) -> Result<Ended, PortFault>
    ensures ended { IfOk result (λ ended. EndsOn N accepted.now board.old.state board.new.state ended) }
    ensures depth { IfOk result (λ ended. KeepsItsDepth accepted.now N (told_of_board ended)) }
    ensures stands { OnErr result (StandsOn N accepted.now board.old.state board.new.state) }
    ensures state { IsState N board.new.state.mmu board.new.state.world }
    ensures contained { Contains N accepted.now board.new.state }
    ensures count { board.new.failed ≡ failed_after result board.old.failed }
    ensures calls { AsksOn N accepted.now board.old board.new result }
    ensures own { IfErr result (λ fault. board.new.fault ≡ fault) }
{
    let image = accepted.image();
    tells_limits(image);
    board.port().tells_bytes();
    board.load(image);
    let outcome = board.run(budget(image))?;
    match outcome.ending {
        Ending::Exit(status) => Ok(Ended {
            status,
            turns: outcome.turns,
            overflows: outcome.overflows,
            underflows: outcome.underflows,
            pages: board.page_use(),
        }),
        Ending::Trapped(_) | Ending::ErrorMode(_) | Ending::Limit => unreachable!(),
    }
}
