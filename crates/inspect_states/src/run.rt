//! The states of a run, on a count of windows that is a number.
ghost use Rattle.std.specs.Prelude.{◌≡◌, ◌≤◌};
ghost use Rattle.sbx_image.specs.Parts.{Parts};
ghost use Rattle.v8_board.specs.States.{IsState};
ghost use Rattle.sbx_raw.specs.Runs.{IsBegun};
ghost use Rattle.inspect_states.specs.Told.{Stated, run_fault};

use crate::loaded::{machine_of, memory_of, regs};
use crate::teller::StateTeller;
use crate::turns::tell_states;
use sbx_counts::on_windows;
use sbx_image::Image;
use sbx_raw::{RunFault, SlicePort, begun};
use std::alloc::Global;
use std::io::Write;
use v8_board::Board;
use v8_mmu::PortFault;

/// The fault of a run whose port or writer has this one.
pub fn run_fault(fault: PortFault) -> RunFault
    ensures { result ≡ run_fault fault }
{
    match fault {
        PortFault::Memory(want) => RunFault::Memory(want),
        PortFault::Reader => RunFault::Reader,
        PortFault::Writer => RunFault::Writer,
    }
}

/// The states of a run from where a board stands into which an image was loaded.
fn states_of<const N: usize, W: Write>(
    alloc: Global,
    board: &Board<N, SlicePort<'_>>,
    input: &[u8],
    limit: u64,
    out: &mut W,
) -> Result<(), RunFault>
    requires range { (4 ≤ N) × (N ≤ 32) }
    requires state { IsState N board.now.state.mmu board.now.state.world }
    ensures { (parts : Parts) → IsBegun N parts input.now board.now.state →
        Stated N parts input.now limit (W.contents out.old) (W.contents out.new) result }
{
    let known = memory_of(alloc, board, input)?;
    let memory = memory_of(alloc, board, input)?;
    let regs = regs();
    let mut machine = machine_of::<N, _>(memory, &regs);
    let mut teller = StateTeller::new(alloc, known);
    match tell_states(&mut machine, &regs, limit, &mut teller, out) {
        Ok(()) => Ok(()),
        Err(fault) => Err(run_fault(fault)),
    }
}

/// The states on `N` windows, which are as many as the number says.
#[tactic(auto, using(crate::proofs::OfImages::begun_state))]
fn states_on<const N: usize, W: Write>(
    alloc: Global,
    windows: u32,
    image: &Image,
    input: &[u8],
    limit: u64,
    out: &mut W,
) -> Result<(), RunFault>
    requires range { (4 ≤ N) × (N ≤ 32) }
    requires same { windows ≡ N }
    ensures { Stated windows image.now input.now limit (W.contents out.old) (W.contents out.new) result }
{
    let _ = windows;
    let board = begun::<N>(alloc, image, input)?;
    states_of(alloc, &board, input, limit, out)
}

/// Runs an image on an input, on so many windows, 4 to 32, to an end, but at most so many turns, and writes a line of
/// its states before the first turn, one for each, and one behind the last, as `tell_states` does.
/// Where the writer fails, or memory is refused, it has the first bytes of such a text. What the program puts out is
/// kept, so that memory grows by it. Each count is a machine of its own.
pub fn state_windows<W: Write>(
    alloc: Global,
    windows: u32,
    image: &Image,
    input: &[u8],
    limit: u64,
    out: &mut W,
) -> Result<(), RunFault>
    requires { (4 ≤ windows) × (windows ≤ 32) }
    ensures { Stated windows image.now input.now limit (W.contents out.old) (W.contents out.new) result }
{
    on_windows!(windows, states_on [W] (alloc, windows, image, input, limit, out), 4 to 32)
}
