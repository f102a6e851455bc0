//! A machine as a board has it once an image is loaded.
ghost use Rattle.std.specs.Prelude.{◌≡◌, ◌≤◌, ◌+◌, ◌%◌, [], false, length, IfErr, IfOk, None, Some};
ghost use Rattle.v8_board.specs.States.{IsState};
ghost use Rattle.v8_core.specs.Ram.{entry_of};
ghost use Rattle.v8_core.specs.Registers.{booted};
ghost use Rattle.v8_map.specs.declared.TheConstants.{CONTEXT_TABLE, RAM};
ghost use Rattle.v8_core.specs.Walked.{root_of};
ghost use Rattle.v8_memory.specs.Board.{seen};
ghost use Rattle.inspect_states.specs.Told.{device_of, unbooted};
ghost use Rattle.want.specs.Wants.{refused};

use sbx_raw::{RunFault, SlicePort};
use std::alloc::Global;
use v8_board::Board;
use v8_core::Machine;
use v8_map::{CONTEXT_TABLE, RAM};
use v8_memory::Memory;
use v8_mmu::{Bus, MmuRegs};

/// The registers of a board's MMU.
pub fn regs() -> MmuRegs
    ensures { root_of result ≡ CONTEXT_TABLE }
{
    MmuRegs {
        table: CONTEXT_TABLE as u64,
        context: 0,
    }
}

/// The words of RAM.
const WORDS: u64 = RAM as u64 / 4;

/// The word of a board's RAM at a place that there is.
fn word_at<const N: usize>(board: &Board<N, SlicePort<'_>>, place: u64) -> u32
    requires whole { place % 4 ≡ 0 }
    requires fits { place + 4 ≤ length board.now.state.world.memory.ram }
    ensures { entry_of board.now.state.world.memory.ram place ≡ Some result }
{
    match board.entry(place) {
        Some(word) => word,
        None => unreachable!(),
    }
}

/// Writes each word of a board's RAM to a memory.
fn copy_ram<const N: usize>(board: &Board<N, SlicePort<'_>>, memory: &mut Memory<SlicePort<'_>>)
    requires size { length memory.old.ram ≡ RAM }
    requires state { IsState N board.now.state.mmu board.now.state.world }
    ensures ram { memory.new.ram ≡ board.now.state.world.memory.ram }
    ensures device { device_of memory.new ≡ device_of memory.old }
{
    for number in 0..WORDS {
        memory.set_entry(4 * number, word_at(board, 4 * number));
    }
}

/// A memory with a board's RAM, and a device that has this input to give and has put nothing out.
pub fn memory_of<'a, const N: usize>(
    alloc: Global,
    board: &Board<N, SlicePort<'_>>,
    input: &'a [u8],
) -> Result<Memory<SlicePort<'a>>, RunFault>
    requires { IsState N board.now.state.mmu board.now.state.world }
    ensures ram { IfOk result (λ memory. memory.ram ≡ board.now.state.world.memory.ram) }
    ensures device { IfOk result (λ memory. device_of memory ≡ seen input.now false [] None) }
    ensures fault { IfErr result (λ fault. fault ≡ RunFault.Memory refused) }
{
    match Memory::new(alloc, SlicePort::new(alloc, input)) {
        Ok(memory) => {
            let mut memory = memory;
            copy_ram(board, &mut memory);
            Ok(memory)
        }
        Err(error) => Err(RunFault::from(error)),
    }
}

/// A machine that has booted twice, as a board does: when it is made, and when an image is loaded.
pub fn machine_of<const N: usize, B: Bus>(memory: B, regs: &MmuRegs) -> Machine<N, B>
    requires at_least { 4 ≤ N }
    requires at_most { N ≤ 32 }
    ensures cpu { result.cpu ≡ booted N (booted N (unbooted N)) }
    ensures mmu { result.mmu ≡ regs.now }
    ensures bus { result.bus ≡ memory }
{
    let mut machine = Machine::new(memory, *regs);
    machine.boot();
    machine
}
