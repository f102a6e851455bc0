//! What a machine shows beside its registers and its memory.
ghost use Rattle.std.specs.Prelude.{◌≡◌};
ghost use Rattle.inspect_states.specs.Columns.{shown_of};

use v8_core::Machine;
use v8_mmu::Bus;

/// What a machine shows beside its registers and its memory: PC, nPC, the state registers and Y as words (chapter 4),
/// and the fault status (appendix H).
#[derive(Clone, Copy)]
pub struct ShownState {
    pub pc: u32,
    pub npc: u32,
    pub psr: u32,
    pub wim: u32,
    pub tbr: u32,
    pub y: u32,
    pub fault: u32,
}

/// What a machine shows.
pub fn shown_of<const N: usize, B: Bus>(machine: &Machine<N, B>) -> ShownState
    ensures { result ≡ shown_of N machine.now.cpu }
{
    ShownState {
        pc: machine.pc(),
        npc: machine.npc(),
        psr: machine.psr(),
        wim: machine.wim(),
        tbr: machine.tbr(),
        y: machine.y(),
        fault: machine.fault_status(),
    }
}
