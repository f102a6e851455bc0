//! A machine beside a state that a line has.
ghost use Rattle.std.specs.Prelude.{◌≡◌, ◌↔◌, IsTrue};
ghost use Rattle.v8_turns.specs.Seen.{control_of};

use crate::shut::Shut;
use crate::state::{Control, State};
use v8_core::Machine;
use v8_memory::Memory;
use v8_word::Reg;

/// The machines that lines are tried on.
pub type Tried<const N: usize> = Machine<N, Memory<Shut>>;

/// The state registers of a machine.
fn control_of<const N: usize>(machine: &Tried<N>) -> Control
    ensures { result ≡ control_of N machine.now }
{
    Control {
        pc: machine.pc(),
        npc: machine.npc(),
        psr: machine.psr(),
        wim: machine.wim(),
        tbr: machine.tbr(),
        y: machine.y(),
        status: machine.fault_status(),
    }
}

/// Whether a machine has these state registers: PC, nPC, PSR, WIM, TBR, Y and the fault status.
pub fn has_control<const N: usize>(machine: &Tried<N>, wanted: &Control) -> bool
    ensures { IsTrue result ↔ (control_of N machine.now ≡ wanted.now) }
{
    control_of(machine) == *wanted
}

/// Whether RAM has these words from its beginning on.
pub fn has_memory(memory: &Memory<Shut>, wanted: &[u32]) -> bool {
    let mut same = true;
    let mut place = 0u64;
    for word in wanted {
        same &= memory.word(place) == Some(*word);
        place = place.wrapping_add(4);
    }
    same
}

/// The register of a number below 32.
fn register(number: u8) -> Reg {
    match Reg::new(number) {
        Some(register) => register,
        None => Reg::G0,
    }
}

/// Writes globals, or outs and locals of the current window.
fn put_run<const N: usize>(machine: &mut Tried<N>, first: u8, words: &[u32]) {
    let mut number = first;
    for word in words {
        machine.set_reg(register(number), *word);
        number = number.wrapping_add(1);
    }
}

/// Whether globals, or outs and locals of the current window, are these.
fn has_run<const N: usize>(machine: &Tried<N>, first: u8, words: &[u32]) -> bool {
    let mut same = true;
    let mut number = first;
    for word in words {
        same &= machine.reg(register(number)) == *word;
        number = number.wrapping_add(1);
    }
    same
}

/// Writes all registers. PSR names the last window then, and nothing else.
pub fn put_registers<const N: usize>(machine: &mut Tried<N>, state: &State) {
    put_run(machine, 0, &state.globals);
    let mut window = 0u32;
    for words in state.windows.chunks(16) {
        if machine.set_psr(window) {
            put_run(machine, 8, words);
        }
        window = window.wrapping_add(1);
    }
}

/// Whether all registers are these. PSR is lost.
pub fn has_registers<const N: usize>(machine: &mut Tried<N>, state: &State) -> bool {
    let mut same = has_run(machine, 0, &state.globals);
    let mut window = 0u32;
    for words in state.windows.chunks(16) {
        if machine.set_psr(window) {
            same &= has_run(machine, 8, words);
        }
        window = window.wrapping_add(1);
    }
    same
}
