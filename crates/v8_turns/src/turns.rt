//! Turns: a state before, a word, and the state after.
ghost use Rattle.std.specs.Prelude.{◌≤◌};

use crate::fields::number;
use crate::seen::{Tried, has_control, has_memory, has_registers, put_registers};
use crate::shut::Shut;
use crate::state::{State, WORDS};
use crate::tally::Tally;
use std::alloc::{AllocError, Global};
use v8_core::{Event, Machine};
use v8_memory::Memory;
use v8_mmu::MmuRegs;

/// What a line says happened.
#[derive(Clone, Copy, PartialEq, Eq)]
pub enum Told {
    Ran,
    Annulled,
    Trapped(u8),
    ErrorMode(u8),
}

/// A turn as a line has it.
#[derive(Drop)]
pub struct Case {
    pub windows: u32,
    pub before: State,
    pub told: Told,
    pub after: State,
}

/// The context table of every turn, and its context.
const REGS: MmuRegs = MmuRegs {
    table: 0x1000,
    context: 0,
};

/// What a word of a line says happened.
fn told_by(text: &str) -> Option<Told> {
    match text {
        "ran" => return Some(Told::Ran),
        "annulled" => return Some(Told::Annulled),
        _ => {}
    }
    let (name, digits) = text.split_once('=')?;
    let trap = u8::from_str_radix(digits, 16).ok()?;
    match name {
        "trap" => Some(Told::Trapped(trap)),
        "error" => Some(Told::ErrorMode(trap)),
        _ => None,
    }
}

/// Reads `EVENT FIELD ..`, what a turn leaves of a state.
fn read_after(after: &mut State, text: &str) -> Option<Told> {
    let (event, fields) = text.split_once(' ')?;
    if after.put_all(fields) {
        told_by(event)
    } else {
        None
    }
}

/// The turn of a line: `WINDOWS FIELD .. -> EVENT FIELD ..`, whose fields behind the arrow tell what is another than
/// before.
pub fn read_turn(alloc: Global, ground: &Vec<u32>, text: &str) -> Result<Option<Case>, AllocError> {
    let mut before = State::new(alloc, ground)?;
    let Some((front, back)) = text.split_once(" -> ") else {
        return Ok(None);
    };
    let Some((windows, fields)) = front.split_once(' ') else {
        return Ok(None);
    };
    if !before.put_all(fields) {
        return Ok(None);
    }
    let mut after = before.clone()?;
    match (number(windows), read_after(&mut after, back)) {
        (Some(windows), Some(told)) => Ok(Some(Case {
            windows,
            before,
            told,
            after,
        })),
        _ => Ok(None),
    }
}

/// Whether an event is the one that a line tells.
fn is_event(event: Event, told: Told) -> bool {
    match event {
        Event::Ran => told == Told::Ran,
        Event::Annulled => told == Told::Annulled,
        Event::Trapped(trap) => told == Told::Trapped(trap.number()),
        Event::ErrorMode(trap) => told == Told::ErrorMode(trap.number()),
        Event::Stopped(_) => false,
    }
}

/// A machine with this memory, and these registers but the state registers.
fn machine_of<const N: usize>(alloc: Global, state: &State) -> Result<Tried<N>, AllocError>
    requires at_least { 4 ≤ N }
    requires at_most { N ≤ 32 }
{
    let mut memory = Memory::new(alloc, Shut::NEW)?;
    memory.set_words(0, &state.memory, WORDS as u64);
    let mut machine = Machine::new(memory, REGS);
    put_registers(&mut machine, state);
    Ok(machine)
}

/// Sets the state registers; false where PC or nPC is no multiple of 4, or there is no such window.
fn start<const N: usize>(machine: &mut Tried<N>, state: &State) -> bool {
    let control = state.control;
    if control.pc % 4 != 0 || control.npc % 4 != 0 {
        return false;
    }
    machine.set_wim(control.wim);
    machine.set_tbr(control.tbr);
    machine.set_y(control.y);
    machine.set_pc(control.pc);
    machine.set_npc(control.npc);
    machine.set_psr(control.psr)
}

/// Sets the annul flag, which nothing but a turn does: by the branch in front of PC, which annuls the word behind it.
fn annul<const N: usize>(machine: &mut Tried<N>) -> bool {
    let pc = machine.pc();
    let branch = pc.wrapping_sub(4);
    if pc % 4 != 0 || branch % 4 != 0 {
        return false;
    }
    machine.set_pc(branch);
    machine.set_npc(pc);
    happens(machine) == Some(Event::Ran)
}

/// What happens in the next turn; none where the port failed.
fn happens<const N: usize>(machine: &mut Tried<N>) -> Option<Event> {
    Some(machine.step().ok()?.event)
}

/// Whether the state before a turn is that of a line.
fn is_started<const N: usize>(machine: &mut Tried<N>, state: &State) -> bool {
    if !start(machine, state) || state.annul && !annul(machine) {
        return false;
    }
    has_control(machine, &state.control)
}

/// Whether the machine is in the state that a line tells. It is another afterwards.
fn is_left<const N: usize>(machine: &mut Tried<N>, state: &State) -> bool {
    has_control(machine, &state.control)
        && has_memory(machine.bus(), state.memory.as_slice())
        && has_registers(machine, state)
        && (happens(machine) == Some(Event::Annulled)) == state.annul
}

/// Whether the turn that a machine comes to is the line's. One that is gets counted.
fn comes_to<const N: usize>(machine: &mut Tried<N>, case: &Case, tally: &mut Tally) -> bool {
    let Ok(turn) = machine.step() else {
        return false;
    };
    let same = is_event(turn.event, case.told) && is_left(machine, &case.after);
    if same {
        tally.count_turn(&turn);
    }
    same
}

/// Whether a machine of the line's state agrees with all that the line tells of its turn. One that does is counted.
pub fn agrees<const N: usize>(
    alloc: Global,
    case: &Case,
    tally: &mut Tally,
) -> Result<bool, AllocError>
    requires at_least { 4 ≤ N }
    requires at_most { N ≤ 32 }
{
    let mut machine = machine_of::<N>(alloc, &case.before)?;
    Ok(is_started(&mut machine, &case.before) && comes_to(&mut machine, case, tally))
}
