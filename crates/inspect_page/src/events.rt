//! What happened in a turn, and where it led.
use inspect_states::ShownState;
use std::alloc::AllocError;
use v8_core::{Event, Turn};
use v8_mmu::Stop;
use v8_word::TrapType;

/// The trap of an event, if it is one.
pub fn trap_of(event: &Event) -> Option<TrapType> {
    match event {
        Event::Trapped(trap) | Event::ErrorMode(trap) => Some(*trap),
        Event::Ran | Event::Annulled | Event::Stopped(_) => None,
    }
}

/// Pushes how the device stopped the machine.
fn push_stop(out: &mut String, stop: &Stop) -> Result<(), AllocError> {
    match *stop {
        Stop::Exit(word) => write!(out, "x{word:X}"),
        Stop::Trapped => out.push('h'),
    }
}

/// Pushes that no word was fetched, unless that is so since it was annulled.
fn push_unfetched(out: &mut String, turn: &Turn) -> Result<(), AllocError> {
    if turn.word.is_some() || matches!(&turn.event, Event::Annulled) {
        Ok(())
    } else {
        out.push('n')
    }
}

/// Pushes what happened, where it is more than that an instruction ran.
pub fn push_event(out: &mut String, turn: &Turn) -> Result<(), AllocError> {
    push_unfetched(out, turn)?;
    match &turn.event {
        Event::Ran => Ok(()),
        Event::Annulled => out.push('a'),
        Event::Trapped(trap) => {
            let number = trap.number();
            write!(out, "t{number:02X}")
        }
        Event::ErrorMode(trap) => {
            let number = trap.number();
            write!(out, "e{number:02X}")
        }
        Event::Stopped(stop) => push_stop(out, stop),
    }
}

/// Where a turn leads that goes on: to what nPC was, or to the vector of its trap, which TBR tells.
fn expected_place(before: &ShownState, now: &ShownState, event: &Event) -> u32 {
    match event {
        Event::Trapped(_) => now.tbr,
        _ => before.npc,
    }
}

/// Pushes PC and nPC behind a turn, where they aren't that place and the word behind it.
pub fn push_counters(
    out: &mut String,
    before: &ShownState,
    now: &ShownState,
    event: &Event,
) -> Result<(), AllocError> {
    let expected = expected_place(before, now, event);
    let (pc, npc) = (now.pc, now.npc);
    if pc != expected {
        write!(out, "p{pc:X}")?;
    }
    if npc != expected.wrapping_add(4) {
        write!(out, "c{npc:X}")?;
    }
    Ok(())
}
