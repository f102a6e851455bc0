//! What happened in a turn.
use crate::sheet::Sheet;
use inspect_lines::{FaultStatus, Trap};
use std::alloc::AllocError;
use v8_core::Event;
use v8_mmu::Stop;
use v8_word::TrapType;

/// Puts a trap by its name, and the fault status where an access was refused.
fn put_trap(sheet: &mut Sheet, trap: TrapType, status: u32) -> Result<(), AllocError> {
    let name = Trap(trap);
    sheet.put(format_args!("trap {name}"))?;
    match trap.number() {
        0x01 | 0x09 => {
            let status = FaultStatus(status);
            sheet.put(format_args!("fault {status}"))
        }
        _ => Ok(()),
    }
}

/// Puts how the device stopped the machine.
fn put_stop(sheet: &mut Sheet, stop: &Stop) -> Result<(), AllocError> {
    match *stop {
        Stop::Exit(word) => sheet.put(format_args!("exit {word:08X}")),
        Stop::Trapped => sheet.put("stopped"),
    }
}

/// Puts what happened, where it is more than that the instruction ran, with the fault status that the machine has then.
pub fn put_event(sheet: &mut Sheet, event: &Event, status: u32) -> Result<(), AllocError> {
    match event {
        Event::Ran | Event::Annulled => Ok(()),
        Event::Trapped(trap) => put_trap(sheet, *trap, status),
        Event::ErrorMode(trap) => {
            put_trap(sheet, *trap, status)?;
            sheet.put("error mode")
        }
        Event::Stopped(stop) => put_stop(sheet, stop),
    }
}
