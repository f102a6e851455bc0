//! The law of the window overflow handler, as the contract of a function that does nothing.
ghost use Rattle.v8_routines.specs.Overflow.{OverflowLaw};

/// A SAVE into the window that WIM forbids traps, and the 23 turns of the handler that follow store the locals and ins
/// of the window below that one in the 64 bytes from its %sp on and move WIM's bit to it. The SAVE then stands at PC
/// again, and nothing has changed but the locals of the window that the trap entered, PS, tt, and R and M of pages.
pub fn overflow_handler_spills()
    ensures { OverflowLaw }
{}
