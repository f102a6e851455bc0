//! The law of the underflow handler. It is the contract of a function that does nothing.
ghost use Rattle.v8_routines.specs.Underflow.{UnderflowLaw};

/// On a loaded board of 4 to 32 windows, a user's RESTORE into the marked window traps 06, and the 23 turns after it
/// load that window's locals and ins from the 64 bytes at its %sp, mark the next window in its place, and come back to
/// the RESTORE. Else only the locals of the window that the trap entered, PS, tt, and R and M of page entries differ.
pub fn underflow_handler_refills()
    ensures { UnderflowLaw }
{}
