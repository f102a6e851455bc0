//! The slot of a run in pieces, as a caller outside has it: by its pointer.
ghost use Rattle.std.specs.Prelude.{◌≡◌};
ghost use Rattle.std.specs.Box.Ownership.{box_owns};
ghost use Rattle.std.specs.contracts.impls.GlobalAllocator.TheImpl.{ghosts};
ghost use Rattle.geyserpan.specs.declared.run_slot.RunSlot.{RunSlot};
ghost use Rattle.geyserpan.specs.contracts.run_slot.RunSlot.{the_row};

use crate::loose::Loose;
use crate::run_slot::RunSlot;
use std::alloc::Global;
use std::marker::Model;

/// A pointer to it, and the right to it. C hands it over as the pointer.
#[repr(C)]
pub struct RunHandle {
    at: *mut u8,
    alloc: Global,
    ghost value: { RunSlot },
}

impl Model for RunHandle {
    ghost also_owns = { λ h. box_owns (ghosts.dealloc_token h.alloc) the_row h.at h.value };
}

unsafe impl Send for RunHandle {}

impl RunHandle {
    ghost use Rattle.std.specs.Borrow.{Lends, sem};
    ghost use Rattle.geyserpan.specs.contracts.run_handle.RunHandle.{the_row as handle_row};

    /// Names what lies at the pointer.
    pub fn loosen(self) -> Loose<RunSlot, Global>
        ensures { result.value ≡ self.value }
    {
        let RunHandle { at, alloc } = self;
        Loose {
            at: at as *mut RunSlot,
            alloc,
        }
    }

    /// What lies at the pointer, as long as the handle is lent.
    pub fn lent(&mut self) -> &mut RunSlot
        ensures* writes_back { sem 𝓛 (Lends handle_row the_row self.entry result (λ w. record self.old { value = w })) }
        ensures value { result.now ≡ self.old.value }
    {
        unsafe { &mut *(self.at as *mut RunSlot) }
    }
}
