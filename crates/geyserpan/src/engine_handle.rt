//! The slot of a run on the engine, as a caller outside has it: by its pointer.
ghost use Rattle.std.specs.Prelude.{◌≡◌};
ghost use Rattle.std.specs.Box.Ownership.{box_owns};
ghost use Rattle.std.specs.contracts.impls.GlobalAllocator.TheImpl.{ghosts};
ghost use Rattle.geyserpan.specs.declared.engine_slot.EngineSlot.{EngineSlot};
ghost use Rattle.geyserpan.specs.contracts.engine_slot.EngineSlot.{the_row};

use crate::engine_slot::EngineSlot;
use crate::loose::Loose;
use std::alloc::Global;
use std::marker::Model;

/// A pointer to it, and the right to it. C hands it over as the pointer.
#[repr(C)]
pub struct EngineHandle {
    at: *mut u8,
    alloc: Global,
    ghost value: { EngineSlot },
}

impl Model for EngineHandle {
    ghost also_owns = { λ h. box_owns (ghosts.dealloc_token h.alloc) the_row h.at h.value };
}

unsafe impl Send for EngineHandle {}

impl EngineHandle {
    ghost use Rattle.std.specs.Borrow.{Lends, sem};
    ghost use Rattle.geyserpan.specs.contracts.engine_handle.EngineHandle.{the_row as handle_row};

    /// Names what lies at the pointer.
    pub fn loosen(self) -> Loose<EngineSlot, Global>
        ensures { result.value ≡ self.value }
    {
        let EngineHandle { at, alloc } = self;
        Loose {
            at: at as *mut EngineSlot,
            alloc,
        }
    }

    /// What lies at the pointer, as long as the handle is lent.
    pub fn lent(&mut self) -> &mut EngineSlot
        ensures* writes_back { sem 𝓛 (Lends handle_row the_row self.entry result (λ w. record self.old { value = w })) }
        ensures value { result.now ≡ self.old.value }
    {
        unsafe { &mut *(self.at as *mut EngineSlot) }
    }
}
