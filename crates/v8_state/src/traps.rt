//! Which traps apply, and the entry into one (chapter 7).
ghost use Rattle.std.specs.Prelude.{◌≡◌, ℕ, ◌+◌, ◌*◌, ◌/◌, ◌%◌, ◌^◌, ◌<◌, ◌≤◌, IfOk, OnErr, OnOk, IsTrue, Some, None};
ghost use Rattle.std.specs.Prelude.{false};
ghost use Rattle.v8_state.specs.Effects.{address_of};
ghost use Rattle.v8_state.specs.Traps.{entered, first_memory_trap, memory_applies, trap_of};

use crate::state::Cpu;
use v8_meaning::{MemoryOperand, bytes_in, is_missing, is_normal, is_unknown, splits_pair};
use v8_word::{Size, TrapType};

impl<const N: usize> Cpu<N> {
    /// The address of a load or store of this size, or the trap that it meets before memory is reached.
    #[tactic(auto, unfolding(crate::specs::Traps::memory_applies))]
    #[inline(always)]
    pub fn reach(&self, size: Size, operand: &MemoryOperand) -> Result<u32, TrapType>
        ensures trap { trap_of result ≡ first_memory_trap N self.now size operand.now }
        ensures address { IfOk result (λ va. va ≡ address_of N self.now operand.now.rs1 operand.now.operand2) }
    {
        if !is_normal(operand.space) && !self.control.s {
            return Err(TrapType::PRIVILEGED_INSTRUCTION);
        }
        if is_missing(operand.space) || splits_pair(size, operand.rd) {
            return Err(TrapType::ILLEGAL_INSTRUCTION);
        }
        let va = self.address(operand.rs1, &operand.operand2);
        if va % bytes_in(size) != 0 {
            return Err(TrapType::MEM_ADDRESS_NOT_ALIGNED);
        }
        if is_unknown(operand.space) {
            return Err(TrapType::DATA_ACCESS_EXCEPTION);
        }
        Ok(va)
    }

    /// Takes a trap, or enters error mode where traps are disabled.
    #[tactic(auto, unfolding(crate::specs::Traps::entered))]
    pub fn enter(&mut self, trap: TrapType)
        ensures { self.new ≡ entered N self.old trap }
    {
        self.control.tt = trap;
        if !self.control.et {
            self.control.error = Some(trap);
            return;
        }
        self.regs.enter_trap(self.control.pc, self.control.npc);
        self.control.ps = self.control.s;
        self.control.s = true;
        self.control.et = false;
        self.control.annul = false;
        self.control.pc = self
            .control
            .base
            .wrapping_add(u32::from(trap.number()) * 16);
        self.control.npc = self.control.pc.wrapping_add(4);
    }
}
