//! Who tells the turns of a machine.
ghost use Rattle.std.specs.Prelude.{◌≤◌};

use crate::accesses::{push_access, push_output};
use crate::changes::{push_boot_registers, push_registers, push_state};
use crate::events::{push_counters, push_event};
use crate::named::Named;
use crate::operands::{has_byte, refused_address};
use crate::tables::Tables;
use inspect_states::{ShownState, shown_of};
use std::alloc::{AllocError, Global};
use v8_core::{Machine, Turn};
use v8_memory::{Memory, Port};
use v8_mmu::{Bus, MmuRegs};
use v8_windows::RegFile;

/// Who tells the turns of a machine: what the lines so far tell of it, and what they name.
#[derive(Drop)]
pub struct PageTeller<const N: usize> {
    registers: RegFile<N>,
    tables: Tables,
    shown: ShownState,
    pub named: Named,
}

/// Pushes that a turn got a byte, if it did.
fn push_got<const N: usize, B: Bus>(
    out: &mut String,
    machine: &Machine<N, B>,
    turn: &Turn,
) -> Result<(), AllocError> {
    if has_byte(machine, turn) {
        out.push('u')
    } else {
        Ok(())
    }
}

impl<const N: usize> PageTeller<N> {
    /// Nothing is told yet of the registers but that they are 0.
    pub fn new<B: Bus>(alloc: Global, machine: &Machine<N, B>) -> Result<Self, AllocError>
        requires { (4 ≤ N) × (N ≤ 32) }
    {
        Ok(PageTeller {
            registers: RegFile::new(),
            tables: Tables::of(alloc, machine.bus())?,
            shown: shown_of(machine),
            named: Named::new(alloc),
        })
    }

    /// Pushes the lines of a machine before its first turn: table words, PC, nPC, PSR, WIM, TBR, Y, and registers.
    pub fn push_boot<B: Bus>(
        &mut self,
        out: &mut String,
        machine: &Machine<N, B>,
    ) -> Result<(), AllocError>
        requires { (4 ≤ N) × (N ≤ 32) }
    {
        self.tables.push(out)?;
        let ShownState {
            pc,
            npc,
            psr,
            wim,
            tbr,
            y,
            ..
        } = self.shown;
        writeln!(out, "r{pc:X} {npc:X} {psr:X} {wim:X} {tbr:X} {y:X}")?;
        push_boot_registers(out, &mut self.registers, machine)
    }

    /// Pushes the items of a turn that tell what it did: what happened, where it led, registers and state registers.
    fn push_effects<B: Bus>(
        &mut self,
        out: &mut String,
        machine: &Machine<N, B>,
        turn: &Turn,
    ) -> Result<(), AllocError>
        requires { (4 ≤ N) × (N ≤ 32) }
    {
        let (before, now) = (self.shown, shown_of(machine));
        self.shown = now;
        self.named.take(turn, now.fault)?;
        push_event(out, turn)?;
        push_counters(out, &before, &now, &turn.event)?;
        push_registers(out, &mut self.registers, machine)?;
        push_state(out, &before, &now)
    }

    /// Pushes the line of a turn, behind which the machine is.
    pub fn push_turn<P: Port>(
        &mut self,
        out: &mut String,
        machine: &Machine<N, Memory<P>>,
        regs: &MmuRegs,
        turn: &Turn,
        output: &[u8],
    ) -> Result<(), AllocError>
        requires { (4 ≤ N) × (N ≤ 32) }
    {
        let refused = refused_address(&self.registers, turn);
        self.push_effects(out, machine, turn)?;
        push_access(out, machine.bus(), turn, refused)?;
        self.tables.push_marks(out, machine.bus(), regs, turn)?;
        push_output(out, output)?;
        push_got(out, machine, turn)?;
        out.push('\n')
    }
}
