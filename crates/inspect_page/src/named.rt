//! What the lines of turns name by numbers alone: traps, fault statuses, and places of the machine's own code.
use crate::digits::{push_bytes, push_word};
use crate::events::trap_of;
use inspect_lines::{FaultStatus, trap_name};
use inspect_states::ShownState;
use std::alloc::{AllocError, Global};
use std::collections::BTreeSet;
use v8_core::{Machine, Turn};
use v8_map::TRAP_TABLE;
use v8_mmu::{Bus, MmuRegs, follow};
use v8_word::TrapType;

/// How many bytes stand before the words of a fault status: its digits, a colon and a blank.
const STATUS: usize = 10;

/// What the lines so far name.
#[derive(Drop)]
pub struct Named {
    traps: BTreeSet<u8>,
    faults: BTreeSet<u32>,
    /// Addresses of the machine's own code.
    places: BTreeSet<u32>,
}

/// Whether a trap comes with a fault status: an access was refused.
fn has_status(trap: TrapType) -> bool {
    matches!(trap.number(), 0x01 | 0x09)
}

/// Pushes the line of a trap: its number and its name.
fn push_trap(out: &mut String, number: u8) -> Result<(), AllocError> {
    write!(out, "k{number:02X} ")?;
    push_bytes(out, trap_name(TrapType::new(number)).as_bytes())?;
    out.push('\n')
}

/// Pushes the line of a fault status: its number, and its words.
fn push_fault(alloc: Global, out: &mut String, status: u32) -> Result<(), AllocError> {
    let told = FaultStatus(status);
    let text = format!(in alloc; "{told}")?;
    write!(out, "q{status:X} ")?;
    for byte in text.as_bytes().iter().skip(STATUS) {
        out.push(*byte as char)?;
    }
    out.push('\n')
}

/// Pushes the line of the word at an address that leads to RAM.
fn push_place<B: Bus>(
    out: &mut String,
    bus: &B,
    regs: &MmuRegs,
    address: u32,
) -> Result<(), AllocError> {
    let word = match follow(bus, regs, address) {
        Ok(path) => bus.entry(path.found.pa),
        Err(_) => None,
    };
    match word {
        Some(word) => push_word(out, address, word),
        None => Ok(()),
    }
}

impl Named {
    /// Nothing is named yet.
    pub fn new(alloc: Global) -> Named {
        Named {
            traps: BTreeSet::new(alloc),
            faults: BTreeSet::new(alloc),
            places: BTreeSet::new(alloc),
        }
    }

    /// Takes in an address, if it is of the machine's own code.
    fn take_place(&mut self, address: u32) -> Result<(), AllocError> {
        if address >= TRAP_TABLE {
            self.places.insert(address)?;
        }
        Ok(())
    }

    /// Takes in a turn, behind which the machine has that fault status.
    pub fn take(&mut self, turn: &Turn, status: u32) -> Result<(), AllocError> {
        if turn.word.is_some() {
            self.take_place(turn.pc)?;
        }
        let Some(trap) = trap_of(&turn.event) else {
            return Ok(());
        };
        self.traps.insert(trap.number())?;
        if has_status(trap) {
            self.faults.insert(status)?;
        }
        Ok(())
    }

    /// Takes in where a run goes on that was cut short.
    pub fn take_next(&mut self, shown: &ShownState) -> Result<(), AllocError> {
        self.take_place(shown.pc)?;
        self.take_place(shown.npc)
    }

    /// Pushes the words of the machine's own code, and the names of the traps and of the fault statuses.
    pub fn push<const N: usize, B: Bus>(
        &self,
        alloc: Global,
        out: &mut String,
        machine: &Machine<N, B>,
        regs: &MmuRegs,
    ) -> Result<(), AllocError> {
        self.push_places(out, machine.bus(), regs)?;
        self.push_traps(out)?;
        self.push_faults(alloc, out)
    }

    fn push_places<B: Bus>(
        &self,
        out: &mut String,
        bus: &B,
        regs: &MmuRegs,
    ) -> Result<(), AllocError> {
        for address in &self.places {
            push_place(out, bus, regs, *address)?;
        }
        Ok(())
    }

    fn push_traps(&self, out: &mut String) -> Result<(), AllocError> {
        for number in &self.traps {
            push_trap(out, *number)?;
        }
        Ok(())
    }

    fn push_faults(&self, alloc: Global, out: &mut String) -> Result<(), AllocError> {
        for status in &self.faults {
            push_fault(alloc, out, *status)?;
        }
        Ok(())
    }
}
