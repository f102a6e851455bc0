//! Who tells the lines.
ghost use Rattle.std.specs.Prelude.{◌≡◌, ◌≤◌, ◌++◌, [], codes, OnOk, string_bytes, replicate};
ghost use Rattle.v8_mmu.specs.Walked.{root_of};
ghost use Rattle.inspect_states.specs.Accesses.{EntryIs, EntryOfIs, access_text, second_place, stored_place};
ghost use Rattle.inspect_states.specs.Columns.{annul_text, columns_text, outcome_text, shown_of};
ghost use Rattle.inspect_states.specs.Lines.{IsLine, end_line, registers_text, start_line, told_registers};
ghost use Rattle.inspect_states.specs.Words.{told_words};

use crate::accesses::{access_place, entry_place, push_access, second_place, stored_place};
use crate::columns::{push_columns, push_outcome};
use crate::registers::{copy_window, enter, push_changes};
use crate::shown::{ShownState, shown_of};
use crate::words::{Places, push_words};
use std::alloc::{AllocError, Global};
use v8_core::{Event, Machine, Turn};
use v8_mmu::{Bus, MmuRegs};
use v8_windows::RegFile;

/// Who tells the lines of a machine: the last line, and what the lines so far tell of its registers and of its RAM.
#[derive(Drop)]
pub struct StateTeller<const N: usize, B: Bus> {
    pub line: String,
    pub registers: RegFile<N>,
    pub memory: B,
}

/// The annul flag before a turn: an instruction is annulled where it is set.
fn annul_text(event: &Event) -> &'static str
    ensures { result.now ≡ annul_text event.now }
{
    match event {
        Event::Annulled => "1",
        _ => "0",
    }
}

/// Pushes what a turn's line begins with, and its access.
fn push_turn(
    line: &mut String,
    number: u64,
    before: &ShownState,
    turn: &Turn,
) -> Result<(), AllocError>
    ensures { OnOk result
        (string_bytes line.new ≡
        string_bytes line.old
        ++ (columns_text number (annul_text turn.now.event) before.now ++ outcome_text turn.now
        ++ access_text turn.now.access)) }
{
    push_columns(line, number, annul_text(&turn.event), before)?;
    push_outcome(line, turn)?;
    push_access(line, &turn.access)
}

/// Where the words lie that a turn may have changed, by walks in a memory.
fn places_of<B: Bus>(memory: &B, mmu: &MmuRegs, pc: u32, turn: &Turn) -> Places
    ensures fetched { EntryIs (B.state memory.now).held.ram (root_of mmu.now) pc result.fetched }
    ensures accessed { EntryOfIs (B.state memory.now).held.ram (root_of mmu.now) turn.now.access result.accessed }
    ensures stored { result.stored ≡ stored_place turn.now.access }
    ensures second { result.second ≡ second_place turn.now.access }
{
    Places {
        fetched: entry_place(memory, mmu, pc),
        accessed: access_place(memory, mmu, &turn.access),
        stored: stored_place(&turn.access),
        second: second_place(&turn.access),
    }
}

impl<const N: usize, B: Bus> StateTeller<N, B> {
    /// Nothing is known of the registers but that they are 0; of RAM, what this memory holds.
    pub fn new(alloc: Global, memory: B) -> Self
        requires { (4 ≤ N) × (N ≤ 32) }
        ensures registers { result.registers ≡
            record { globals = replicate 8 0; words = replicate N (replicate 16 0); current = 0; mask = 0 } }
        ensures memory { result.memory ≡ memory }
    {
        StateTeller {
            line: String::new(alloc),
            registers: RegFile::new(),
            memory,
        }
    }

    /// Pushes the registers of a machine's window that hold other words than is known, and takes them over.
    fn put_registers(&mut self, machine: &Machine<N, B>) -> Result<(), AllocError>
        ensures text { OnOk result
            (string_bytes self.new.line ≡
            string_bytes self.old.line ++ registers_text N self.old.registers machine.now.cpu) }
        ensures registers { OnOk result (self.new.registers ≡ told_registers N self.old.registers machine.now.cpu) }
        ensures memory { self.new.memory ≡ self.old.memory }
    {
        enter(&mut self.registers, (machine.psr() % 32) as u8);
        push_changes(&mut self.line, &self.registers, machine)?;
        copy_window(&mut self.registers, machine);
        Ok(())
    }

    /// Pushes what a turn changed: registers, and the words at some places.
    fn put_changes(&mut self, machine: &Machine<N, B>, places: &Places) -> Result<(), AllocError>
        ensures text { OnOk result (string_bytes self.new.line ≡
            string_bytes self.old.line ++ (registers_text N self.old.registers machine.now.cpu
            ++ (told_words (B.state self.old.memory).held.ram (B.state machine.now.bus).held.ram places.now).0
            ++ codes "\n")) }
        ensures registers { OnOk result (self.new.registers ≡ told_registers N self.old.registers machine.now.cpu) }
        ensures memory { OnOk result
            ((B.state self.new.memory).held.ram ≡
            (told_words (B.state self.old.memory).held.ram (B.state machine.now.bus).held.ram places.now).1) }
    {
        self.put_registers(machine)?;
        push_words(&mut self.line, &mut self.memory, machine.bus(), places)?;
        self.line.push_str("\n")
    }

    /// Makes the line of a turn: what the machine showed before it, the word, what happened, and what it changed.
    pub fn make_line(
        &mut self,
        mmu: &MmuRegs,
        number: u64,
        before: &ShownState,
        turn: &Turn,
        machine: &Machine<N, B>,
    ) -> Result<(), AllocError>
        ensures { OnOk result
            (IsLine N (root_of mmu.now) number before.now turn.now machine.now.cpu (B.state machine.now.bus).held.ram
            (record { registers = self.old.registers; ram = (B.state self.old.memory).held.ram })
            (record { registers = self.new.registers; ram = (B.state self.new.memory).held.ram })
            (string_bytes self.new.line)) }
    {
        let places = places_of(&self.memory, mmu, before.pc, turn);
        self.line.clear();
        push_turn(&mut self.line, number, before, turn)?;
        self.put_changes(machine, &places)
    }

    /// Makes the line before the first turn.
    pub fn make_start(&mut self, machine: &Machine<N, B>) -> Result<(), AllocError>
        ensures text { OnOk result (string_bytes self.new.line ≡ start_line N self.old.registers machine.now.cpu) }
        ensures registers { OnOk result (self.new.registers ≡ told_registers N self.old.registers machine.now.cpu) }
        ensures memory { self.new.memory ≡ self.old.memory }
    {
        self.line.clear();
        push_columns(&mut self.line, 0, "-", &shown_of(machine))?;
        self.line.push_str("-------- start")?;
        self.put_registers(machine)?;
        self.line.push_str("\n")
    }

    /// Makes the line behind the last turn.
    pub fn make_end(&mut self, number: u64, machine: &Machine<N, B>) -> Result<(), AllocError>
        ensures { OnOk result (string_bytes self.new.line ≡ end_line N number machine.now.cpu) }
    {
        self.line.clear();
        push_columns(&mut self.line, number, "-", &shown_of(machine))?;
        self.line.push_str("-------- end\n")
    }
}
