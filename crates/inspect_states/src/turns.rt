//! The turns of a machine, one after the other.
ghost use Rattle.std.specs.Prelude.{◌≡◌, ◌<◌, ◌^◌, ◌-◌, ◌++◌, IfErr, IfOk, OnErr, OnOk, string_bytes};
ghost use Rattle.std.specs.Io.KnownBytes.{Appends};
ghost use Rattle.sbx_put.specs.Fronts.{Wrote, WroteSome};
ghost use Rattle.v8_core.specs.Completes.{world_of};
ghost use Rattle.inspect_states.specs.Lines.{end_line, start_line, told_registers};
ghost use Rattle.inspect_states.specs.Runs.{BeginsStates, IsFaultOf, IsOwnFault, IsPart, IsStates, ToldRun, ToldSome};
ghost use Rattle.inspect_states.specs.Runs.{ToldTurn, is_over};

use crate::shown::shown_of;
use crate::teller::StateTeller;
use sbx_put::{put_all, put_through};
use std::io::Write;
use v8_core::Machine;
use v8_mmu::{Bus, MmuRegs, PortFault};
use want::Want;

/// Whether the device has stopped a machine, or it is in error mode.
fn is_over<const N: usize, B: Bus>(machine: &Machine<N, B>) -> bool
    ensures { result ≡
        is_over B.meaning N (world_of N machine.now.cpu (B.state machine.now.bus)).held }
{
    machine.bus().stop().is_some() || machine.error_mode().is_some()
}

/// Makes a turn, and writes its line.
fn tell_turn<const N: usize, B: Bus, W: Write>(
    machine: &mut Machine<N, B>,
    mmu: &MmuRegs,
    number: u64,
    teller: &mut StateTeller<N, B>,
    out: &mut W,
) -> Result<(), PortFault>
    requires { machine.old.mmu ≡ mmu.now }
    ensures mmu { machine.new.mmu ≡ machine.old.mmu }
    ensures whole { OnOk result (ToldTurn B.meaning N mmu.now number
        (world_of N machine.old.cpu (B.state machine.old.bus)).held
        (world_of N machine.new.cpu (B.state machine.new.bus)).held
        (record { registers = teller.old.registers; ram = (B.state teller.old.memory).held.ram })
        (record { registers = teller.new.registers; ram = (B.state teller.new.memory).held.ram })
        (W.contents out.old) (W.contents out.new)) }
    ensures part { OnErr result (ToldSome B.meaning N mmu.now number
        (world_of N machine.old.cpu (B.state machine.old.bus)).held
        (record { registers = teller.old.registers; ram = (B.state teller.old.memory).held.ram })
        (W.contents out.old) (W.contents out.new)) }
    ensures fault { IfErr result (IsFaultOf (B.state machine.new.bus).port.fault) }
{
    let before = shown_of(machine);
    let turn = match machine.step() {
        Ok(turn) => turn,
        Err(fault) => return Err(fault),
    };
    match teller.make_line(mmu, number, &before, &turn, machine) {
        Ok(()) => {}
        Err(error) => return Err(PortFault::Memory(Want::from(error))),
    }
    match put_all(out, teller.line.as_bytes()) {
        Ok(()) => Ok(()),
        Err(_) => Err(PortFault::Writer),
    }
}

/// Makes turns until the machine is over, but at most so many, writes the line of each, and gives how many there were.
fn tell_turns<const N: usize, B: Bus, W: Write>(
    machine: &mut Machine<N, B>,
    mmu: &MmuRegs,
    limit: u64,
    teller: &mut StateTeller<N, B>,
    out: &mut W,
) -> Result<u64, PortFault>
    requires { machine.old.mmu ≡ mmu.now }
    ensures mmu { machine.new.mmu ≡ machine.old.mmu }
    ensures whole { IfOk result (λ count. ToldRun B.meaning N mmu.now limit
        (world_of N machine.old.cpu (B.state machine.old.bus)).held
        (world_of N machine.new.cpu (B.state machine.new.bus)).held count
        (record { registers = teller.old.registers; ram = (B.state teller.old.memory).held.ram })
        (record { registers = teller.new.registers; ram = (B.state teller.new.memory).held.ram })
        (W.contents out.old) (W.contents out.new)) }
    ensures part { OnErr result (Wrote (W.contents out.old) (W.contents out.new) (IsPart B.meaning N mmu.now limit
        (world_of N machine.old.cpu (B.state machine.old.bus)).held
        (record { registers = teller.old.registers; ram = (B.state teller.old.memory).held.ram }))) }
    ensures fault { IfErr result (IsFaultOf (B.state machine.new.bus).port.fault) }
{
    for done in 0..limit {
        if is_over(machine) {
            return Ok(done);
        }
        match tell_turn(machine, mmu, done + 1, teller, out) {
            Ok(()) => {}
            Err(fault) => return Err(fault),
        }
    }
    Ok(limit)
}

/// Writes the line before the first turn.
fn put_start<const N: usize, B: Bus, W: Write>(
    machine: &Machine<N, B>,
    teller: &mut StateTeller<N, B>,
    out: &mut W,
) -> Result<(), PortFault>
    ensures whole { OnOk result
        (Appends (W.contents out.old) (W.contents out.new) (start_line N teller.old.registers machine.now.cpu)) }
    ensures part { OnErr result
        (WroteSome (W.contents out.old) (W.contents out.new) (start_line N teller.old.registers machine.now.cpu)) }
    ensures fault { IfErr result IsOwnFault }
    ensures registers { OnOk result (teller.new.registers ≡ told_registers N teller.old.registers machine.now.cpu) }
    ensures memory { teller.new.memory ≡ teller.old.memory }
{
    match teller.make_start(machine) {
        Ok(()) => {}
        Err(error) => return Err(PortFault::Memory(Want::from(error))),
    }
    match put_all(out, teller.line.as_bytes()) {
        Ok(()) => Ok(()),
        Err(_) => Err(PortFault::Writer),
    }
}

/// Writes the line behind the last turn, through to the end.
fn put_end<const N: usize, B: Bus, W: Write>(
    machine: &Machine<N, B>,
    number: u64,
    teller: &mut StateTeller<N, B>,
    out: &mut W,
) -> Result<(), PortFault>
    ensures whole { OnOk result
        (Appends (W.contents out.old) (W.contents out.new) (end_line N number machine.now.cpu)) }
    ensures part { OnErr result
        (WroteSome (W.contents out.old) (W.contents out.new) (end_line N number machine.now.cpu)) }
    ensures fault { IfErr result IsOwnFault }
{
    match teller.make_end(number, machine) {
        Ok(()) => {}
        Err(error) => return Err(PortFault::Memory(Want::from(error))),
    }
    match put_through(out, teller.line.as_bytes()) {
        Ok(()) => Ok(()),
        Err(_) => Err(PortFault::Writer),
    }
}

/// Runs a machine until the device stops it or it is in error mode, but at most so many turns, and writes a line before
/// the first turn, one for each, and one behind the last, through to the end: what the machine showed before it, the
/// word, what happened, its data access, and the registers and the words of RAM that are others than the lines before
/// told. Where the port or the writer fails, or memory is refused, which the fault tells, the writer has the first
/// bytes of such lines.
pub fn tell_states<const N: usize, B: Bus, W: Write>(
    machine: &mut Machine<N, B>,
    mmu: &MmuRegs,
    limit: u64,
    teller: &mut StateTeller<N, B>,
    out: &mut W,
) -> Result<(), PortFault>
    requires { machine.old.mmu ≡ mmu.now }
    ensures mmu { machine.new.mmu ≡ machine.old.mmu }
    ensures whole { OnOk result (Wrote (W.contents out.old) (W.contents out.new) (IsStates B.meaning N mmu.now limit
        (world_of N machine.old.cpu (B.state machine.old.bus)).held
        (world_of N machine.new.cpu (B.state machine.new.bus)).held
        (record { registers = teller.old.registers; ram = (B.state teller.old.memory).held.ram }))) }
    ensures part { OnErr result (Wrote (W.contents out.old) (W.contents out.new) (BeginsStates B.meaning N mmu.now limit
        (world_of N machine.old.cpu (B.state machine.old.bus)).held
        (record { registers = teller.old.registers; ram = (B.state teller.old.memory).held.ram }))) }
    ensures fault { IfErr result (IsFaultOf (B.state machine.new.bus).port.fault) }
{
    match put_start(machine, teller, out) {
        Ok(()) => {}
        Err(fault) => return Err(fault),
    }
    match tell_turns(machine, mmu, limit, teller, out) {
        Ok(count) => put_end(machine, count, teller, out),
        Err(fault) => Err(fault),
    }
}
