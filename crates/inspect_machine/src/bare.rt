//! A machine as a start sets it.
ghost use Rattle.std.specs.Prelude.{◌≡◌, ◌≤◌, ◌%◌, ◌^◌, ◌<◌, [], false, fold, length, IfErr, IfOk, None};
ghost use Rattle.v8_map.specs.declared.TheConstants.{RAM};
ghost use Rattle.v8_memory.specs.Board.{seen};
ghost use Rattle.inspect_start.specs.Starts.{IsFit};
ghost use Rattle.v8_core.specs.Registers.{psr_window, started_with};
ghost use Rattle.inspect_states.specs.Told.{device_of};
ghost use Rattle.inspect_machine.specs.Bare.{SameRest, started, with_control, with_register};
ghost use Rattle.want.specs.Wants.{refused};

use inspect_start::{ControlValue, Register, Start};
use sbx_raw::{RunFault, SlicePort};
use std::alloc::Global;
use v8_core::Machine;
use v8_map::RAM;
use v8_memory::Memory;
use v8_mmu::{Bus, MmuRegs};
use v8_word::Reg;

/// The registers of the MMU that a start sets.
pub fn mmu_of(control: &ControlValue) -> MmuRegs
    requires reach { control.now.table < 2 ^ 36 }
    requires whole { control.now.table % 4 ≡ 0 }
    ensures { (result.table ≡ control.now.table) × (result.context ≡ control.now.context) }
{
    MmuRegs {
        table: control.table,
        context: control.context,
    }
}

/// A memory with these bytes in RAM, and a device that has no input to give and has put nothing out.
pub fn memory_of<'a>(alloc: Global, ram: &'a [u8]) -> Result<Memory<SlicePort<'a>>, RunFault>
    requires { length ram.now ≡ RAM }
    ensures ram { IfOk result (λ memory. memory.ram ≡ ram.now) }
    ensures device { IfOk result (λ memory. device_of memory ≡ seen [] false [] None) }
    ensures fault { IfErr result (λ fault. fault ≡ RunFault.Memory refused) }
{
    match Memory::new(alloc, SlicePort::new(alloc, b"")) {
        Ok(memory) => {
            let mut memory = memory;
            memory.set_bytes(0, ram, RAM as u64);
            Ok(memory)
        }
        Err(error) => Err(RunFault::from(error)),
    }
}

/// Writes a register in its window, where there is that window. Of PSR the window is left alone that is, and the rest
/// may be lost.
fn set_register<const N: usize, B: Bus>(machine: &mut Machine<N, B>, register: &Register)
    ensures registers { machine.new.cpu.regs ≡ with_register N machine.old.cpu.regs register.now }
    ensures rest { SameRest machine.old.cpu.control machine.new.cpu.control }
    ensures mmu { machine.new.mmu ≡ machine.old.mmu }
    ensures bus { machine.new.bus ≡ machine.old.bus }
{
    let _ = machine.set_psr(u32::from(register.window));
    machine.set_reg(register.register, register.word);
}

/// Writes registers, one after the other.
fn set_registers<const N: usize, B: Bus>(machine: &mut Machine<N, B>, registers: &[Register])
    ensures registers { machine.new.cpu.regs ≡ fold (with_register N) machine.old.cpu.regs registers.now }
    ensures rest { SameRest machine.old.cpu.control machine.new.cpu.control }
    ensures mmu { machine.new.mmu ≡ machine.old.mmu }
    ensures bus { machine.new.bus ≡ machine.old.bus }
{
    for register in registers {
        set_register(machine, register);
    }
}

/// Writes the state registers, PC, nPC and Y.
fn set_control<const N: usize, B: Bus>(machine: &mut Machine<N, B>, control: &ControlValue)
    requires places { (control.now.pc % 4 ≡ 0) × (control.now.npc % 4 ≡ 0) }
    requires window { psr_window control.now.psr < N }
    requires rest { SameRest (started_with 0) machine.old.cpu.control }
    ensures cpu { machine.new.cpu ≡ with_control N machine.old.cpu.regs control.now }
    ensures mmu { machine.new.mmu ≡ machine.old.mmu }
    ensures bus { machine.new.bus ≡ machine.old.bus }
{
    machine.set_wim(control.wim);
    machine.set_tbr(control.tbr);
    machine.set_y(control.y);
    machine.set_pc(control.pc);
    machine.set_npc(control.npc);
    let _ = machine.set_psr(control.psr);
}

/// A machine with this memory that a start has set: it doesn't boot.
pub fn machine_of<const N: usize, B: Bus>(memory: B, regs: &MmuRegs, start: &Start) -> Machine<N, B>
    requires at_least { 4 ≤ N }
    requires at_most { N ≤ 32 }
    requires fit { IsFit N start.now }
    ensures cpu { result.cpu ≡ started N start.now }
    ensures mmu { result.mmu ≡ regs.now }
    ensures bus { result.bus ≡ memory }
{
    let mut machine = Machine::new(memory, *regs);
    // (a machine is made booted: with a stack pointer and a window that is marked)
    machine.set_reg(Reg::SP, 0);
    machine.set_wim(0);
    set_registers(&mut machine, start.registers.as_slice());
    set_control(&mut machine, &start.control);
    machine
}
