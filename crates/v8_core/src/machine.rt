//! The machine: a processor and an MMU on a bus.
ghost use Rattle.std.specs.Prelude.{◌≡◌, ℕ, ◌+◌, ◌*◌, ◌/◌, ◌%◌, ◌^◌, ◌<◌, ◌≤◌, ◌↔◌, IsTrue, IfSome};
ghost use Rattle.std.specs.Prelude.{if◌then◌else◌};
ghost use Rattle.std.specs.Borrow.{Lends, sem};
ghost use Rattle.v8_mmu.specs.Paths.{LeadsTo};
ghost use Rattle.v8_mmu.specs.Walked.{root_of};
ghost use Rattle.v8_state.specs.Windows.{IsFile, reg_of, with_reg};
ghost use Rattle.v8_state.specs.Registers.{booted, cleared, psr_of, psr_window, started_with, tbr_of, trap_base};
ghost use Rattle.v8_state.specs.Registers.{with_psr, with_wim};
ghost use Rattle.v8_core.specs.Calls.{calls_by};
ghost use Rattle.v8_core.specs.Completes.{Completes, world_of};
ghost use Rattle.v8_core.specs.Steps.{next};

use crate::step::{try_one, turn_by};
use crate::turn::{Event, Turn};
use std::marker::Model;
use v8_cache::Cache;
use v8_formats::{Reg, TrapType};
use v8_mmu::{Bus, Found, MmuRegs, PortBus, PortFault};
use v8_state::Cpu;

/// A processor of `N` register windows, 4 to 32, on a bus.
#[derive(Drop)]
pub struct Machine<const N: usize, B: Bus> {
    cpu: Cpu<N>,
    mmu: MmuRegs,
    bus: B,
    cache: Cache,
}

impl<const N: usize, B: Bus> Model for Machine<N, B> {
    ghost use Rattle.v8_core.specs.Parts.{Parts};

    ghost Value = { Parts N B };

    ghost view = { λ m. record { cpu = m.cpu; mmu = m.mmu; bus = m.bus } };

    ghost use Rattle.v8_mmu.specs.Walked.{root_of};
    ghost use Rattle.v8_cache.specs.Holds.{Holds};

    ghost invariant = { λ m. Holds (B.state m.bus).held.ram (root_of m.mmu) m.cache };
}

impl<const N: usize, B: Bus> Machine<N, B> {
    ghost use Rattle.v8_core.specs.contracts.machine.Machine.{the_row};

    /// A machine that has booted; its other registers and Y are 0.
    pub fn new(bus: B, mmu: MmuRegs) -> Self
        requires at_least { 4 ≤ N }
        requires at_most { N ≤ 32 }
        ensures cpu { result.cpu ≡ booted N (record { regs = cleared N; control = started_with 0 }) }
        ensures file { IsFile N result.cpu.regs }
        ensures mmu { result.mmu ≡ mmu }
        ensures bus { result.bus ≡ bus }
    {
        Machine {
            cpu: Cpu::new(),
            mmu,
            bus,
            cache: Cache::new(),
        }
    }

    /// Starts a program: window 0, WIM 2, user mode, traps enabled, the trap table at F0000000, %sp 000FFFC0, PC
    /// 00040000; fault status 0, no annulled instruction, no error mode. Other registers and Y stay, and so does the
    /// bus.
    pub fn boot(&mut self)
        ensures cpu { self.new.cpu ≡ booted N self.old.cpu }
        ensures file { IsFile N self.new.cpu.regs }
        ensures mmu { self.new.mmu ≡ self.old.mmu }
        ensures bus { self.new.bus ≡ self.old.bus }
    {
        self.cpu.boot();
    }

    /// One turn (chapters 5 to 7). A machine that has stopped or is in error mode tells that again, without a word or
    /// an access, and changes nothing. The port is called at most once: by the access that is told of, where the bus's
    /// meaning says that it may be, or by the one that it failed. On its fault nothing has changed, page bits included,
    /// and its count of failures rose by one, as it does nowhere else; the fault is the one that the port answered.
    #[tactic(auto, unfolding(crate::specs::Steps::next))]
    #[inline(always)]
    pub fn step(&mut self) -> Result<Turn, PortFault>
        ensures step { Completes (next B.meaning N self.old.mmu)
            (λ turn. calls_by B.meaning (B.state self.old.bus).held.device turn.access) result
            (world_of N self.old.cpu (B.state self.old.bus)) (world_of N self.new.cpu (B.state self.new.bus)) }
        ensures mmu { self.new.mmu ≡ self.old.mmu }
    {
        if let Some(stop) = self.bus.stop() {
            return Ok(turn_by(&self.cpu, Event::Stopped(stop), None, None));
        }
        let error = self.cpu.control.error;
        if let Some(trap) = &error {
            return Ok(turn_by(&self.cpu, Event::ErrorMode(*trap), None, None));
        }
        if self.cpu.control.annul {
            let turn = turn_by(&self.cpu, Event::Annulled, None, None);
            self.cpu.control.advance();
            self.cpu.control.annul = false;
            return Ok(turn);
        }
        try_one(&mut self.cpu, &mut self.cache, &mut self.bus, &self.mmu)
    }

    /// A register of the current window.
    pub fn reg(&self, r: Reg) -> u32
        ensures { result ≡ reg_of N self.now.cpu.regs r }
    {
        self.cpu.regs.get(r)
    }

    /// Writes a register of the current window; register 0 ignores it.
    pub fn set_reg(&mut self, r: Reg, x: u32)
        ensures cpu { self.new.cpu ≡ record self.old.cpu { regs = with_reg N self.old.cpu.regs r x } }
        ensures mmu { self.new.mmu ≡ self.old.mmu }
        ensures bus { self.new.bus ≡ self.old.bus }
    {
        self.cpu.regs.set(r, x);
    }

    /// PSR as a word: N 23, Z 22, V 21, C 20, PIL 11:8, S 7, PS 6, ET 5, CWP 4:0 (chapter 4).
    pub fn psr(&self) -> u32
        ensures { result ≡ psr_of N self.now.cpu }
    {
        self.cpu.psr()
    }

    /// Writes PSR, whose other bits are ignored; false, with nothing changed, where CWP is at or above `N`.
    pub fn set_psr(&mut self, word: u32) -> bool
        ensures answer { IsTrue result ↔ (psr_window word < N) }
        ensures cpu { self.new.cpu ≡ (if result then with_psr N self.old.cpu word else self.old.cpu) }
        ensures mmu { self.new.mmu ≡ self.old.mmu }
        ensures bus { self.new.bus ≡ self.old.bus }
    {
        self.cpu.set_psr(word)
    }

    /// The window invalid mask.
    pub fn wim(&self) -> u32
        ensures { result ≡ self.now.cpu.regs.mask }
    {
        self.cpu.regs.wim()
    }

    /// Writes the window invalid mask, whose bits at and above `N` are ignored.
    pub fn set_wim(&mut self, mask: u32)
        ensures cpu { self.new.cpu ≡ with_wim N self.old.cpu mask }
        ensures mmu { self.new.mmu ≡ self.old.mmu }
        ensures bus { self.new.bus ≡ self.old.bus }
    {
        self.cpu.regs.set_wim(mask);
    }

    /// TBR as a word: TBA 31:12, tt 11:4 (chapter 4).
    pub fn tbr(&self) -> u32
        ensures { result ≡ tbr_of self.now.cpu.control }
    {
        self.cpu.control.tbr()
    }

    /// Writes TBA and tt; TBR has no other bits.
    pub fn set_tbr(&mut self, word: u32)
        ensures cpu { self.new.cpu ≡
            record self.old.cpu {
              control =
                  record self.old.cpu.control { base = trap_base word; tt = word / 2 ^ 4 % 2 ^ 8 };
            } }
        ensures mmu { self.new.mmu ≡ self.old.mmu }
        ensures bus { self.new.bus ≡ self.old.bus }
    {
        self.cpu.control.set_tbr(word);
    }

    /// Y, the multiply and divide register.
    pub fn y(&self) -> u32
        ensures { result ≡ self.now.cpu.control.y }
    {
        self.cpu.control.y
    }

    /// Writes Y.
    pub fn set_y(&mut self, word: u32)
        ensures cpu { self.new.cpu ≡ record self.old.cpu { control = record self.old.cpu.control { y = word } } }
        ensures mmu { self.new.mmu ≡ self.old.mmu }
        ensures bus { self.new.bus ≡ self.old.bus }
    {
        self.cpu.control.y = word;
    }

    /// PC, the address of the instruction that comes next.
    pub fn pc(&self) -> u32
        ensures { result ≡ self.now.cpu.control.pc }
    {
        self.cpu.control.pc
    }

    /// Writes PC, a multiple of 4.
    pub fn set_pc(&mut self, place: u32)
        requires { place % 4 ≡ 0 }
        ensures cpu { self.new.cpu ≡ record self.old.cpu { control = record self.old.cpu.control { pc = place } } }
        ensures mmu { self.new.mmu ≡ self.old.mmu }
        ensures bus { self.new.bus ≡ self.old.bus }
    {
        self.cpu.control.pc = place;
    }

    /// nPC, the address of the instruction after the next.
    pub fn npc(&self) -> u32
        ensures { result ≡ self.now.cpu.control.npc }
    {
        self.cpu.control.npc
    }

    /// Writes nPC, a multiple of 4.
    pub fn set_npc(&mut self, place: u32)
        requires { place % 4 ≡ 0 }
        ensures cpu { self.new.cpu ≡ record self.old.cpu { control = record self.old.cpu.control { npc = place } } }
        ensures mmu { self.new.mmu ≡ self.old.mmu }
        ensures bus { self.new.bus ≡ self.old.bus }
    {
        self.cpu.control.npc = place;
    }

    /// The fault status of the most recent refused access, or 0: L 9:8, AT 7:5, FT 4:2, FAV 1 (appendix H).
    pub fn fault_status(&self) -> u32
        ensures { result ≡ self.now.cpu.control.status }
    {
        self.cpu.control.status
    }

    /// The trap type that TBR shows.
    pub fn trap_type(&self) -> TrapType
        ensures { result ≡ self.now.cpu.control.tt }
    {
        self.cpu.control.tt
    }

    /// The trap that put the machine into error mode, if one did.
    pub fn error_mode(&self) -> Option<TrapType>
        ensures { result ≡ self.now.cpu.control.error }
    {
        self.cpu.control.error
    }

    /// The bus.
    pub fn bus(&self) -> &B
        ensures { result.now ≡ self.now.bus }
    {
        &self.bus
    }

    /// The bus, to be written to. The machine then goes on with the bus as it was left; its processor and the registers
    /// of its MMU stay. What it keeps of translations is dropped: where the port alone is to be written to, `port_mut`
    /// keeps it.
    pub fn bus_mut(&mut self) -> &mut B
        ensures* writes_back { sem 𝓛
            (Lends (the_row N.row B.row B.Bus) B.row self.entry result (λ w. record self.old { bus = w })) }
        ensures value { result.now ≡ self.old.bus }
    {
        self.cache.clear();
        &mut self.bus
    }

    /// What an address leads to, if the machine keeps it: the page's path, as a walk of the tables finds it now.
    pub fn cached(&self, va: u32) -> Option<Found>
        ensures { IfSome result (λ f. LeadsTo (B.state self.now.bus).held.ram (root_of self.now.mmu) va f) }
    {
        self.cache.found(va)
    }
}

impl<const N: usize, B: PortBus> Machine<N, B> {
    ghost use Rattle.v8_core.specs.contracts.machine.Machine.{the_row};

    /// The port of the bus, to be written to. The machine then goes on with the bus that has the port as it was left;
    /// its processor, the registers of its MMU and RAM stay, and so what it keeps of translations does.
    pub fn port_mut(&mut self) -> &mut B::Port
        ensures* writes_back { sem 𝓛
            (Lends (the_row N.row B.row B.Bus) B.Port.row self.entry result
            (λ w. record self.old { bus = B.with_port self.old.bus w })) }
        ensures value { result.now ≡ B.port self.old.bus }
    {
        self.bus.port_mut()
    }
}
