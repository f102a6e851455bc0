//! The board: the machine over its memory, with the counts of a run.
ghost use Rattle.std.specs.Prelude.{◌≡◌, ℕ, ◌+◌, ◌-◌, ◌*◌, ◌%◌, ◌^◌, ◌<◌, ◌≤◌, IfErr, IfOk, OnErr, IsSome, Option};
ghost use Rattle.std.specs.Prelude.{Some, None, List};
ghost use Rattle.std.specs.Borrow.{Lends, sem};
ghost use Rattle.v8_core.specs.Answers.{Grows, failed_after};
ghost use Rattle.v8_core.specs.Calls.{calls_by, most_calls};
ghost use Rattle.v8_contained.specs.Board.{board};
ghost use Rattle.v8_core.specs.Ram.{entry_of};
ghost use Rattle.v8_core.specs.Walked.{root_of};
ghost use Rattle.v8_core.specs.Registers.{psr_of};
ghost use Rattle.v8_core.specs.Windows.{reg_of};
ghost use Rattle.v8_layout.specs.Laws.{IsMapped};
ghost use Rattle.v8_contained.specs.Layout.{IsLoaded};

use crate::outcome::{Counts, Ending, Outcome};
use crate::page_use::{PageUse, page_use_of};
use crate::placing::place;
use sbx_image::Image;
use std::alloc::{AllocError, Global};
use std::marker::Model;
use v8_contained::{Memory, Port};
use v8_core::{Machine, Turn};
use v8_map::CONTEXT_TABLE;
use v8_mmu::{Bus, MmuRegs, PortFault, Stop};
use v8_word::Reg;

/// A machine of `N` register windows, 4 to 32, with RAM of 1 MiB and a device over a port.
#[derive(Drop)]
pub struct Board<const N: usize, P: Port> {
    machine: Machine<N, Memory<P>>,
    counts: Counts,
}

impl<const N: usize, P: Port> Model for Board<N, P> {
    ghost use Rattle.std.specs.Prelude.{◌≡◌, ℕ, ◌≤◌};
    ghost use Rattle.v8_core.specs.Accesses.{world};
    ghost use Rattle.v8_core.specs.Walked.{root_of};
    ghost use Rattle.v8_map.specs.declared.TheConstants.{CONTEXT_TABLE};
    ghost use Rattle.v8_contained.specs.Board.{seen};
    ghost use Rattle.v8_board.specs.Seen.{Seen};

    ghost Value = { Seen N };

    ghost view = { λ b. record {
      state = record {
        world = world N b.machine.cpu b.machine.bus.ram (seen (P.input b.machine.bus.port) b.machine.bus.ended (P.output b.machine.bus.port) b.machine.bus.stopped);
        mmu = b.machine.mmu;
        counts = b.counts;
      };
      failed = P.failed b.machine.bus.port;
      calls = P.calls b.machine.bus.port;
      fault = P.fault b.machine.bus.port;
    } };

    ghost invariant = { λ b. (4 ≤ N) × (N ≤ 32) × (root_of b.machine.mmu ≡ CONTEXT_TABLE) };
}

impl<const N: usize, P: Port> Board<N, P> {
    ghost use Rattle.v8_board.specs.Seen.{ending_of, turned, with_port};
    ghost use Rattle.v8_board.specs.contracts.board.Board.{the_row};
    ghost use Rattle.v8_contained.specs.States.{IsState};
    ghost use Rattle.v8_board.specs.Contains.{Contains, Keeps, KeepsBy};
    ghost use Rattle.v8_board.specs.Calls.{Asks};
    ghost use Rattle.v8_board.specs.Runs.{GoesOn, IsCutShort, IsRun, ending_or_limit, outcome_of};
    ghost use Rattle.v8_board.specs.Start.{IsNew, IsStart, pages_of};
    ghost use Rattle.v8_board.specs.Marks.{page_use_of};

    /// A board with RAM of zeros and no image: it has booted, and every other register is 0. A refusal of memory drops
    /// the port.
    pub fn new(alloc: Global, port: P) -> Result<Self, AllocError>
        requires at_least { 4 ≤ N }
        requires at_most { N ≤ 32 }
        ensures made { IfOk result (λ board. IsNew N (P.input port) (P.output port) board.state) }
        ensures state { IfOk result (λ board. IsState N board.state.mmu board.state.world) }
        ensures failed { IfOk result (λ board. board.failed ≡ P.failed port) }
        ensures calls { IfOk result (λ board. board.calls ≡ P.calls port) }
    {
        let regs = MmuRegs {
            table: CONTEXT_TABLE as u64,
            context: 0,
        };
        Ok(Board {
            machine: Machine::new(Memory::new(alloc, port)?, regs),
            counts: Counts::NONE,
        })
    }

    /// Loads an image and boots: trap table, handlers and page tables, the image's code and data, and 0 in the rest of
    /// their last pages. The device's stop and the end of its input are taken back, and the counts begin at 0.
    /// Registers that booting leaves, Y and the stack's bytes stay as they were. Whatever ran before, the board's state
    /// is one, and from then on the image is contained, whatever its words are: the law `laws::loading_contains`.
    pub fn load(&mut self, image: &Image)
        ensures start { IsStart N image.now self.old.state self.new.state }
        ensures loaded { IsLoaded N (pages_of image.now) image.now.words self.new.state.world.memory.ram }
        ensures map { IsMapped (pages_of image.now) self.new.state.world.memory.ram }
        ensures state { IsState N self.new.state.mmu self.new.state.world }
        ensures contained { Contains N image.now self.new.state }
        ensures failed { self.new.failed ≡ self.old.failed }
        ensures calls { self.new.calls ≡ self.old.calls }
    {
        place::<N, P>(self.machine.bus_mut(), image);
        self.machine.boot();
        // What Y holds is a word, as is known of what is read.
        let _word = self.machine.y();
        self.counts = Counts::NONE;
    }

    /// How the machine has ended, if it has.
    #[tactic(auto, unfolding(crate::specs::Seen::ending_of))]
    pub fn ending(&self) -> Option<Ending>
        ensures { result ≡ ending_of N self.now.state.world }
    {
        match self.machine.bus().stop() {
            Some(Stop::Exit(status)) => Some(Ending::Exit(status)),
            Some(Stop::Trapped) => Some(Ending::Trapped(self.machine.trap_type())),
            None => match &self.machine.error_mode() {
                Some(trap) => Some(Ending::ErrorMode(*trap)),
                None => None,
            },
        }
    }

    /// A turn of a machine that has not ended.
    #[tactic(auto, unfolding(crate::specs::Seen::turned))]
    #[inline(always)]
    fn turn(&mut self) -> Result<Turn, PortFault>
        requires { ending_of N self.old.state.world ≡ None }
        ensures turn { IfOk result (λ turn. turned N self.old.state ≡ (turn, self.new.state)) }
        ensures state { OnErr result (self.new.state ≡ self.old.state) }
        ensures count { self.new.failed ≡ failed_after result self.old.failed }
        ensures calls { Grows
            (most_calls (λ turn. calls_by board self.old.state.world.memory.device turn.access) result) self.old.calls
            self.new.calls }
        ensures own { IfErr result (λ fault. self.new.fault ≡ fault) }
    {
        match self.machine.step() {
            Ok(turn) => {
                self.counts.count(&turn.event);
                Ok(turn)
            }
            Err(fault) => Err(fault),
        }
    }

    /// A turn of a machine that has ended, which tells the end again.
    #[tactic(auto, unfolding(crate::specs::Seen::turned))]
    fn repeat(&mut self) -> Result<Turn, PortFault>
        requires { IsSome (ending_of N self.old.state.world) }
        ensures turn { IfOk result (λ turn. turned N self.old.state ≡ (turn, self.new.state)) }
        ensures state { OnErr result (self.new.state ≡ self.old.state) }
        ensures count { self.new.failed ≡ failed_after result self.old.failed }
        ensures calls { Grows
            (most_calls (λ turn. calls_by board self.old.state.world.memory.device turn.access) result) self.old.calls
            self.new.calls }
        ensures own { IfErr result (λ fault. self.new.fault ≡ fault) }
    {
        self.machine.step()
    }

    /// One turn, which is counted unless the machine has ended. On a fault of the port nothing has changed, page bits
    /// included, and the port's count of failures rose by one, as it does nowhere else. A loaded image stays contained,
    /// so no word of the page tables changes but in R and M, and addresses translate as before: that is the law
    /// `v8_layout::laws::tables_stay`.
    // The compiler would put it, and with it the machine, into its one caller, that into its own, and so on, and
    // optimize it anew in each.
    #[inline(never)]
    pub fn step(&mut self) -> Result<Turn, PortFault>
        ensures turn { IfOk result (λ turn. turned N self.old.state ≡ (turn, self.new.state)) }
        ensures contained { Keeps N self.old.state self.new.state }
        ensures turn_is { IfOk result (λ turn. KeepsBy N self.old.state turn self.new.state) }
        ensures state { OnErr result (self.new.state ≡ self.old.state) }
        ensures count { self.new.failed ≡ failed_after result self.old.failed }
        ensures calls { Grows
            (most_calls (λ turn. calls_by board self.old.state.world.memory.device turn.access) result) self.old.calls
            self.new.calls }
        ensures own { IfErr result (λ fault. self.new.fault ≡ fault) }
    {
        match self.ending() {
            None => self.turn(),
            Some(_end) => self.repeat(),
        }
    }

    /// What is told of a run that stops here: how it has ended, or that it has not, and the counts.
    #[tactic(auto, unfolding(crate::specs::Runs::outcome_of))]
    pub fn outcome(&self) -> Outcome
        ensures { result ≡ outcome_of N self.now.state }
    {
        let counts = self.counts;
        let ending = match self.ending() {
            Some(ending) => ending,
            None => Ending::Limit,
        };
        Outcome {
            ending,
            turns: counts.turns,
            overflows: counts.overflows,
            underflows: counts.underflows,
        }
    }

    /// Runs to an end, but at most so many turns. After an end it tells that end again. On a fault of the port the
    /// board stands after the last whole turn, with fewer turns made than were allowed and no end met; with the turns
    /// that are left it goes on as if nothing was. The port's count of failures rose by one, as it does nowhere else.
    /// In all, the port is called no more often than `step` allows in the turns made, and once more where it fails. A
    /// loaded image stays contained.
    pub fn run(&mut self, limit: u64) -> Result<Outcome, PortFault>
        ensures run { IfOk result (λ told. IsRun N limit self.old.state self.new.state) }
        ensures told { IfOk result (λ told. told ≡ outcome_of N self.new.state) }
        ensures contained { Keeps N self.old.state self.new.state }
        ensures stands { OnErr result (IsCutShort N limit self.old.state self.new.state) }
        ensures goes_on { OnErr result (GoesOn N limit self.old.state self.new.state) }
        ensures count { self.new.failed ≡ failed_after result self.old.failed }
        ensures calls { Asks N limit self.old.state self.new.state self.old.calls self.new.calls result }
        ensures own { IfErr result (λ fault. self.new.fault ≡ fault) }
    {
        for done in 0..limit {
            let None = self.ending() else {
                return Ok(self.outcome());
            };
            match self.turn() {
                Ok(_turn) => {}
                Err(fault) => return Err(fault),
            }
        }
        Ok(self.outcome())
    }

    /// Which pages of code, data and stack were referenced and modified.
    pub fn page_use(&self) -> PageUse
        ensures { result ≡ page_use_of self.now.state.world.memory.ram }
    {
        page_use_of(self.machine.bus())
    }

    /// The fault status of the most recent refused access, or 0: L 9:8, AT 7:5, FT 4:2, FAV 1 (appendix H).
    pub fn fault_status(&self) -> u32
        ensures { result ≡ self.now.state.world.cpu.control.status }
    {
        self.machine.fault_status()
    }

    /// A register of the current window.
    pub fn reg(&self, r: Reg) -> u32
        ensures { result ≡ reg_of N self.now.state.world.cpu.regs r }
    {
        self.machine.reg(r)
    }

    /// PSR as a word.
    pub fn psr(&self) -> u32
        ensures { result ≡ psr_of N self.now.state.world.cpu }
    {
        self.machine.psr()
    }

    /// The window invalid mask.
    pub fn wim(&self) -> u32
        ensures { result ≡ self.now.state.world.cpu.regs.mask }
    {
        self.machine.wim()
    }

    /// Y, the multiply and divide register.
    pub fn y(&self) -> u32
        ensures { result ≡ self.now.state.world.cpu.control.y }
    {
        self.machine.y()
    }

    /// The word of RAM that begins at a physical address, a multiple of 4; None elsewhere.
    pub fn entry(&self, pa: u64) -> Option<u32>
        ensures { result ≡ entry_of self.now.state.world.memory.ram pa }
    {
        self.machine.bus().word(pa)
    }

    /// The port.
    pub fn port(&self) -> &P
        ensures input { P.input result.now ≡ self.now.state.world.memory.device.input }
        ensures output { P.output result.now ≡ self.now.state.world.memory.device.output }
        ensures failed { P.failed result.now ≡ self.now.failed }
        ensures calls { P.calls result.now ≡ self.now.calls }
        ensures fault { P.fault result.now ≡ self.now.fault }
    {
        self.machine.bus().port()
    }

    /// The port, to be written to. The board then goes on with the port as it was left; the rest of the board stays.
    pub fn port_mut(&mut self) -> &mut P
        ensures* writes_back { sem 𝓛
            (Lends (the_row N.row P.row P.Port) P.row self.entry result
            (λ w. with_port self.old (P.input w) (P.output w) (P.failed w) (P.calls w) (P.fault w))) }
        ensures input { P.input result.now ≡ self.old.state.world.memory.device.input }
        ensures output { P.output result.now ≡ self.old.state.world.memory.device.output }
        ensures failed { P.failed result.now ≡ self.old.failed }
        ensures calls { P.calls result.now ≡ self.old.calls }
    {
        self.machine.port_mut()
    }
}
