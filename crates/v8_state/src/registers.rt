//! The state registers as words, and booting (chapter 4).
ghost use Rattle.std.specs.Prelude.{◌≡◌, ℕ, ◌+◌, ◌*◌, ◌/◌, ◌%◌, ◌^◌, ◌<◌, ◌≤◌, ◌↔◌, IsTrue, if◌then◌else◌, None, false};
ghost use Rattle.v8_state.specs.Registers.{booted, cleared, psr_codes, psr_modes, psr_of, psr_window, started_with};
ghost use Rattle.v8_state.specs.Registers.{tbr_of, trap_base, with_psr, with_wim};
ghost use Rattle.v8_windows.specs.Windows.{IsFile};

use crate::state::{Control, Cpu};
use v8_map::{CODE_START, STACK_START, TRAP_TABLE};
use v8_windows::RegFile;
use v8_word::{Icc, Reg, TrapType, bits_of, flag_at};

/// The trap base address that a word names.
pub(crate) fn trap_base(word: u32) -> u32
    ensures { result ≡ trap_base word }
{
    word >> 12 << 12
}

/// The condition codes where PSR has them.
fn codes_word(icc: Icc) -> u32
    ensures value { result ≡ psr_codes icc }
    ensures bound { result < 2 ^ 24 }
{
    let n = u32::from(icc.n) * 0x80_0000;
    let z = u32::from(icc.z) * 0x40_0000;
    let v = u32::from(icc.v) * 0x20_0000;
    let c = u32::from(icc.c) * 0x10_0000;
    n + z + v + c
}

impl Control {
    /// S, PS and ET where PSR has them.
    fn modes_word(&self) -> u32
        ensures value { result ≡ psr_modes self.now }
        ensures bound { result < 2 ^ 8 }
    {
        let s = u32::from(self.s) * 0x80;
        let ps = u32::from(self.ps) * 0x40;
        let et = u32::from(self.et) * 0x20;
        s + ps + et
    }

    /// TBR as a word.
    #[tactic(auto, unfolding(crate::specs::Registers::tbr_of))]
    pub fn tbr(&self) -> u32
        ensures { result ≡ tbr_of self.now }
    {
        self.base.wrapping_add(u32::from(self.tt.number()) << 4)
    }

    /// Writes TBA and tt; TBR has no other bits.
    pub fn set_tbr(&mut self, word: u32)
        ensures { self.new ≡ record self.old { base = trap_base word; tt = word / 2 ^ 4 % 2 ^ 8 } }
    {
        self.base = trap_base(word);
        self.tt = TrapType::new(bits_of(word, 4, 8) as u8);
    }

    /// The state in which a program starts, with this Y.
    pub fn start(y: u32) -> Self
        ensures { result ≡ started_with y }
    {
        Control {
            pc: CODE_START,
            npc: CODE_START + 4,
            annul: false,
            icc: Icc {
                n: false,
                z: false,
                v: false,
                c: false,
            },
            y,
            pil: 0,
            s: false,
            ps: false,
            et: true,
            base: TRAP_TABLE,
            tt: TrapType::new(0),
            status: 0,
            error: None,
        }
    }
}

impl<const N: usize> Cpu<N> {
    /// A processor as it starts, its other registers and Y 0.
    #[tactic(auto, unfolding(crate::specs::Registers::booted))]
    pub fn new() -> Self
        requires at_least { 4 ≤ N }
        requires at_most { N ≤ 32 }
        ensures value { result ≡ booted N (record { regs = cleared N; control = started_with 0 }) }
        ensures file { IsFile N result.regs }
    {
        let mut cpu = Cpu {
            regs: RegFile::new(),
            control: Control::start(0),
        };
        cpu.boot();
        cpu
    }

    /// Starts a program: window 0, user mode, traps enabled, a stack pointer. Other registers and Y stay.
    #[tactic(auto, using(crate::proofs::Masks::second_window), unfolding(crate::specs::Registers::booted))]
    pub fn boot(&mut self)
        ensures value { self.new ≡ booted N self.old }
        ensures file { IsFile N self.new.regs }
    {
        // There are at least four windows, so that there is a window 0.
        let _ = self.regs.cwp();
        self.regs.set_cwp(0);
        self.regs.set_wim(2);
        self.regs.set(Reg::SP, STACK_START);
        self.control = Control::start(self.control.y);
        // What is read shows that the registers are a register file.
        let _ = self.regs.cwp();
    }

    /// PSR as a word.
    #[tactic(auto, unfolding(crate::specs::Registers::psr_of))]
    pub fn psr(&self) -> u32
        ensures { result ≡ psr_of N self.now }
    {
        let pil = u32::from(self.control.pil);
        let cwp = u32::from(self.regs.cwp());
        codes_word(self.control.icc) + pil * 0x100 + self.control.modes_word() + cwp
    }

    /// Writes PSR, and says whether it has the window that the word names; without it nothing is written.
    #[tactic(auto, unfolding(crate::specs::Registers::with_psr))]
    pub fn set_psr(&mut self, word: u32) -> bool
        ensures answer { IsTrue result ↔ (psr_window word < N) }
        ensures change { self.new ≡ (if result then with_psr N self.old word else self.old) }
    {
        if !self.regs.set_cwp(bits_of(word, 0, 5) as u8) {
            return false;
        }
        self.control.icc = Icc {
            n: flag_at(word, 23),
            z: flag_at(word, 22),
            v: flag_at(word, 21),
            c: flag_at(word, 20),
        };
        self.control.pil = bits_of(word, 8, 4) as u8;
        self.control.s = flag_at(word, 7);
        self.control.ps = flag_at(word, 6);
        self.control.et = flag_at(word, 5);
        true
    }
}
