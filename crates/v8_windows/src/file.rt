//! The register file.
ghost use Rattle.std.specs.Prelude.{if◌then◌else◌, ◌≡◌, ℕ, ◌+◌, ◌-◌, ◌%◌, ◌^◌, ◌<◌, ◌≤◌, ◌↔◌, IsTrue, not, replicate};
ghost use Rattle.std.specs.Prelude.{[], ◌∷◌, length};
ghost use Rattle.v8_windows.specs.Windows.{IsFile, reg_of, with_reg, below, above, can_enter, is_masked, moved};
ghost use Rattle.v8_windows.specs.Windows.{trapped};

use crate::halves::{half, whole};
use std::marker::Model;
use v8_word::Reg;

/// The integer registers of `N` windows, 4 to 32, with the current window (CWP) and the window invalid mask (WIM) of
/// the manual's chapter 4. Contracts see the map from window and register to words.
///
/// The windows lie in two rings, of outs and of locals: the ins of a window are the outs of the window above. The
/// registers of the current window stand apart, in the order of their numbers, and are written back to the rings when
/// another window becomes the current one. Until then what the rings have of them is out of date.
#[derive(Drop)]
pub struct RegFile<const N: usize> {
    outs: [[u32; 8]; N],
    locals: [[u32; 8]; N],
    registers: [u32; 32],
    current: usize,
    mask: u32,
}

impl<const N: usize> Model for RegFile<N> {
    ghost use Rattle.std.specs.Prelude.{◌≤◌, ◌<◌, ◌^◌};
    ghost use Rattle.v8_windows.specs.Windows.{Windows};
    ghost use Rattle.v8_windows.specs.Halves.{shown, AreHalves, AreRegisters};

    ghost Value = { Windows };

    ghost view = { λ f. shown N f.outs f.locals f.registers f.current f.mask };

    ghost invariant = { λ f. (4 ≤ N) × (N ≤ 32) × (f.current < N) × (f.mask < 2 ^ N) × AreRegisters f.registers × AreHalves N f.outs
        × AreHalves N f.locals };
}

impl<const N: usize> RegFile<N> {
    /// A file whose words are all 0, with CWP 0 and WIM 0.
    pub fn new() -> Self
        requires at_least { 4 ≤ N }
        requires at_most { N ≤ 32 }
        ensures { result ≡ record {
          globals = replicate 8 0;
          words = replicate N (replicate 16 0);
          current = 0;
          mask = 0;
        } }
    {
        RegFile {
            outs: [[0; 8]; N],
            locals: [[0; 8]; N],
            registers: [0; 32],
            current: 0,
            mask: 0,
        }
    }

    /// The current window, below `N`.
    pub fn cwp(&self) -> u8
        ensures value { result ≡ self.now.current }
        ensures in_range { result < N }
        ensures windows { (4 ≤ N) × (N ≤ 32) }
        ensures file { IsFile N self.now }
    {
        self.current as u8
    }

    /// Makes a window the current one; false, with nothing changed, at or above `N`.
    pub fn set_cwp(&mut self, window: u8) -> bool
        ensures answer { IsTrue result ↔ (window < N) }
        ensures change { self.new ≡ (if result then moved self.old window else self.old) }
    {
        let window = window as usize;
        if window < N {
            self.enter(window);
            true
        } else {
            false
        }
    }

    /// The window invalid mask, below 2^`N`.
    pub fn wim(&self) -> u32
        ensures value { result ≡ self.now.mask }
        ensures in_range { result < 2 ^ N }
    {
        self.mask
    }

    /// Writes the window invalid mask, of which the bits at and above `N` are ignored.
    #[tactic(auto, using(crate::proofs::Masks::one_shifted, crate::proofs::Masks::low_bits))]
    pub fn set_wim(&mut self, mask: u32)
        ensures { self.new ≡ record self.old { mask = mask % 2 ^ N } }
    {
        let _ = &self.mask;
        self.mask = (u64::from(mask) % (1u64 << N)) as u32;
    }

    /// A register of the current window.
    pub fn get(&self, r: Reg) -> u32
        ensures { result ≡ reg_of N self.now r }
    {
        self.registers[r.number() as usize]
    }

    /// Writes a register of the current window; register 0 ignores it.
    pub fn set(&mut self, r: Reg, x: u32)
        ensures { self.new ≡ with_reg N self.old r x }
    {
        let n = r.number() as usize;
        if n != 0 {
            self.registers[n] = x;
        }
    }

    /// Goes to the window below, as SAVE does; false, with nothing changed, where the mask forbids that window.
    #[tactic(auto, unfolding(crate::specs::Windows::can_enter))]
    pub fn save(&mut self) -> bool
        ensures answer { result ≡ can_enter self.old (below N self.old.current) }
        ensures change { self.new ≡ (if result then moved self.old (below N self.old.current) else self.old) }
    {
        let below = self.window_below();
        if Self::allows(self.mask, below) {
            self.enter(below);
            true
        } else {
            false
        }
    }

    /// Goes to the window above, as RESTORE does; false, with nothing changed, where the mask forbids that window.
    #[tactic(auto, unfolding(crate::specs::Windows::can_enter))]
    pub fn restore(&mut self) -> bool
        ensures answer { result ≡ can_enter self.old (above N self.old.current) }
        ensures change { self.new ≡ (if result then moved self.old (above N self.old.current) else self.old) }
    {
        let above = self.window_above();
        if Self::allows(self.mask, above) {
            self.enter(above);
            true
        } else {
            false
        }
    }

    /// Goes to the window below, whatever the mask says, and puts `pc` and `npc` into its registers 17 and 18 (chapter
    /// 7).
    pub fn enter_trap(&mut self, pc: u32, npc: u32)
        ensures { self.new ≡ trapped N self.old pc npc }
    {
        let entered = self.window_below();
        self.enter(entered);
        self.set(Reg::L1, pc);
        self.set(Reg::L2, npc);
    }

    /// Goes to the window above, as RETT does; false, with nothing changed, where the mask forbids that window.
    pub fn leave_trap(&mut self) -> bool
        ensures answer { result ≡ can_enter self.old (above N self.old.current) }
        ensures change { self.new ≡ (if result then moved self.old (above N self.old.current) else self.old) }
    {
        self.restore()
    }

    #[tactic(auto, using(crate::proofs::Neighbours::below_first, crate::proofs::Neighbours::below_other))]
    fn window_below(&self) -> usize
        ensures value { result ≡ below N self.now.current }
        ensures in_range { result < N }
    {
        if self.current == 0 {
            N - 1
        } else {
            self.current - 1
        }
    }

    fn window_above(&self) -> usize
        ensures value { result ≡ above N self.now.current }
        ensures in_range { result < N }
    {
        Self::next(self.current)
    }

    /// The window above.
    #[tactic(auto, using(crate::proofs::Neighbours::above_last, crate::proofs::Neighbours::above_next))]
    fn next(window: usize) -> usize
        requires few { 4 ≤ N }
        requires here { window < N }
        ensures value { result ≡ above N window }
        ensures in_range { result < N }
    {
        let next = window + 1;
        if next == N { 0 } else { next }
    }

    /// Writes the current window's registers back to the rings, and makes another window the current one.
    fn enter(&mut self, window: usize)
        requires { window < N }
        ensures { self.new ≡ moved self.old window }
    {
        let left = self.current;
        let above_left = Self::next(left);
        self.outs[left] = half(&self.registers, 8);
        self.locals[left] = half(&self.registers, 16);
        self.outs[above_left] = half(&self.registers, 24);
        let globals = half(&self.registers, 0);
        let outs = self.outs[window];
        let locals = self.locals[window];
        let ins = self.outs[Self::next(window)];
        self.registers = whole(&globals, &outs, &locals, &ins);
        self.current = window;
    }

    fn allows(mask: u32, window: usize) -> bool
        requires { window < 32 }
        ensures { result ≡ not (is_masked mask window) }
    {
        (mask >> window) & 1 == 0
    }
}
