//! A plain interpreter of a board of eight windows: each turn fetches, translates, decodes and executes, with the
//! translation cache of the machine that is proved and, of the six pages that stand in front of it there, the two that
//! each mode fetched from last; nothing is decoded beforehand. Nothing is proved of it but that it is safe; how fast it
//! is says how fast the proved machine could be.
//!
//! Here are the processor's state, windows, traps and turns.

mod execute;
mod pages;
mod ram;
mod results;

use pages::{Kind, Pages};
use ram::Ram;
use std::alloc::{AllocError, Global};

/// Where the device's registers lie.
const DEVICE: u64 = 1 << 32;

/// The bits of PSR that this machine has.
#[derive(Clone, Copy)]
struct Modes {
    supervisor: bool,
    previous: bool,
    traps: bool,
}

/// The machine. The current window's registers stand together; those of the other windows as halves of outs and locals.
#[derive(Drop)]
pub struct Plain {
    ram: Ram,
    pages: Pages,
    registers: [u32; 32],
    outs: [[u32; 8]; 8],
    locals: [[u32; 8]; 8],
    window: usize,
    mask: u32,
    codes: u32,
    modes: Modes,
    base: u32,
    y: u32,
    pc: u32,
    npc: u32,
    annul: bool,
    stopped: bool,
}

impl Plain {
    /// A machine that has booted, with RAM of zeros.
    pub fn new(alloc: Global) -> Result<Self, AllocError> {
        let mut registers = [0; 32];
        registers[14] = 0x000F_FFC0;
        Ok(Plain {
            ram: Ram::new(alloc)?,
            pages: Pages::new(),
            registers,
            outs: [[0; 8]; 8],
            locals: [[0; 8]; 8],
            window: 0,
            mask: 2,
            codes: 0,
            modes: Modes {
                supervisor: false,
                previous: false,
                traps: true,
            },
            base: 0xF000_0000,
            y: 0,
            pc: 0x0004_0000,
            npc: 0x0004_0004,
            annul: false,
            stopped: false,
        })
    }

    /// Writes a word of RAM.
    pub fn place(&mut self, at: u64, word: u32) {
        self.ram.set_word(at, word);
    }

    /// A register of the current window.
    #[inline(always)]
    pub fn register(&self, number: u32) -> u32 {
        self.registers[(number & 31) as usize]
    }

    #[inline(always)]
    fn set(&mut self, number: u32, word: u32) {
        if number & 31 != 0 {
            self.registers[(number & 31) as usize] = word;
        }
    }

    /// Goes to another window.
    fn enter(&mut self, window: usize) {
        let (old, new) = (self.window & 7, window & 7);
        for k in 0..8 {
            self.outs[old][k] = self.registers[8 + k];
            self.locals[old][k] = self.registers[16 + k];
            self.outs[(old + 1) & 7][k] = self.registers[24 + k];
        }
        for k in 0..8 {
            self.registers[8 + k] = self.outs[new][k];
            self.registers[16 + k] = self.locals[new][k];
            self.registers[24 + k] = self.outs[(new + 1) & 7][k];
        }
        self.window = new;
    }

    fn below(&self) -> usize {
        (self.window & 7) + 7 & 7
    }

    fn above(&self) -> usize {
        (self.window & 7) + 1 & 7
    }

    fn is_invalid(&self, window: usize) -> bool {
        (self.mask >> (window & 7)) & 1 == 1
    }

    /// The number in so many bytes.
    #[inline(always)]
    fn load(&mut self, va: u32, size: u32) -> Option<u64> {
        let user = !self.modes.supervisor;
        let pa = self.pages.translate(&mut self.ram, va, user, Kind::Load)?;
        if pa >= DEVICE {
            // There is no input.
            return Some(0xFFFF_FFFF);
        }
        Some(self.ram.number(pa, size))
    }

    /// Writes a number to so many bytes. What is put out is let go.
    #[inline(always)]
    fn store(&mut self, va: u32, size: u32, number: u64) -> Option<()> {
        let user = !self.modes.supervisor;
        let pa = self.pages.translate(&mut self.ram, va, user, Kind::Store)?;
        if pa >= DEVICE {
            self.stopped = pa != DEVICE + 4;
            return Some(());
        }
        self.ram.set_number(pa, size, number);
        self.pages.drop_at(pa, u64::from(size));
        Some(())
    }

    /// Takes a trap.
    fn trap(&mut self, number: u32) {
        if !self.modes.traps {
            self.stopped = true;
            return;
        }
        self.enter(self.below());
        self.registers[17] = self.pc;
        self.registers[18] = self.npc;
        self.modes = Modes {
            supervisor: true,
            previous: self.modes.supervisor,
            traps: false,
        };
        self.base = (self.base & !0xFFF) | ((number & 0xFF) << 4);
        self.pc = self.base;
        self.npc = self.base | 4;
    }

    /// The word at PC.
    #[inline(always)]
    fn fetch(&mut self) -> Option<u32> {
        let user = !self.modes.supervisor;
        let pa = self.pages.fetched(&mut self.ram, self.pc, user)?;
        self.ram.word(pa)
    }

    #[inline(always)]
    fn turn(&mut self) {
        if self.annul {
            self.annul = false;
            self.pc = self.npc;
            self.npc = self.npc.wrapping_add(4);
            return;
        }
        let Some(word) = self.fetch() else {
            self.trap(1);
            return;
        };
        match self.execute(word) {
            Ok(next) => {
                self.pc = self.npc;
                self.npc = next;
            }
            Err(number) => self.trap(number),
        }
    }

    /// Runs to an end, but at most so many turns, and tells how many were made.
    pub fn run(&mut self, limit: u64) -> u64 {
        for done in 0..limit {
            if self.stopped {
                return done;
            }
            self.turn();
        }
        limit
    }
}
