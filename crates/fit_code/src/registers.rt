//! Sets of registers, of the condition codes and of Y.
use v8_word::{Reg, reg_at};

/// A set of registers but %g0, of the condition codes and of Y.
#[derive(Clone, Copy, PartialEq, Eq)]
pub struct RegisterSet {
    /// A bit for each register, by its number, and behind them one for the codes and one for Y.
    bits: u64,
}

impl RegisterSet {
    /// Nothing.
    pub const NONE: RegisterSet = RegisterSet { bits: 0 };

    /// All registers.
    pub const REGISTERS: RegisterSet = RegisterSet { bits: 0xffff_fffe };

    /// The condition codes.
    pub const CODES: RegisterSet = RegisterSet { bits: 1 << 32 };

    /// Y.
    pub const Y: RegisterSet = RegisterSet { bits: 1 << 33 };

    /// The condition codes and Y, which no block knows of another one.
    pub const CODES_AND_Y: RegisterSet = RegisterSet { bits: 3 << 32 };

    /// %g1 to %g7.
    pub const GLOBALS: RegisterSet = RegisterSet { bits: 0xfe };

    /// %g5 to %g7, which tests and meters work with. Compilers leave them alone.
    pub const SCRATCH: RegisterSet = RegisterSet { bits: 0xe0 };

    /// %l0 to %l7.
    pub const LOCALS: RegisterSet = RegisterSet { bits: 0x00ff_0000 };

    /// The locals and ins, which a function without a window has none of.
    pub const WINDOW: RegisterSet = RegisterSet { bits: 0xffff_0000 };

    /// %sp.
    pub const STACK_POINTER: RegisterSet = RegisterSet { bits: 1 << 14 };

    /// %sp and %fp.
    pub const STACK: RegisterSet = RegisterSet {
        bits: 1 << 14 | 1 << 30,
    };

    /// %sp, %o7, %fp and %i7, which hold frames and ways back.
    pub const HELD: RegisterSet = RegisterSet { bits: 0xc000_c000 };

    /// What a call leaves undefined or with its results: globals, outs, codes and Y.
    pub const LOST_BY_CALL: RegisterSet = RegisterSet {
        bits: 0xfffe | 3 << 32,
    };

    /// One register; nothing of %g0.
    pub fn of(register: Reg) -> RegisterSet {
        RegisterSet {
            bits: 1u64 << register.number() & !1,
        }
    }

    /// So many registers, less than 32, from the one of a number on.
    pub fn range(first: u8, count: u8) -> RegisterSet {
        let low = (1u64 << (count % 32)).wrapping_sub(1);
        RegisterSet {
            bits: low << (first % 32) & 0xffff_fffe,
        }
    }

    /// The registers that have a bit in a word, by their numbers.
    pub fn of_numbers(numbers: u64) -> RegisterSet {
        RegisterSet {
            bits: numbers & 0xffff_fffe,
        }
    }

    /// A bit for each of its registers, by their numbers.
    pub fn numbers(self) -> u64 {
        self.bits & 0xffff_fffe
    }

    /// Puts a register in.
    pub fn insert(&mut self, register: Reg) {
        self.add(RegisterSet::of(register));
    }

    /// Puts in what another set has.
    pub fn add(&mut self, other: RegisterSet) {
        self.bits |= other.bits;
    }

    /// Takes out what another set has.
    pub fn take(&mut self, other: RegisterSet) {
        self.bits &= !other.bits;
    }

    /// Whether a register is in it.
    pub fn contains(self, register: Reg) -> bool {
        !self.is_disjoint(RegisterSet::of(register))
    }

    /// Whether the register of a number is in it.
    pub fn has(self, number: u8) -> bool {
        self.numbers() >> (number % 32) & 1 == 1
    }

    /// What is in one of two sets.
    pub fn union(self, other: RegisterSet) -> RegisterSet {
        RegisterSet {
            bits: self.bits | other.bits,
        }
    }

    /// What is in two sets.
    pub fn intersection(self, other: RegisterSet) -> RegisterSet {
        RegisterSet {
            bits: self.bits & other.bits,
        }
    }

    /// What is in it and not in another set.
    pub fn difference(self, other: RegisterSet) -> RegisterSet {
        RegisterSet {
            bits: self.bits & !other.bits,
        }
    }

    /// Whether nothing is in it.
    pub fn is_empty(self) -> bool {
        self.bits == 0
    }

    /// Whether nothing is in two sets.
    pub fn is_disjoint(self, other: RegisterSet) -> bool {
        self.bits & other.bits == 0
    }

    /// Its registers alone.
    pub fn registers(self) -> RegisterSet {
        self.intersection(RegisterSet::REGISTERS)
    }

    /// What is in use before something reads and writes so much, if this is in use behind it.
    pub fn before(self, reads: RegisterSet, writes: RegisterSet) -> RegisterSet {
        self.difference(writes).union(reads)
    }

    /// Its register of the least number; none where it has none.
    pub fn first(self) -> Option<Reg> {
        if self.registers().is_empty() {
            return None;
        }
        Some(reg_at(self.bits.trailing_zeros(), 0))
    }

    /// How many of six registers, from the one of a number on, go up to the last one of them that is in it.
    pub fn count_of_six(self, first: u8) -> u8 {
        let six = (self.numbers() >> (first % 32) & 0x3f) as u32;
        32u32.saturating_sub(six.leading_zeros()).min(6) as u8
    }

    /// The last one of some registers, by their numbers, that isn't in it; none where all are.
    pub fn last_free(self, candidates: &[u8]) -> Option<Reg> {
        let mut free = None;
        for number in candidates {
            if !self.has(*number) {
                free = Reg::new(*number);
            }
        }
        free
    }
}
