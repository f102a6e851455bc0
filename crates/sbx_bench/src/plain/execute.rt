//! What instructions do.

use super::results::{
    difference, logic_codes, product, quotient, shifted_right, signed_field, sum,
};
use super::{Modes, Plain};

/// The two operands, the destination and the minor opcode of an instruction of three registers.
#[derive(Clone, Copy)]
struct Fields {
    op3: u32,
    rd: u32,
    a: u32,
    b: u32,
}

/// Whether a condition holds at these codes.
#[inline(always)]
fn holds(condition: u32, codes: u32) -> bool {
    let (n, z, v, c) = (
        codes & 8 != 0,
        codes & 4 != 0,
        codes & 2 != 0,
        codes & 1 != 0,
    );
    let holds = match condition & 7 {
        0 => false,
        1 => z,
        2 => z || n != v,
        3 => n != v,
        4 => c || z,
        5 => c,
        6 => n,
        _ => v,
    };
    holds != (condition & 8 != 0)
}

impl Plain {
    /// Executes an instruction, and gives what nPC becomes, or the number of the trap.
    #[inline(always)]
    pub(super) fn execute(&mut self, word: u32) -> Result<u32, u32> {
        let next = self.npc.wrapping_add(4);
        match word >> 30 {
            0 => self.branch_or_set(word, next),
            1 => {
                self.set(15, self.pc);
                Ok(self.pc.wrapping_add(word << 2))
            }
            2 => self.compute(self.fields(word), word, next),
            _ => {
                self.transfer(self.fields(word))?;
                Ok(next)
            }
        }
    }

    #[inline(always)]
    fn fields(&self, word: u32) -> Fields {
        let b = if word & 0x2000 != 0 {
            signed_field(word & 0x1FFF, 0x1000)
        } else {
            self.register(word)
        };
        Fields {
            op3: (word >> 19) & 63,
            rd: (word >> 25) & 31,
            a: self.register(word >> 14),
            b,
        }
    }

    #[inline(always)]
    fn branch_or_set(&mut self, word: u32, next: u32) -> Result<u32, u32> {
        match (word >> 22) & 7 {
            4 => {
                self.set(word >> 25, word << 10);
                Ok(next)
            }
            2 => {
                let condition = (word >> 25) & 15;
                let annuls = word & 0x2000_0000 != 0;
                if !holds(condition, self.codes) {
                    self.annul = annuls;
                    return Ok(next);
                }
                self.annul = annuls && condition == 8;
                let displacement = signed_field(word & 0x3F_FFFF, 0x20_0000);
                Ok(self.pc.wrapping_add(displacement << 2))
            }
            6 => Err(4),
            7 => Err(0x24),
            _ => Err(2),
        }
    }

    #[inline(always)]
    fn set_with(&mut self, rd: u32, out: (u32, u32)) {
        self.set(rd, out.0);
        self.codes = out.1;
    }

    #[inline(always)]
    fn set_logic(&mut self, rd: u32, value: u32) {
        self.set(rd, value);
        self.codes = logic_codes(value);
    }

    #[inline(always)]
    fn compute(&mut self, fields: Fields, word: u32, next: u32) -> Result<u32, u32> {
        let Fields { op3, rd, a, b } = fields;
        match op3 {
            0x00 => self.set(rd, a.wrapping_add(b)),
            0x01 => self.set(rd, a & b),
            0x02 => self.set(rd, a | b),
            0x03 => self.set(rd, a ^ b),
            0x04 => self.set(rd, a.wrapping_sub(b)),
            0x05 => self.set(rd, a & !b),
            0x06 => self.set(rd, a | !b),
            0x07 => self.set(rd, !(a ^ b)),
            0x08 => self.set(rd, a.wrapping_add(b).wrapping_add(self.codes & 1)),
            0x0C => self.set(rd, a.wrapping_sub(b).wrapping_sub(self.codes & 1)),
            0x10 => self.set_with(rd, sum(a, b, 0)),
            0x11 => self.set_logic(rd, a & b),
            0x12 => self.set_logic(rd, a | b),
            0x13 => self.set_logic(rd, a ^ b),
            0x14 => self.set_with(rd, difference(a, b, 0)),
            0x15 => self.set_logic(rd, a & !b),
            0x16 => self.set_logic(rd, a | !b),
            0x17 => self.set_logic(rd, !(a ^ b)),
            0x18 => self.set_with(rd, sum(a, b, self.codes & 1)),
            0x1C => self.set_with(rd, difference(a, b, self.codes & 1)),
            0x25 => self.set(rd, a << (b & 31)),
            0x26 => self.set(rd, a >> (b & 31)),
            0x27 => self.set(rd, shifted_right(a, b)),
            0x0A | 0x0B | 0x1A | 0x1B => self.multiply(fields),
            0x0E | 0x0F | 0x1E | 0x1F => self.divide(fields)?,
            0x20..=0x24 => self.step(fields),
            _ => return self.control(fields, word, next),
        }
        Ok(next)
    }

    fn multiply(&mut self, fields: Fields) {
        let (high, low) = product(fields.op3 & 1 != 0, fields.a, fields.b);
        self.y = high;
        self.set(fields.rd, low);
        if fields.op3 & 16 != 0 {
            self.codes = logic_codes(low);
        }
    }

    fn divide(&mut self, fields: Fields) -> Result<(), u32> {
        if fields.b == 0 {
            return Err(0x2A);
        }
        let (value, overflows) = quotient(fields.op3 & 1 != 0, self.y, fields.a, fields.b);
        self.set(fields.rd, value);
        if fields.op3 & 16 != 0 {
            self.codes = logic_codes(value) | (u32::from(overflows) << 1);
        }
        Ok(())
    }

    /// Tagged sums and differences, and the multiply step.
    fn step(&mut self, fields: Fields) {
        let Fields { op3, rd, a, b } = fields;
        if op3 == 0x24 {
            let sign = ((self.codes >> 3) ^ (self.codes >> 1)) << 31;
            let addend = if self.y & 1 == 1 { b } else { 0 };
            self.set_with(rd, sum(sign | (a >> 1), addend, 0));
            self.y = (a << 31) | (self.y >> 1);
            return;
        }
        self.set_with(
            rd,
            if op3 & 1 == 0 {
                sum(a, b, 0)
            } else {
                difference(a, b, 0)
            },
        );
        if (a | b) & 3 != 0 {
            self.codes |= 2;
        }
    }

    /// Windows, jumps, traps and Y; and what a supervisor alone may do.
    fn control(&mut self, fields: Fields, word: u32, next: u32) -> Result<u32, u32> {
        let Fields { op3, rd, a, b } = fields;
        match op3 {
            0x28 => self.set(rd, self.y),
            0x30 => self.y = a ^ b,
            0x38 => {
                let place = a.wrapping_add(b);
                if place & 3 != 0 {
                    return Err(7);
                }
                self.set(rd, self.pc);
                return Ok(place);
            }
            0x3A => {
                if holds(word >> 25, self.codes) {
                    return Err(0x80 | (a.wrapping_add(b) & 0x7F));
                }
            }
            0x3B => {}
            0x3C => self.change(self.below(), 5, fields)?,
            0x3D => self.change(self.above(), 6, fields)?,
            0x34 | 0x35 => return Err(4),
            0x36 | 0x37 => return Err(0x24),
            _ => return self.supervise(fields, next),
        }
        Ok(next)
    }

    /// SAVE or RESTORE.
    fn change(&mut self, window: usize, trap: u32, fields: Fields) -> Result<(), u32> {
        if self.is_invalid(window) {
            return Err(trap);
        }
        self.enter(window);
        self.set(fields.rd, fields.a.wrapping_add(fields.b));
        Ok(())
    }

    fn supervise(&mut self, fields: Fields, next: u32) -> Result<u32, u32> {
        let Fields { op3, rd, a, b } = fields;
        if !self.modes.supervisor {
            return Err(3);
        }
        match op3 {
            0x29 => self.set(rd, self.status()),
            0x2A => self.set(rd, self.mask),
            0x2B => self.set(rd, self.base),
            0x31 => self.set_status(a ^ b)?,
            0x32 => self.mask = (a ^ b) & 0xFF,
            0x33 => self.base = ((a ^ b) & !0xFFF) | (self.base & 0xFF0),
            0x39 => return self.leave(a.wrapping_add(b)),
            _ => return Err(2),
        }
        Ok(next)
    }

    fn status(&self) -> u32 {
        (self.codes << 20)
            | (u32::from(self.modes.supervisor) << 7)
            | (u32::from(self.modes.previous) << 6)
            | (u32::from(self.modes.traps) << 5)
            | (self.window & 7) as u32
    }

    fn set_status(&mut self, word: u32) -> Result<(), u32> {
        if word & 31 >= 8 {
            return Err(2);
        }
        self.codes = (word >> 20) & 15;
        self.modes = Modes {
            supervisor: word & 128 != 0,
            previous: word & 64 != 0,
            traps: word & 32 != 0,
        };
        self.enter((word & 7) as usize);
        Ok(())
    }

    /// RETT.
    fn leave(&mut self, place: u32) -> Result<u32, u32> {
        if self.modes.traps {
            return Err(2);
        }
        if self.is_invalid(self.above()) {
            return Err(6);
        }
        self.enter(self.above());
        self.modes.traps = true;
        self.modes.supervisor = self.modes.previous;
        Ok(place)
    }

    /// Loads and stores, which no code that is measured makes in another space.
    #[inline(always)]
    fn transfer(&mut self, fields: Fields) -> Result<(), u32> {
        let va = fields.a.wrapping_add(fields.b);
        let size = match fields.op3 {
            1 | 5 | 9 | 13 => 1,
            2 | 6 | 10 => 2,
            0 | 4 | 15 => 4,
            3 | 7 => 8,
            _ => return Err(2),
        };
        if size == 8 && fields.rd & 1 == 1 {
            return Err(2);
        }
        if va & (size - 1) != 0 {
            return Err(7);
        }
        match self.moved(fields, va, size) {
            Some(()) => Ok(()),
            None => Err(9),
        }
    }

    #[inline(always)]
    fn moved(&mut self, fields: Fields, va: u32, size: u32) -> Option<()> {
        let rd = fields.rd;
        match fields.op3 {
            3 => {
                let number = self.load(va, 8)?;
                self.set(rd, (number >> 32) as u32);
                self.set(rd | 1, (number & 0xFFFF_FFFF) as u32);
            }
            4 | 5 | 6 => self.store(va, size, u64::from(self.register(rd)))?,
            7 => {
                let high = u64::from(self.register(rd)) << 32;
                self.store(va, 8, high | u64::from(self.register(rd | 1)))?;
            }
            13 | 15 => {
                let number = self.load(va, size)?;
                let stored = if size == 1 { 0xFF } else { self.register(rd) };
                self.store(va, size, u64::from(stored))?;
                self.set(rd, (number & 0xFFFF_FFFF) as u32);
            }
            op3 => {
                let number = (self.load(va, size)? & 0xFFFF_FFFF) as u32;
                self.set(rd, extended(op3, number));
            }
        }
        Some(())
    }
}

/// A loaded number as a word: signed bytes and halfwords are extended.
#[inline(always)]
fn extended(op3: u32, number: u32) -> u32 {
    match op3 {
        9 => signed_field(number & 0xFF, 0x80),
        10 => signed_field(number & 0xFFFF, 0x8000),
        _ => number,
    }
}
