//! What a statement does.
ghost use Rattle.std.specs.Prelude.{◌≡◌, ◌<◌, ◌≤◌, ◌+◌, ◌^◌, IfOk, Some, None, length, slice_index, if◌then◌else◌};
ghost use Rattle.native_lang.specs.Memory.{bytes_of_width, loaded, stored};
ghost use Rattle.std.specs.Prelude.{false};
ghost use Rattle.v8_alu.specs.Outcomes.{division_of};
ghost use Rattle.native_lang.specs.Counts.{Counted};
ghost use Rattle.native_lang.specs.World.{division, does, eight_of, gets, no_codes, parted, popped};
ghost use Rattle.native_lang.specs.World.{pushed, put_words, stores, world_of};

use crate::counts::{enters, leaves, makes};
use crate::expr::Variables;
use crate::memory::{has_room, number_of, put_number};
use crate::state::{Interpreter, SavedWindow};
use crate::stmt::{NumberWidth, Stmt};
use std::alloc::AllocError;
use v8_alu::{Division, Icc, divide};

/// Eight words, from one on.
#[inline(always)]
fn eight(words: &Variables, from: usize) -> [u32; 8]
    requires { from + 8 ≤ 256 }
    ensures { result ≡ eight_of words.now from }
{
    [
        words[from],
        words[from + 1],
        words[from + 2],
        words[from + 3],
        words[from + 4],
        words[from + 5],
        words[from + 6],
        words[from + 7],
    ]
}

/// Writes eight words, from one on.
#[inline(always)]
fn put_eight(words: &mut Variables, from: usize, eight: &[u32; 8])
    requires { from + 8 ≤ 256 }
    ensures { words.new ≡ put_words words.old from eight.now 8 }
{
    for k in 0..8 {
        words[from + k] = eight[k];
    }
}

/// A quotient as the nearest word, and 1 where that is another number; none at divisor 0.
fn quotient(sign: bool, y: u32, a: u32, b: u32) -> Option<(u32, u32)>
    ensures { result ≡ parted (division_of (division sign) a b no_codes y) }
{
    let icc = Icc {
        n: false,
        z: false,
        v: false,
        c: false,
    };
    let op = if sign {
        Division::SdivCc
    } else {
        Division::UdivCc
    };
    match divide(op, a, b, icc, y) {
        None => None,
        Some(out) => Some((out.value, u32::from(out.icc.v))),
    }
}

impl Interpreter<'_> {
    /// The number at an address, where the block has it.
    #[inline(always)]
    fn load(&self, address: u32, width: NumberWidth) -> Option<u32>
        ensures { result ≡ loaded self.now.block.items address (bytes_of_width width) }
    {
        if !has_room(address, width) {
            return None;
        }
        let place = (address - 0x80000) as usize;
        Some(number_of(self.block.as_slice(), place, width.bytes()) as u32)
    }

    /// The next byte of the input, or all ones at its end.
    #[inline(always)]
    fn get(&mut self, x: u8)
        ensures world { world_of self.new ≡ gets x self.old.input.now (world_of self.old) }
        ensures turns { self.new.traffic ≡ self.old.traffic }
        ensures windows { self.new.windows ≡ self.old.windows }
    {
        match self.input.split_first() {
            Some((byte, rest)) => {
                let byte = *byte;
                self.input = rest;
                self.variables[x as usize] = u32::from(byte);
            }
            None => self.variables[x as usize] = u32::MAX,
        }
    }

    /// Writes a number, where the block has room for it; false, and nothing is done, where it has none.
    #[inline(always)]
    fn store(&mut self, address: u32, width: NumberWidth, number: u32) -> bool
        ensures world { stores (stored self.old.block.items address (bytes_of_width width) number) (world_of self.old) ≡
            (if result then Some (world_of self.new) else None) }
        ensures turns { self.new.traffic ≡ self.old.traffic }
        ensures windows { self.new.windows ≡ self.old.windows }
    {
        if !has_room(address, width) {
            return false;
        }
        let place = (address - 0x80000) as usize;
        put_number(self.block.as_mut_slice(), place, width.bytes(), number);
        true
    }

    /// Locals and ins go on the stack of saved windows, and outs become ins.
    fn push(&mut self) -> Result<(), AllocError>
        ensures world { IfOk result (λ _. world_of self.new ≡ pushed (world_of self.old)) }
        ensures turns { self.new.traffic ≡ self.old.traffic }
        ensures windows { self.new.windows ≡ self.old.windows }
    {
        let outs = eight(&self.variables, 8);
        let locals = eight(&self.variables, 16);
        let ins = eight(&self.variables, 24);
        self.saved.push(SavedWindow { locals, ins })?;
        put_eight(&mut self.variables, 24, &outs);
        Ok(())
    }

    /// And back; false, and nothing is done, where none is saved.
    fn pop(&mut self) -> bool
        ensures world { popped (world_of self.old).saved (world_of self.old) ≡
            (if result then Some (world_of self.new) else None) }
        ensures turns { self.new.traffic ≡ self.old.traffic }
        ensures windows { self.new.windows ≡ self.old.windows }
    {
        match self.saved.pop() {
            None => false,
            Some(window) => {
                let outs = eight(&self.variables, 24);
                put_eight(&mut self.variables, 8, &outs);
                put_eight(&mut self.variables, 16, &window.locals);
                put_eight(&mut self.variables, 24, &window.ins);
                true
            }
        }
    }

    /// Does a statement; false where it has no meaning.
    pub fn act(&mut self, stmt: &Stmt) -> Result<bool, AllocError>
        requires { self.old.traffic.turns ≤ 2 ^ 62 }
        ensures world { IfOk result (λ went. does self.old.windows stmt.now (world_of self.old) ≡
            (if went then Some (world_of self.new) else None)) }
        ensures windows { self.new.windows ≡ self.old.windows }
        ensures turns { self.new.traffic.turns ≤ self.old.traffic.turns + 65535 }
    {
        match stmt {
            Stmt::Set(x, e) => {
                let word = e.value(&self.variables);
                self.variables[*x as usize] = word;
            }
            Stmt::Load(x, width, e) => {
                let address = e.value(&self.variables);
                let Some(word) = self.load(address, *width) else {
                    return Ok(false);
                };
                self.variables[*x as usize] = word;
            }
            Stmt::Store(width, a, e) => {
                let address = a.value(&self.variables);
                let word = e.value(&self.variables);
                return Ok(self.store(address, *width, word));
            }
            Stmt::Divide(x, overflow, sign, y, a, b) => {
                let high = y.value(&self.variables);
                let low = a.value(&self.variables);
                let divisor = b.value(&self.variables);
                let Some((word, saturated)) = quotient(*sign, high, low, divisor) else {
                    return Ok(false);
                };
                self.variables[*x as usize] = word;
                self.variables[*overflow as usize] = saturated;
            }
            Stmt::Get(x) => self.get(*x),
            Stmt::Put(e) => {
                let word = e.value(&self.variables);
                self.output.push((word % 0x100) as u8)?;
            }
            Stmt::Turns(k) => self.traffic = makes(*k, self.traffic),
            Stmt::Enter => self.traffic = enters(self.windows, self.traffic),
            Stmt::Leave => self.traffic = leaves(self.windows, self.traffic),
            Stmt::Push => self.push()?,
            Stmt::Pop => return Ok(self.pop()),
        }
        Ok(true)
    }
}
