//! A start.
ghost use Rattle.std.specs.Prelude.{◌≡◌, ◌≤◌, ◌+◌, [], ◌∷◌, ◌++◌, IfOk, IfErr, length, nat_le, IsTrue, All};
ghost use Rattle.std.specs.Prelude.{if◌then◌else◌};
ghost use Rattle.v8_map.specs.declared.TheConstants.{RAM};
ghost use Rattle.want.specs.Wants.{refused};
ghost use Rattle.inspect_start.specs.Files.{IsBlank, said, set, set_named, with_bytes, with_number};
ghost use Rattle.inspect_start.specs.Items.{IsRight, shown};
ghost use Rattle.inspect_start.specs.Names.{keeps, most_of};
ghost use Rattle.inspect_start.specs.Starts.{IsFit, plain};

use crate::item::Item;
use crate::names::{StartField, StartName};
use std::alloc::{AllocError, Global};
use v8_map::RAM;
use v8_word::Reg;
use want::Want;

/// PC, nPC, the state registers and Y as words (chapter 4), and the MMU's registers: the physical address of the
/// context table, of 36 bits, and the context (appendix H).
#[derive(Clone, Copy)]
pub struct ControlValue {
    pub pc: u32,
    pub npc: u32,
    pub psr: u32,
    pub wim: u32,
    pub tbr: u32,
    pub y: u32,
    pub table: u64,
    pub context: u32,
}

/// A register of a window, and its word.
#[derive(Clone, Copy)]
pub struct Register {
    pub window: u8,
    pub register: Reg,
    pub word: u32,
}

/// How a machine starts: its state registers, the words of other registers, one after the other, and the bytes of its
/// RAM.
#[derive(Drop)]
pub struct Start {
    pub control: ControlValue,
    pub registers: Vec<Register>,
    pub ram: Vec<u8>,
}

/// Where nothing is said: PC 0, nPC 4, supervisor mode, traps disabled, window 0, and all else 0.
const PLAIN: ControlValue = ControlValue {
    pc: 0,
    npc: 4,
    psr: 0x80,
    wim: 0,
    tbr: 0,
    y: 0,
    table: 0,
    context: 0,
};

/// The bytes of RAM.
const BYTES: usize = RAM as usize;

impl ControlValue {
    /// Puts a number into a field.
    fn put_number(&mut self, field: StartField, number: u64)
        requires { number ≤ most_of (StartName.Control field) }
        ensures { self.new ≡ with_number self.old field number }
    {
        match field {
            StartField::Pc => self.pc = number as u32,
            StartField::Npc => self.npc = number as u32,
            StartField::Psr => self.psr = number as u32,
            StartField::Wim => self.wim = number as u32,
            StartField::Tbr => self.tbr = number as u32,
            StartField::Y => self.y = number as u32,
            StartField::Table => self.table = number,
            StartField::Context => self.context = number as u32,
        }
    }
}

impl Start {
    /// A start in which nothing was said.
    pub fn new(alloc: Global) -> Result<Self, AllocError>
        ensures control { IfOk result (λ start. start.control ≡ plain) }
        ensures registers { IfOk result (λ start. start.registers.items ≡ []) }
        ensures blank { IfOk result (λ start. IsBlank start.ram.items) }
    {
        Ok(Start {
            control: PLAIN,
            registers: Vec::new(alloc),
            ram: vec![in alloc; 0; BYTES]?,
        })
    }

    /// Puts bytes into RAM from an address on; false, with nothing changed, where they don't fit there.
    pub fn put_bytes(&mut self, at: u64, bytes: &[u8]) -> bool
        requires { length self.old.ram.items ≡ RAM }
        ensures fits { result ≡ nat_le (at + length bytes.now) RAM }
        ensures ram { self.new.ram.items ≡
            (if result then with_bytes self.old.ram.items at bytes.now else self.old.ram.items) }
        ensures size { length self.new.ram.items ≡ RAM }
        ensures control { self.new.control ≡ self.old.control }
        ensures registers { self.new.registers ≡ self.old.registers }
    {
        let most = BYTES as u64;
        if at > most || bytes.len() as u64 > most - at {
            return false;
        }
        let first = at as usize;
        self.ram[first..first + bytes.len()].copy_from_slice(bytes);
        true
    }

    /// Adds a register's word.
    fn push_register(&mut self, window: u8, register: Reg, word: u32) -> Result<(), Want>
        ensures said { IfOk result
            (λ _. self.new.registers.items ≡ self.old.registers.items ++ record {
              window = window;
              register =
                  register;
              word = word;
            } ∷ []) }
        ensures control { self.new.control ≡ self.old.control }
        ensures ram { self.new.ram ≡ self.old.ram }
    {
        match self.registers.push(Register {
            window,
            register,
            word,
        }) {
            Ok(()) => Ok(()),
            Err(failed) => Err(Want::from(failed)),
        }
    }

    /// Sets what has a name, of registers that of a window, and gives the window of the registers in the lines below.
    fn set_named(
        &mut self,
        windows: u32,
        window: u8,
        name: &StartName,
        number: u64,
    ) -> Result<u8, Want>
        requires windows { windows ≤ 32 }
        requires fit { IsFit windows self.old }
        requires most { number ≤ most_of name.now }
        requires rule { IsTrue (keeps windows name.now number) }
        ensures said { IfOk result (λ next. said next self.new ≡ set_named (said window self.old) name.now number) }
        ensures fit { IsFit windows self.new }
    {
        match name {
            StartName::Window => Ok(number as u8),
            StartName::Control(field) => {
                self.control.put_number(*field, number);
                Ok(window)
            }
            StartName::Register(register) => {
                self.push_register(window, *register, number as u32)?;
                Ok(window)
            }
        }
    }

    /// Sets what a line says, and gives the window of the registers in the lines below.
    pub(crate) fn set(&mut self, windows: u32, window: u8, item: &Item) -> Result<u8, Want>
        requires windows { windows ≤ 32 }
        requires fit { IsFit windows self.old }
        requires right { IsRight windows (shown item.now) }
        ensures said { IfOk result (λ next. said next self.new ≡ set (said window self.old) (shown item.now)) }
        ensures fit { IsFit windows self.new }
    {
        match item {
            Item::Nothing => Ok(window),
            Item::Bytes(at, bytes) => {
                let _ = self.put_bytes(*at, bytes.as_slice());
                Ok(window)
            }
            Item::Sets(name, number) => self.set_named(windows, window, name, *number),
        }
    }
}
