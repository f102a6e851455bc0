//! A state of processor and memory, as a line has it, and how a line's fields are read into it.
ghost use Rattle.std.specs.Prelude.{◌<◌, IfSome};

use crate::fields::{hexadecimal, number};
use std::alloc::{AllocError, Global};

/// The state registers, and the fault status.
#[derive(Clone, Copy, PartialEq, Eq)]
pub struct Control {
    pub pc: u32,
    pub npc: u32,
    pub psr: u32,
    pub wim: u32,
    pub tbr: u32,
    pub y: u32,
    pub status: u32,
}

const NO_CONTROL: Control = Control {
    pc: 0,
    npc: 0,
    psr: 0,
    wim: 0,
    tbr: 0,
    y: 0,
    status: 0,
};

/// The outs and locals of 32 windows.
const REGISTERS: usize = 16 * 32;

/// The words of RAM that lines name: its first 64 KiB.
pub const WORDS: usize = 0x4000;

/// A state: `annul` is the annul flag, `word` the instruction that a line has, and `windows` has outs and locals of
/// each window, one after the other.
#[derive(Clone, Drop)]
pub struct State {
    pub control: Control,
    pub annul: bool,
    pub word: u32,
    pub globals: [u32; 8],
    pub windows: Vec<u32>,
    pub memory: Vec<u32>,
}

impl State {
    /// A state of zeros with this memory.
    pub fn new(alloc: Global, memory: &Vec<u32>) -> Result<Self, AllocError> {
        Ok(State {
            control: NO_CONTROL,
            annul: false,
            word: 0,
            globals: [0; 8],
            windows: vec![in alloc; 0; REGISTERS]?,
            memory: memory.clone()?,
        })
    }

    /// Sets what a field tells; false where it isn't read.
    pub fn put(&mut self, field: &str) -> bool {
        let Some((name, digits)) = field.split_once('=') else {
            return false;
        };
        match hexadecimal(digits) {
            Some(word) => self.put_named(name, word),
            None => false,
        }
    }

    /// Sets all that these fields tell, which stand a blank apart; false where one isn't read.
    pub fn put_all(&mut self, fields: &str) -> bool {
        let mut all = true;
        for field in fields.split(' ') {
            all &= self.put(field);
        }
        all
    }

    fn put_named(&mut self, name: &str, word: u32) -> bool {
        match name {
            "pc" => self.control.pc = word,
            "npc" => self.control.npc = word,
            "psr" => self.control.psr = word,
            "wim" => self.control.wim = word,
            "tbr" => self.control.tbr = word,
            "y" => self.control.y = word,
            "fsr" => self.control.status = word,
            "annul" => self.annul = word == 1,
            "word" => self.word = word,
            _ => return self.put_place(name, word),
        }
        true
    }

    /// Sets a word of RAM, whose place stands in brackets, or a register: `g3`, or `o5.31` and `l5.31` for out 5 and
    /// local 5 of window 31.
    fn put_place(&mut self, name: &str, word: u32) -> bool {
        if let Some(place) = name.strip_prefix('[') {
            return put_word(&mut self.memory, place, word);
        }
        match name.split_once('.') {
            Some((head, window)) => put_at(&mut self.windows, window_number(head, window), word),
            None => put_at(&mut self.globals, global_number(name), word),
        }
    }
}

/// Sets the word of RAM at a place, which is spelled up to a bracket.
pub fn put_word(memory: &mut [u32], place: &str, word: u32) -> bool {
    put_at(memory, word_number(place), word)
}

/// Sets the word of this number, if there is one.
fn put_at(words: &mut [u32], at: Option<usize>, word: u32) -> bool {
    let Some(at) = at else {
        return false;
    };
    match words.get_mut(at) {
        Some(place) => {
            *place = word;
            true
        }
        None => false,
    }
}

/// The number of the word of RAM at a place, which a bracket ends.
fn word_number(text: &str) -> Option<usize> {
    let place = hexadecimal(text.strip_suffix(']')?)?;
    if place % 4 != 0 {
        return None;
    }
    Some((place / 4) as usize)
}

/// The digit of a register, 0 to 7, behind its kind.
fn digit_behind(kind: u8, name: &str) -> Option<usize>
    ensures { IfSome result (λ digit. digit < 8) }
{
    let &[first, digit] = name.as_bytes() else {
        return None;
    };
    if first != kind || digit < b'0' || digit > b'7' {
        return None;
    }
    Some(usize::from(digit - b'0'))
}

/// The number of a global register.
fn global_number(name: &str) -> Option<usize> {
    digit_behind(b'g', name)
}

/// The number of an out or a local among those of all windows.
fn window_number(name: &str, window: &str) -> Option<usize> {
    let window = number(window)?;
    if window > 31 {
        return None;
    }
    let first = 16 * window as usize;
    match digit_behind(b'o', name) {
        Some(out) => Some(first + out),
        None => Some(first + 8 + digit_behind(b'l', name)?),
    }
}
