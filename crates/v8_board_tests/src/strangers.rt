//! Code that nobody wrote: words by chance, whose runs stay contained.
ghost use Rattle.std.specs.Prelude.{ℕ, ◌<◌, ◌≤◌};

use crate::boards::{Placed, Tested, board_over, has_words, load_image, put_words, step};
use crate::images::regions_image;
use crate::ports::Probe;
use sbx_image::Image;
use std::alloc::{AllocError, Global};
use std::test::Fail;
use v8_board::Ending;
use v8_core::{DataAccess, Turn};
use v8_mmu::PortFault;

/// Numbers that look like chance, and are the same in each run.
#[derive(Clone, Copy)]
struct Dice {
    state: u32,
}

impl Dice {
    /// A number below so many.
    fn throw(&mut self, sides: u32) -> u32
        requires { 1 ≤ sides }
        ensures { result < sides }
    {
        self.state = self
            .state
            .wrapping_mul(1_664_525)
            .wrapping_add(1_013_904_223);
        (self.state >> 8) % sides
    }
}

/// The upper 22 bits of addresses: code, data that may be read alone, data that may be written, stack, the trap table,
/// the handlers, the device, the page tables as they lie in physical memory, and a page of user code's that isn't
/// mapped.
const PLACES: [u32; 9] = [
    0x100, 0x200, 0x204, 0x3FF, 0x3C_0000, 0x3C_0004, 0x3C_0040, 0x8, 0x3C0,
];

/// The opcodes of loads, stores and exchanges, four of them of an alternate space.
const TRANSFERS: [u32; 16] = [
    0x00, 0x01, 0x02, 0x03, 0x04, 0x05, 0x06, 0x07, 0x09, 0x0A, 0x0D, 0x0F, 0x10, 0x14, 0x17, 0x1F,
];

/// `sethi` of one of the places.
fn place(dice: &mut Dice) -> u32 {
    let chosen = dice.throw(9) as usize;
    0x0100_0000 | (dice.throw(32) << 25) | PLACES[chosen]
}

/// The fields of rd and rs1.
fn registers(dice: &mut Dice) -> u32 {
    (dice.throw(32) << 25) | (dice.throw(32) << 14)
}

/// A load, a store or an exchange at a register and an offset, a multiple of 8.
fn transfer(dice: &mut Dice) -> u32 {
    let chosen = dice.throw(16) as usize;
    let offset = dice.throw(1024) << 3;
    0xC000_2000 | registers(dice) | (TRANSFERS[chosen] << 19) | offset
}

/// Any instruction of the arithmetic format, with an immediate: results, windows, jumps, traps, state registers,
/// illegal ones.
fn result(dice: &mut Dice) -> u32 {
    0x8000_2000 | registers(dice) | (dice.throw(64) << 19) | dice.throw(0x2000)
}

/// A branch some words on or back.
fn branch(dice: &mut Dice) -> u32 {
    let way = if dice.throw(2) == 0 {
        dice.throw(8)
    } else {
        0x3F_FFFF - dice.throw(8)
    };
    0x0080_0000 | (dice.throw(32) << 25) | way
}

/// A SAVE that moves the stack pointer up or down, a RESTORE, or `ta 0` to `ta 7`.
fn window(dice: &mut Dice) -> u32 {
    match dice.throw(3) {
        0 => 0x9DE3_A000 | (dice.throw(0x400) << 3),
        1 => 0x81E8_0000,
        _ => 0x91D0_2000 | dice.throw(8),
    }
}

fn word(dice: &mut Dice) -> u32 {
    match dice.throw(8) {
        0 | 1 => place(dice),
        2 | 3 => transfer(dice),
        4 => result(dice),
        5 => branch(dice),
        _ => window(dice),
    }
}

/// A program that nobody wrote.
fn stranger(dice: &mut Dice) -> [u32; 24] {
    let mut words = [0; 24];
    for k in 0..24usize {
        words[k] = word(dice);
    }
    words
}

/// Whether bytes lie in the one page of stack or the page of data that may be written, or, of a load, in the page that
/// may be read alone: all of them where they are aligned.
fn is_own(access: &DataAccess) -> bool {
    match access.va >> 12 {
        0x81 | 0xFF => true,
        0x80 => !access.store,
        _ => false,
    }
}

/// Whether the device was reached by none but the second word of a vector.
fn is_by_vector(pc: u32, access: &DataAccess) -> bool {
    access.va >> 12 != 0xF_0010 || ((0xF000_0000..0xF000_1000).contains(&pc) && pc % 16 == 4)
}

/// Whether a turn fetched and reached nothing but what it may: user code the one page of code, those of the data and
/// that of the stack.
fn is_allowed(turn: &Turn) -> bool {
    let fetched = !turn.user || turn.word.is_none() || (0x4_0000..0x4_1000).contains(&turn.pc);
    match &turn.access {
        None => fetched,
        Some(access) if turn.user => fetched && is_own(access),
        Some(access) => is_by_vector(turn.pc, access),
    }
}

/// Whether each of so many turns is allowed, up to an end.
fn are_allowed(board: &mut Tested, turns: u32) -> bool {
    for _ in 0..turns {
        if board.ending().is_some() {
            return true;
        }
        match step(board) {
            Ok(turn) if is_allowed(&turn) => {}
            _ => return false,
        }
    }
    true
}

/// A new board.
fn board(alloc: Global) -> Result<Tested, AllocError> {
    board_over(alloc, Probe::new(alloc, b"", 0, PortFault::Writer))
}

/// The trap table, the handlers and the tables, and the first pages of code and of data, R and M aside.
fn first_pages(board: &Tested, alloc: Global) -> Result<Vec<Placed>, AllocError> {
    let mut words = Vec::new(alloc);
    put_words(&mut words, board, 0, 0xB80)?;
    put_words(&mut words, board, 0x1_0000, 1024)?;
    put_words(&mut words, board, 0x5_0000, 1024)?;
    Ok(words)
}

/// The same of a new board that is loaded with an image.
fn loaded_pages(alloc: Global, image: &Image) -> Result<Vec<Placed>, AllocError> {
    let mut fresh = board(alloc)?;
    load_image(&mut fresh, image);
    first_pages(&fresh, alloc)
}

/// Whether a board that runs an image keeps what was loaded, as a new board has it, R and M aside.
fn keeps_pages(watched: &mut Tested, alloc: Global, image: &Image) -> Result<bool, AllocError> {
    let pages = loaded_pages(alloc, image)?;
    load_image(watched, image);
    Ok(are_allowed(watched, 500) && has_words(watched, &pages))
}

/// The same of the image of these words.
fn is_contained(watched: &mut Tested, alloc: Global, words: &[u32]) -> Result<bool, Fail> {
    let image = regions_image(alloc, words)?;
    Ok(keeps_pages(watched, alloc, &image)?)
}

/// How often runs have ended in each way: by an exit, by a trap, in error mode, or not.
#[derive(Clone, Copy)]
struct Ends {
    exits: u32,
    traps: u32,
    errors: u32,
    limits: u32,
}

impl Ends {
    fn note(&mut self, ending: &Option<Ending>) {
        let counted = match ending {
            Some(Ending::Exit(_)) => &mut self.exits,
            Some(Ending::Trapped(_)) => &mut self.traps,
            Some(Ending::ErrorMode(_)) => &mut self.errors,
            Some(Ending::Limit) | None => &mut self.limits,
        };
        *counted = counted.saturating_add(1);
    }

    fn has_all(&self) -> bool {
        self.exits > 0 && self.traps > 0 && self.errors > 0 && self.limits > 0
    }
}

/// How many of a thousand programs of chance are contained, up to the first that isn't; it notes how their runs ended.
fn contained(watched: &mut Tested, alloc: Global, ends: &mut Ends) -> Result<u32, Fail> {
    let mut dice = Dice { state: 1 };
    for number in 0..1000u32 {
        let words = stranger(&mut dice);
        if !is_contained(watched, alloc, &words)? {
            return Ok(number);
        }
        ends.note(&watched.ending());
    }
    Ok(1000)
}

/// The same on a new board.
fn contained_on_a_board(alloc: Global, ends: &mut Ends) -> Result<u32, Fail> {
    let mut watched = board(alloc)?;
    contained(&mut watched, alloc, ends)
}

/// A thousand programs of chance, one after another on one board: none changes what was loaded with it, or reaches what
/// isn't its own.
#[test]
fn strangers_are_contained(rt: HostRuntime) -> Result<(), Fail> {
    let mut ends = Ends {
        exits: 0,
        traps: 0,
        errors: 0,
        limits: 0,
    };
    let number = contained_on_a_board(rt.alloc(), &mut ends)?;
    assert!(rt; number == 1000 && ends.has_all(), "program {number}");
    Ok(())
}
