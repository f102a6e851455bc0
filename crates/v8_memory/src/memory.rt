//! RAM and the device, as a bus.
ghost use Rattle.std.specs.Prelude.{◌≡◌, ℕ, ◌+◌, ◌*◌, ◌%◌, ◌-◌, ◌^◌, ◌<◌, ◌≤◌, ◌==◌, not, [], length, IfErr, IfOk};
ghost use Rattle.std.specs.Prelude.{OnErr, None, false, Option};
ghost use Rattle.v8_mmu.specs.Answers.{Grows, call_if, failed_after};
ghost use Rattle.v8_mmu.specs.Meaning.{stored_after};
ghost use Rattle.v8_mmu.specs.States.{Leaves};
ghost use Rattle.v8_map.specs.declared.TheConstants.{RAM};
ghost use Rattle.v8_memory.specs.Placing.{HasWords, HasBytesOf};
ghost use Rattle.v8_mmu.specs.Ram.{AreBytes, entry_of};
ghost use Rattle.v8_memory.specs.Board.{IsBlank, board_seen, device_store, gets, seen, with_ram};

use crate::port::Port;
use crate::ram::Ram;
use std::alloc::{AllocError, Global};
use v8_map::DEVICE_PLACE;
use v8_mmu::{Bus, BusFault, PortBus, PortFault, Size, Stop};

/// What a load of the input register gives at the end of the input.
const NO_BYTE: u64 = 0xFFFF_FFFF;

/// RAM of 1 MiB from physical address 0, and from 100000000 (hexadecimal) on a device of four registers of a word: a
/// load of the first gives the next byte of input, or FFFFFFFF at its end; a store to the second puts the word's low
/// byte out, one to the third stops the machine with the word as its exit status, and one to the fourth stops it as
/// trapped. Nothing else answers there.
#[derive(Drop)]
pub struct Memory<P: Port> {
    ram: Ram,
    port: P,
    ended: bool,
    stopped: Option<Stop>,
}

impl<P: Port> Memory<P> {
    /// RAM of zeros and a device that has neither stopped nor met the end of its input. A refusal of memory drops the
    /// port.
    pub fn new(alloc: Global, port: P) -> Result<Self, AllocError>
        ensures ram { IfOk result (λ m. IsBlank m.ram) }
        ensures port { IfOk result (λ m. m.port ≡ port) }
        ensures ended { IfOk result (λ m. m.ended ≡ false) }
        ensures stopped { IfOk result (λ m. m.stopped ≡ None) }
    {
        Ok(Memory {
            ram: Ram::new(alloc)?,
            port,
            ended: false,
            stopped: None,
        })
    }

    /// Takes back the device's stop and the end of its input. RAM, which holds bytes, stays.
    pub fn restart(&mut self)
        ensures ram { self.new.ram ≡ self.old.ram }
        ensures bytes { AreBytes self.new.ram }
        ensures port { self.new.port ≡ self.old.port }
        ensures ended { self.new.ended ≡ false }
        ensures stopped { self.new.stopped ≡ None }
    {
        self.ram.tells_bytes();
        self.ended = false;
        self.stopped = None;
    }

    /// The word of RAM that begins at `pa`, a multiple of 4; None elsewhere.
    pub fn word(&self, pa: u64) -> Option<u32>
        ensures { result ≡ entry_of self.now.ram pa }
    {
        self.ram.entry(pa)
    }

    /// Writes so many words to RAM from `at` on, a multiple of 4; past the end of `words` they are 0.
    pub fn set_words(&mut self, at: u64, words: &[u32], count: u64)
        requires whole { at % 4 ≡ 0 }
        requires fits { at + 4 * count ≤ RAM }
        ensures ram { HasWords at words.now count self.old.ram self.new.ram }
        ensures size { length self.new.ram ≡ RAM }
        ensures port { self.new.port ≡ self.old.port }
        ensures ended { self.new.ended ≡ self.old.ended }
        ensures stopped { self.new.stopped ≡ self.old.stopped }
    {
        self.ram.set_words(at, words, count);
    }

    /// Writes so many bytes to RAM from `at` on; past the end of `bytes` they are 0.
    pub fn set_bytes(&mut self, at: u64, bytes: &[u8], count: u64)
        requires { at + count ≤ RAM }
        ensures ram { HasBytesOf at bytes.now count self.old.ram self.new.ram }
        ensures size { length self.new.ram ≡ RAM }
        ensures port { self.new.port ≡ self.old.port }
        ensures ended { self.new.ended ≡ self.old.ended }
        ensures stopped { self.new.stopped ≡ self.old.stopped }
    {
        self.ram.set_bytes(at, bytes, count);
    }

    /// The port.
    pub fn port(&self) -> &P
        ensures { result.now ≡ self.now.port }
    {
        &self.port
    }

    /// The word of the first register.
    #[tactic(auto, unfolding(crate::specs::Board::gets))]
    fn get_word(&mut self) -> Result<u64, PortFault>
        ensures small { IfOk result (λ v. v < 2 ^ 32) }
        ensures ok { IfOk result
            (λ v. gets (seen (P.input self.old.port) self.old.ended (P.output self.old.port) self.old.stopped) ≡
            (v, seen (P.input self.new.port) self.new.ended (P.output self.new.port) self.new.stopped)) }
        ensures ram { self.new.ram ≡ self.old.ram }
        ensures ended { OnErr result (self.new.ended ≡ self.old.ended) }
        ensures stopped { self.new.stopped ≡ self.old.stopped }
        ensures input { OnErr result (P.input self.new.port ≡ P.input self.old.port) }
        ensures output { P.output self.new.port ≡ P.output self.old.port }
        ensures count { P.failed self.new.port ≡ failed_after result (P.failed self.old.port) }
        ensures calls { Grows (call_if (not self.old.ended)) (P.calls self.old.port) (P.calls self.new.port) }
        ensures own { IfErr result (λ fault. P.fault self.new.port ≡ fault) }
    {
        if self.ended {
            return Ok(NO_BYTE);
        }
        match self.port.get() {
            Ok(Some(byte)) => Ok(u64::from(byte)),
            Ok(None) => {
                self.ended = true;
                Ok(NO_BYTE)
            }
            Err(fault) => Err(fault),
        }
    }

    /// Stores a word at a place in the device.
    #[tactic(auto, unfolding(crate::specs::Board::device_store))]
    fn put_word(&mut self, place: u64, value: u64) -> Result<(), BusFault>
        requires { value < 2 ^ 32 }
        ensures ends { let old = board_seen P.Port self.old.ram self.old.port self.old.ended self.old.stopped in
            Leaves (stored_after tt (with_ram self.old.ram (device_store old.held.device place Size.Word value)))
            (call_if (place == 4)) result old
            (board_seen P.Port self.new.ram self.new.port self.new.ended self.new.stopped) }
        ensures ram { self.new.ram ≡ self.old.ram }
    {
        match place {
            4 => match self.port.put((value & 0xFF) as u8) {
                Ok(()) => Ok(()),
                Err(fault) => Err(BusFault::Port(fault)),
            },
            8 => {
                self.stopped = Some(Stop::Exit(value as u32));
                Ok(())
            }
            12 => {
                self.stopped = Some(Stop::Trapped);
                Ok(())
            }
            _ => Err(BusFault::Unanswered),
        }
    }
}

#[tactic(auto, unfolding(crate::specs::Board::board_load, crate::specs::Board::board_store, crate::specs::Board::device_load, crate::specs::Board::device_store))]
impl<P: Port> Bus for Memory<P> {
    ghost use Rattle.v8_memory.specs.Board.{Device, board, board_seen};

    ghost Device = { Device };

    ghost state = { λ m. board_seen P.Port m.ram m.port m.ended m.stopped };

    ghost meaning = { board };

    fn entry(&self, pa: u64) -> Option<u32> {
        self.ram.entry(pa)
    }

    fn set_entry(&mut self, pa: u64, word: u32) {
        self.ram.set_entry(pa, word);
    }

    #[inline(always)]
    fn read(&mut self, pa: u64, size: Size) -> Result<u64, BusFault> {
        if pa < DEVICE_PLACE {
            return match self.ram.read(pa, size) {
                Some(value) => Ok(value),
                None => Err(BusFault::Unanswered),
            };
        }
        match size {
            Size::Word => {
                if pa != DEVICE_PLACE {
                    return Err(BusFault::Unanswered);
                }
                match self.get_word() {
                    Ok(word) => Ok(word),
                    Err(fault) => Err(BusFault::Port(fault)),
                }
            }
            Size::Byte | Size::Half | Size::Double => Err(BusFault::Unanswered),
        }
    }

    #[inline(always)]
    fn write(&mut self, pa: u64, size: Size, value: u64) -> Result<(), BusFault> {
        if pa < DEVICE_PLACE {
            return if self.ram.write(pa, size, value) {
                Ok(())
            } else {
                Err(BusFault::Unanswered)
            };
        }
        match size {
            Size::Word => self.put_word(pa - DEVICE_PLACE, value),
            Size::Byte | Size::Half | Size::Double => Err(BusFault::Unanswered),
        }
    }

    fn swap(&mut self, pa: u64, size: Size, value: u64) -> Result<u64, BusFault> {
        if pa >= DEVICE_PLACE {
            return Err(BusFault::Unanswered);
        }
        match self.ram.read(pa, size) {
            Some(before) => {
                if !self.ram.write(pa, size, value) {
                    return Err(BusFault::Unanswered);
                }
                Ok(before)
            }
            None => Err(BusFault::Unanswered),
        }
    }

    fn stop(&self) -> Option<Stop> {
        self.stopped
    }

    fn failures(&self) -> u64 {
        self.port.failures()
    }
}

impl<P: Port> PortBus for Memory<P> {
    type Port = P;

    ghost port = { λ m. m.port };

    ghost with_port = { λ m w. record m { port = w } };

    fn port_mut(&mut self) -> &mut P {
        &mut self.port
    }
}
