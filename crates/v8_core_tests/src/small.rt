//! A small bus for tests.
#![tactic(auto, unfolding(v8_mmu::specs::Ram::entry_of, v8_mmu::specs::Ram::with_entry))]

ghost use Rattle.std.specs.Prelude.{◌≡◌, ℕ, ◌+◌, ◌*◌, ◌/◌, ◌%◌, ◌^◌, ◌<◌, ◌≤◌, take, drop, ◌++◌, length, nat_le, ◌==◌};
ghost use Rattle.std.specs.Prelude.{◌&&◌, IsTrue, ◌↔◌, IfSome, Some, None, IsSome, false, replicate};
ghost use Rattle.std.specs.Option.{unwrap_or};
ghost use Rattle.std.specs.Int.{w32, w64, from_be_bytes, to_be_bytes};
ghost use Rattle.v8_mmu.specs.Answers.{one_more};
ghost use Rattle.v8_mmu.specs.Meaning.{limit_of};
ghost use Rattle.v8_mmu.specs.Ram.{entry_of, with_entry, HasBytes};
ghost use Rattle.v8_core_tests.specs.Small.{has_half, kept, ram_load, ram_store};

use std::alloc::AllocError;
use v8_mmu::{Bus, BusFault, PortFault, Stop};
use v8_word::Size;
use want::Want;

/// The address of the device's one word.
const DEVICE: u64 = 0x1000_0000;

/// `M` bytes of RAM, and a device of one word: it reads 7, and a word written to it stops the machine. A port that is
/// broken fails at each call.
#[derive(Drop)]
pub struct Small<const M: usize> {
    bytes: [u8; M],
    stop: Option<Stop>,
    pub broken: bool,
    failures: u64,
    fault: PortFault,
}

impl<const M: usize> Small<M> {
    /// RAM whose bytes are all 0, a device that has not stopped, and a port that works.
    pub(crate) fn new() -> Self
        ensures bytes { result.bytes ≡ replicate M 0 }
        ensures stop { result.stop ≡ None }
        ensures broken { result.broken ≡ false }
        ensures failures { result.failures ≡ 0 }
    {
        Small {
            bytes: [0; M],
            stop: None,
            broken: false,
            failures: 0,
            fault: PortFault::Reader,
        }
    }

    /// Writes a word of RAM, where there is one.
    pub(crate) fn put(&mut self, pa: u64, word: u32)
        ensures ram { self.new.bytes ≡ unwrap_or (ram_store self.old.bytes pa Size.Word word) self.old.bytes }
        ensures stop { self.new.stop ≡ self.old.stop }
        ensures broken { self.new.broken ≡ self.old.broken }
        ensures failures { self.new.failures ≡ self.old.failures }
    {
        if let Some(_before) = self.word(pa) {
            self.set_word(pa, word);
        }
    }

    /// The word of RAM at a place.
    pub(crate) fn word_at(&self, place: u64) -> Option<u32>
        ensures { result ≡ entry_of self.now.bytes place }
    {
        self.word(place)
    }

    /// A call of the port that fails.
    fn fails(&mut self, fault: PortFault) -> BusFault
        ensures fault { result ≡ BusFault.Port fault }
        ensures bytes { self.new.bytes ≡ self.old.bytes }
        ensures stop { self.new.stop ≡ self.old.stop }
        ensures count { self.new.failures ≡ one_more self.old.failures }
        ensures last { self.new.fault ≡ fault }
    {
        self.failures = self.failures.saturating_add(1);
        self.fault = fault;
        BusFault::Port(fault)
    }

    fn has(&self, pa: u64, count: u64) -> bool
        requires { count < 9 }
        ensures { result ≡ nat_le (pa + count) (length self.now.bytes) }
    {
        let room = self.bytes.len() as u64;
        if room < count {
            return false;
        }
        pa <= room - count
    }

    fn has_word(&self, pa: u64) -> bool
        ensures { result ≡ (pa % 4 == 0 && nat_le (pa + 4) (length self.now.bytes)) }
    {
        if pa % 4 != 0 {
            return false;
        }
        self.has(pa, 4)
    }

    fn has_half(&self, pa: u64) -> bool
        ensures { result ≡ has_half self.now.bytes pa }
    {
        if pa % 2 != 0 {
            return false;
        }
        self.has(pa, 2)
    }

    fn word(&self, pa: u64) -> Option<u32>
        ensures value { result ≡ entry_of self.now.bytes pa }
        ensures bytes { IsSome result → HasBytes self.now.bytes pa }
    {
        if !self.has_word(pa) {
            return None;
        }
        let at = pa as usize;
        let first = self.bytes[at];
        let second = self.bytes[at + 1];
        let third = self.bytes[at + 2];
        let fourth = self.bytes[at + 3];
        Some(u32::from_be_bytes([first, second, third, fourth]))
    }

    fn set_word(&mut self, pa: u64, word: u32)
        requires { IsSome (entry_of self.old.bytes pa) }
        ensures ram { self.new.bytes ≡ with_entry self.old.bytes pa word }
        ensures stop { self.new.stop ≡ self.old.stop }
        ensures broken { self.new.broken ≡ self.old.broken }
        ensures failures { self.new.failures ≡ self.old.failures }
        ensures fault { self.new.fault ≡ self.old.fault }
    {
        let at = pa as usize;
        let bytes = &mut self.bytes[..];
        bytes[at..at + 4].copy_from_slice(&word.to_be_bytes());
    }

    fn byte(&self, pa: u64) -> Option<u64>
        ensures value { result ≡ ram_load self.now.bytes pa Size.Byte }
        ensures small { IfSome result (λ v. v < 2 ^ 8) }
    {
        if !self.has(pa, 1) {
            return None;
        }
        Some(u64::from(self.bytes[pa as usize]))
    }

    fn half(&self, pa: u64) -> Option<u64>
        ensures value { result ≡ ram_load self.now.bytes pa Size.Half }
        ensures small { IfSome result (λ v. v < 2 ^ 16) }
    {
        if !self.has_half(pa) {
            return None;
        }
        let at = pa as usize;
        let high = self.bytes[at];
        let low = self.bytes[at + 1];
        Some(u64::from(high) * 0x100 + u64::from(low))
    }

    fn double(&self, pa: u64) -> Option<u64>
        ensures value { result ≡ ram_load self.now.bytes pa Size.Double }
    {
        if !self.has(pa, 8) {
            return None;
        }
        let at = pa as usize;
        let bytes = &self.bytes[..];
        let mut number = [0; 8];
        number.copy_from_slice(&bytes[at..at + 8]);
        Some(u64::from_be_bytes(number))
    }

    fn number(&self, pa: u64, size: Size) -> Option<u64>
        ensures value { result ≡ ram_load self.now.bytes pa size }
        ensures small { IfSome result (λ v. v < limit_of size) }
    {
        match size {
            Size::Byte => self.byte(pa),
            Size::Half => self.half(pa),
            Size::Word => match self.word(pa) {
                Some(word) => Some(u64::from(word)),
                None => None,
            },
            Size::Double => self.double(pa),
        }
    }

    fn set_byte(&mut self, pa: u64, value: u64) -> bool
        requires { value < 2 ^ 8 }
        ensures ram { kept result self.new.bytes ≡ ram_store self.old.bytes pa Size.Byte value }
        ensures refused { result ≡ false → self.new.bytes ≡ self.old.bytes }
        ensures stop { self.new.stop ≡ self.old.stop }
        ensures failures { self.new.failures ≡ self.old.failures }
    {
        if !self.has(pa, 1) {
            return false;
        }
        self.bytes[pa as usize] = value as u8;
        true
    }

    fn set_half(&mut self, pa: u64, value: u64) -> bool
        requires { value < 2 ^ 16 }
        ensures ram { kept result self.new.bytes ≡ ram_store self.old.bytes pa Size.Half value }
        ensures refused { result ≡ false → self.new.bytes ≡ self.old.bytes }
        ensures stop { self.new.stop ≡ self.old.stop }
        ensures failures { self.new.failures ≡ self.old.failures }
    {
        if !self.has_half(pa) {
            return false;
        }
        let at = pa as usize;
        self.bytes[at] = (value / 0x100) as u8;
        self.bytes[at + 1] = (value % 0x100) as u8;
        true
    }

    fn set_number_word(&mut self, pa: u64, value: u64) -> bool
        requires { value < 2 ^ 32 }
        ensures ram { kept result self.new.bytes ≡ ram_store self.old.bytes pa Size.Word value }
        ensures refused { result ≡ false → self.new.bytes ≡ self.old.bytes }
        ensures stop { self.new.stop ≡ self.old.stop }
        ensures failures { self.new.failures ≡ self.old.failures }
    {
        match self.word(pa) {
            Some(_old) => {
                self.set_word(pa, value as u32);
                true
            }
            None => false,
        }
    }

    fn set_double(&mut self, pa: u64, value: u64) -> bool
        requires { value < 2 ^ 64 }
        ensures ram { kept result self.new.bytes ≡ ram_store self.old.bytes pa Size.Double value }
        ensures refused { result ≡ false → self.new.bytes ≡ self.old.bytes }
        ensures stop { self.new.stop ≡ self.old.stop }
        ensures failures { self.new.failures ≡ self.old.failures }
    {
        if !self.has(pa, 8) {
            return false;
        }
        let at = pa as usize;
        let bytes = &mut self.bytes[..];
        bytes[at..at + 8].copy_from_slice(&value.to_be_bytes());
        true
    }

    fn set_number(&mut self, pa: u64, size: Size, value: u64) -> bool
        requires { value < limit_of size }
        ensures ram { kept result self.new.bytes ≡ ram_store self.old.bytes pa size value }
        ensures refused { result ≡ false → self.new.bytes ≡ self.old.bytes }
        ensures stop { self.new.stop ≡ self.old.stop }
        ensures failures { self.new.failures ≡ self.old.failures }
    {
        match size {
            Size::Byte => self.set_byte(pa, value),
            Size::Half => self.set_half(pa, value),
            Size::Word => self.set_number_word(pa, value),
            Size::Double => self.set_double(pa, value),
        }
    }
}

impl<const M: usize> Small<M> {
    ghost use Rattle.v8_core_tests.specs.Small.{answered, is_device, small_load, small_store, with_device};

    fn is_device(pa: u64, size: Size) -> bool
        ensures { result ≡ is_device pa size }
    {
        size == Size::Word && pa == DEVICE
    }

    fn answer(&self, pa: u64, size: Size) -> Option<u64>
        ensures value { with_device self.now.stop result ≡ small_load self.now.bytes self.now.stop pa size }
        ensures small { IfSome result (λ v. v < limit_of size) }
    {
        if Self::is_device(pa, size) {
            Some(7)
        } else {
            self.number(pa, size)
        }
    }

    fn take(&mut self, pa: u64, size: Size, value: u64) -> bool
        requires { value < limit_of size }
        ensures done { answered result self.new.bytes self.new.stop ≡
            small_store self.old.bytes self.old.stop pa size value }
        ensures refused { result ≡ false → (self.new.bytes ≡ self.old.bytes) × (self.new.stop ≡ self.old.stop) }
        ensures failures { self.new.failures ≡ self.old.failures }
    {
        if Self::is_device(pa, size) {
            self.stop = Some(Stop::Exit(value as u32));
            true
        } else {
            self.set_number(pa, size, value)
        }
    }
}

impl<const M: usize> Bus for Small<M> {
    ghost use Rattle.std.specs.Prelude.{Option};
    ghost use Rattle.v8_mmu.specs.declared.bus.Stop.{Stop};
    ghost use Rattle.v8_core_tests.specs.Small.{small};

    ghost Device = { Option Stop };

    // Each call of the port fails.
    ghost state = { λ b. record {
      held = record { ram = b.bytes; device = b.stop };
      port = record { failed = b.failures; calls = b.failures; fault = b.fault };
    } };

    ghost meaning = { small };

    fn entry(&self, pa: u64) -> Option<u32> {
        self.word(pa)
    }

    fn set_entry(&mut self, pa: u64, word: u32) {
        self.set_word(pa, word);
    }

    fn read(&mut self, pa: u64, size: Size) -> Result<u64, BusFault> {
        if self.broken {
            return Err(self.fails(PortFault::Reader));
        }
        match self.answer(pa, size) {
            Some(value) => Ok(value),
            None => Err(BusFault::Unanswered),
        }
    }

    fn write(&mut self, pa: u64, size: Size, value: u64) -> Result<(), BusFault> {
        if self.broken {
            return Err(self.fails(PortFault::Writer));
        }
        if self.take(pa, size, value) {
            Ok(())
        } else {
            Err(BusFault::Unanswered)
        }
    }

    fn swap(&mut self, pa: u64, size: Size, value: u64) -> Result<u64, BusFault> {
        if self.broken {
            return Err(self.fails(PortFault::Memory(Want::from(AllocError))));
        }
        match self.answer(pa, size) {
            Some(old) => {
                if self.take(pa, size, value) {
                    Ok(old)
                } else {
                    Err(BusFault::Unanswered)
                }
            }
            None => Err(BusFault::Unanswered),
        }
    }

    fn stop(&self) -> Option<Stop> {
        self.stop
    }

    fn failures(&self) -> u64 {
        self.failures
    }
}
