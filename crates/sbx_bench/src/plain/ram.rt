//! RAM as bytes.
ghost use Rattle.std.specs.Prelude.{◌≡◌, ◌+◌, ◌≤◌, length, true};

use byteorder::{BigEndian, ByteOrder};
use std::alloc::{AllocError, Global};

/// How many bytes RAM has.
const BYTES: usize = 0x10_0000;

/// RAM of 1 MiB, big-endian.
#[derive(Drop)]
pub struct Ram {
    bytes: Vec<u8>,
}

impl Ram {
    /// RAM of zeros.
    pub fn new(alloc: Global) -> Result<Self, AllocError> {
        let bytes = vec![in alloc; 0; BYTES]?;
        Ok(Ram { bytes })
    }

    /// Whether so many bytes from a place on are there.
    #[inline(always)]
    fn has(&self, place: u64, count: usize) -> bool
        requires { count ≤ 8 }
        ensures { result ≡ true → place + count ≤ length self.now.bytes.items }
    {
        place < BYTES as u64 && place as usize + count <= self.bytes.len()
    }

    #[inline(always)]
    pub fn word(&self, place: u64) -> Option<u32> {
        let at = place as usize;
        if self.has(place, 4) {
            Some(BigEndian::read_u32(&self.bytes[at..at + 4]))
        } else {
            None
        }
    }

    #[inline(always)]
    pub fn set_word(&mut self, place: u64, word: u32) {
        let at = place as usize;
        if self.has(place, 4) {
            BigEndian::write_u32(&mut self.bytes[at..at + 4], word);
        }
    }

    /// The number in 1, 2, 4 or 8 bytes.
    #[inline(always)]
    pub fn number(&self, place: u64, size: u32) -> u64 {
        let at = place as usize;
        if !self.has(place, 8) {
            return 0;
        }
        match size {
            1 => u64::from(self.bytes[at]),
            2 => u64::from(BigEndian::read_u16(&self.bytes[at..at + 2])),
            4 => u64::from(BigEndian::read_u32(&self.bytes[at..at + 4])),
            _ => BigEndian::read_u64(&self.bytes[at..at + 8]),
        }
    }

    /// Writes a number to 1, 2, 4 or 8 bytes.
    #[inline(always)]
    pub fn set_number(&mut self, place: u64, size: u32, number: u64) {
        let at = place as usize;
        if !self.has(place, 8) {
            return;
        }
        match size {
            1 => self.bytes[at] = (number & 0xFF) as u8,
            2 => BigEndian::write_u16(&mut self.bytes[at..at + 2], (number & 0xFFFF) as u16),
            4 => BigEndian::write_u32(&mut self.bytes[at..at + 4], (number & 0xFFFF_FFFF) as u32),
            _ => BigEndian::write_u64(&mut self.bytes[at..at + 8], number),
        }
    }
}
