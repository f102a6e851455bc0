//! RAM as a list of bytes.
ghost use Rattle.std.specs.Prelude.{◌≡◌, ℕ, ◌+◌, ◌*◌, ◌%◌, ◌/◌, ◌^◌, ◌<◌, ◌≤◌, ◌==◌, ◌&&◌, ◌++◌, IfOk, IfSome, IsSome};
ghost use Rattle.std.specs.Prelude.{IsTrue, ◌↔◌, List, None, true, false, length, nat_le, slice_index, slice_set, take};
ghost use Rattle.std.specs.Prelude.{drop, vec_len, if◌then◌else◌};
ghost use Rattle.std.specs.Int.{w16, w32, from_be_bytes, to_be_bytes};
ghost use Rattle.v8_mmu.specs.Meaning.{limit_of};
ghost use Rattle.v8_mmu.specs.Ram.{AreBytes, HasBytes, byte_of, double_of, entry_of, half_of, number_at, with_byte};
ghost use Rattle.v8_mmu.specs.Ram.{with_double, with_entry, with_half, with_number};
ghost use Rattle.v8_map.specs.declared.TheConstants.{RAM};
ghost use Rattle.v8_memory.specs.Board.{IsBlank};
ghost use Rattle.v8_memory.specs.Placing.{HasBytesOf, HasWords};

use byteorder::{BigEndian, ByteOrder};
use std::alloc::{AllocError, Global};
use std::marker::Model;
use v8_map::RAM;
use v8_mmu::Size;

const BYTES: usize = RAM as usize;

/// RAM of 1 MiB, big-endian. Contracts see the list of its bytes.
#[derive(Drop)]
pub struct Ram {
    bytes: Vec<u8>,
}

impl Model for Ram {
    ghost Value = { List ℕ };

    ghost view = { λ r. r.bytes.items };

    ghost invariant = { λ r. length r.bytes.items ≡ RAM };
}

fn zeros(alloc: Global, count: usize) -> Result<Vec<u8>, AllocError>
    ensures size { IfOk result (λ v. length v.items ≡ count) }
    ensures zeros { IfOk result (λ v. (i : ℕ) → slice_index v.items i ≡ 0) }
{
    vec![in alloc; 0; count]
}

/// Tells that the four elements from a place on are bytes, which is known of what is read.
fn four_bytes(bytes: &[u8], at: usize)
    requires { at + 4 ≤ length bytes.now }
    ensures { HasBytes bytes.now at }
{
    let _first = bytes[at];
    let _second = bytes[at + 1];
    let _third = bytes[at + 2];
    let _fourth = bytes[at + 3];
}

/// Tells that the elements are bytes, which is known of each one that is read.
fn all_bytes(bytes: &[u8])
    ensures { AreBytes bytes.now }
{
    let _ = bytes;
}

impl Ram {
    /// RAM of zeros.
    pub fn new(alloc: Global) -> Result<Self, AllocError>
        ensures { IfOk result (λ ram. IsBlank ram) }
    {
        Ok(Ram {
            bytes: zeros(alloc, BYTES)?,
        })
    }

    /// Whether so many bytes from `pa` on lie in RAM, and `pa` is a multiple of their number.
    fn has(&self, pa: u64, count: u64) -> bool
        requires some { 1 ≤ count }
        requires few { count ≤ 8 }
        ensures answer { result ≡ (pa % count == 0 && nat_le (pa + count) (length self.now)) }
        ensures size { length self.now ≡ RAM }
    {
        // That there are 1 MiB of bytes is known where they are looked at.
        let _ = &self.bytes;
        if pa % count != 0 || pa > u64::from(RAM) {
            return false;
        }
        pa + count <= u64::from(RAM)
    }

    /// The word that begins at `pa`, a multiple of 4; None elsewhere.
    #[tactic(auto, unfolding(v8_mmu::specs::Ram::entry_of))]
    pub fn entry(&self, pa: u64) -> Option<u32>
        ensures value { result ≡ entry_of self.now pa }
        ensures bytes { IsSome result → HasBytes self.now pa }
    {
        if !self.has(pa, 4) {
            return None;
        }
        let at = pa as usize;
        four_bytes(&self.bytes, at);
        Some(BigEndian::read_u32(&self.bytes[at..at + 4]))
    }

    /// Tells that RAM holds bytes.
    pub fn tells_bytes(&self)
        ensures { AreBytes self.now }
    {
        all_bytes(&self.bytes);
    }

    /// Writes a word.
    #[tactic(auto, using(crate::proofs::Bytes::entry_fits), unfolding(v8_mmu::specs::Ram::with_entry))]
    pub fn set_entry(&mut self, pa: u64, word: u32)
        requires { IsSome (entry_of self.old pa) }
        ensures value { self.new ≡ with_entry self.old pa word }
        ensures size { length self.new ≡ RAM }
    {
        let at = pa as usize;
        BigEndian::write_u32(&mut self.bytes[at..at + 4], word);
    }

    /// The halfword that begins at `pa`, a multiple of 2; None elsewhere.
    #[tactic(auto, unfolding(v8_mmu::specs::Ram::half_of))]
    fn half(&self, pa: u64) -> Option<u16>
        ensures { result ≡ half_of self.now pa }
    {
        if !self.has(pa, 2) {
            return None;
        }
        let at = pa as usize;
        Some(BigEndian::read_u16(&self.bytes[at..at + 2]))
    }

    /// Writes a halfword.
    #[tactic(auto, using(crate::proofs::Bytes::half_fits), unfolding(v8_mmu::specs::Ram::with_half))]
    fn set_half(&mut self, pa: u64, half: u16)
        requires { IsSome (half_of self.old pa) }
        ensures { self.new ≡ with_half self.old pa half }
    {
        let at = pa as usize;
        BigEndian::write_u16(&mut self.bytes[at..at + 2], half);
    }

    /// The byte at `pa`; None past the end.
    #[tactic(auto, unfolding(v8_mmu::specs::Ram::byte_of))]
    fn byte(&self, pa: u64) -> Option<u8>
        ensures { result ≡ byte_of self.now pa }
    {
        if !self.has(pa, 1) {
            return None;
        }
        Some(self.bytes[pa as usize])
    }

    /// Writes a byte.
    #[tactic(auto, using(crate::proofs::Bytes::byte_fits))]
    fn set_byte(&mut self, pa: u64, byte: u8)
        requires { IsSome (byte_of self.old pa) }
        ensures { self.new ≡ with_byte self.old pa byte }
    {
        let at = pa as usize;
        self.bytes[at] = byte;
    }

    /// The double word that begins at `pa`, a multiple of 8, as its two words; None elsewhere.
    #[tactic(auto, using(crate::proofs::Bytes::words), unfolding(v8_mmu::specs::Ram::double_of))]
    fn double(&self, pa: u64) -> Option<u64>
        ensures value { result ≡ double_of self.now pa }
        ensures small { IfSome result (λ v. v < 2 ^ 64) }
    {
        if pa % 8 != 0 {
            return None;
        }
        let Some(high) = self.entry(pa) else {
            return None;
        };
        let Some(low) = self.entry(pa + 4) else {
            return None;
        };
        Some(u64::from(high) * (1 << 32) + u64::from(low))
    }

    /// Writes a double word.
    #[tactic(auto, using(crate::proofs::Bytes::doubles), unfolding(v8_mmu::specs::Ram::with_double))]
    fn set_double(&mut self, pa: u64, value: u64)
        requires { IsSome (double_of self.old pa) }
        ensures { self.new ≡ with_double self.old pa value }
    {
        // That there are 1 MiB of bytes is known where they are looked at.
        let _ = &self.bytes;
        self.set_entry(pa, (value >> 32) as u32);
        self.set_entry(pa + 4, (value % (1 << 32)) as u32);
    }

    /// The number of this size at `pa`, a multiple of the size, most significant byte first; None elsewhere.
    pub fn read(&self, pa: u64, size: Size) -> Option<u64>
        ensures value { result ≡ number_at self.now pa size }
        ensures small { IfSome result (λ v. v < limit_of size) }
    {
        match size {
            Size::Byte => match self.byte(pa) {
                Some(byte) => Some(u64::from(byte)),
                None => None,
            },
            Size::Half => match self.half(pa) {
                Some(half) => Some(u64::from(half)),
                None => None,
            },
            Size::Word => match self.entry(pa) {
                Some(word) => Some(u64::from(word)),
                None => None,
            },
            Size::Double => self.double(pa),
        }
    }

    /// Writes a number of this size at `pa`. False, with nothing written, where there is none.
    pub fn write(&mut self, pa: u64, size: Size, value: u64) -> bool
        requires { value < limit_of size }
        ensures there { IfSome (number_at self.old pa size) (λ v. result ≡ true) }
        ensures missing { number_at self.old pa size ≡ None → result ≡ false }
        ensures change { self.new ≡ (if result then with_number self.old pa size value else self.old) }
    {
        match size {
            Size::Byte => {
                if self.byte(pa).is_none() {
                    return false;
                }
                self.set_byte(pa, value as u8);
                true
            }
            Size::Half => {
                if self.half(pa).is_none() {
                    return false;
                }
                self.set_half(pa, value as u16);
                true
            }
            Size::Word => {
                if self.entry(pa).is_none() {
                    return false;
                }
                self.set_entry(pa, value as u32);
                true
            }
            Size::Double => {
                if self.double(pa).is_none() {
                    return false;
                }
                self.set_double(pa, value);
                true
            }
        }
    }

    /// Writes so many words from `at` on, a multiple of 4; past the end of `words` they are 0.
    pub fn set_words(&mut self, at: u64, words: &[u32], count: u64)
        requires whole { at % 4 ≡ 0 }
        requires fits { at + 4 * count ≤ RAM }
        ensures placed { HasWords at words.now count self.old self.new }
        ensures size { length self.new ≡ RAM }
    {
        // That there are 1 MiB of bytes is known where they are looked at.
        let _ = &self.bytes;
        for k in 0..count {
            self.place_word(at + 4 * k, word_or_zero(words, k as usize));
        }
    }

    /// Writes so many bytes from `at` on; past the end of `bytes` they are 0.
    pub fn set_bytes(&mut self, at: u64, bytes: &[u8], count: u64)
        requires { at + count ≤ RAM }
        ensures placed { HasBytesOf at bytes.now count self.old self.new }
        ensures size { length self.new ≡ RAM }
    {
        // That there are 1 MiB of bytes is known where they are looked at.
        let _ = &self.bytes;
        for k in 0..count {
            self.place_byte(at + k, byte_or_zero(bytes, k as usize));
        }
    }

    /// Writes a word at a place that is there.
    #[tactic(auto, using(crate::proofs::Places::word_there))]
    fn place_word(&mut self, at: u64, word: u32)
        requires whole { at % 4 ≡ 0 }
        requires fits { at + 4 ≤ RAM }
        ensures value { self.new ≡ with_entry self.old at word }
        ensures size { length self.new ≡ RAM }
    {
        // That there are 1 MiB of bytes is known where they are looked at.
        let _ = &self.bytes;
        self.set_entry(at, word);
    }

    /// Writes a byte at a place that is there.
    fn place_byte(&mut self, at: u64, byte: u8)
        requires { at < RAM }
        ensures value { self.new ≡ slice_set self.old at byte }
        ensures size { length self.new ≡ RAM }
    {
        let at = at as usize;
        self.bytes[at] = byte;
    }
}

fn word_or_zero(words: &[u32], k: usize) -> u32
    ensures { result ≡ slice_index words.now k }
{
    match words.get(k) {
        Some(word) => *word,
        None => 0,
    }
}

fn byte_or_zero(bytes: &[u8], k: usize) -> u8
    ensures { result ≡ slice_index bytes.now k }
{
    match bytes.get(k) {
        Some(byte) => *byte,
        None => 0,
    }
}
