//! What is known after a load, a store or an exchange.
ghost use Rattle.std.specs.Prelude.{◌≡◌, if◌then◌else◌, ◌+◌, ◌-◌, ◌/◌, Some, None};
ghost use Rattle.sbx_flat.specs.Transfers.{odd_of};
ghost use Rattle.sbx_domain.specs.Transfer.{exchanged_range, frame_word_of, is_word_offset, loaded_range};
ghost use Rattle.sbx_domain.specs.Transfer.{offset_from_sp, word_at_offset};

use crate::entry::{Entry, plain_entry};
use crate::state::State;
use sbx_flat::{Exchange, Loading, MemoryOperand, Operand, Transfer};
use sbx_range::{Range, SIGNED_BYTE, SIGNED_HALF, UNSIGNED_BYTE, UNSIGNED_HALF, all};
use v8_word::{Reg, Size};

/// The offset from %sp that an address of %sp or %fp and an immediate has, in a frame of so many bytes.
pub fn offset_from_sp(frame: u32, rs1: Reg, operand2: Operand) -> Option<i64>
    ensures { result ≡ offset_from_sp frame rs1 operand2 }
{
    match operand2 {
        Operand::Register(_) => None,
        Operand::Immediate(word) => {
            let offset = i64::from(word.cast_signed());
            if rs1 == Reg::SP {
                Some(offset)
            } else if rs1 == Reg::FP {
                Some(offset + i64::from(frame))
            } else {
                None
            }
        }
    }
}

/// The location of the frame word so many bytes above %sp.
fn word_at(frame: u32, offset: u32) -> Option<u16>
    ensures { result ≡ (if is_word_offset frame offset then Some (32 + (offset - 64) / 4) else None) }
{
    let is_word = 64 <= offset
        && offset <= 4_092
        && u64::from(offset) + 4 <= u64::from(frame)
        && offset % 4 == 0;
    if is_word {
        Some((32 + (offset - 64) / 4) as u16)
    } else {
        None
    }
}

fn word_at_offset(frame: u32, offset: Option<i64>) -> Option<u16>
    ensures { result ≡ word_at_offset frame offset }
{
    match offset {
        Some(offset) if 0 <= offset && offset <= 4_092 => word_at(frame, offset as u32),
        _ => None,
    }
}

/// The location of the frame word that a load or a store of a word names.
pub fn frame_word_of(frame: u32, operand: &MemoryOperand) -> Option<u16>
    ensures { result ≡ frame_word_of frame operand.now }
{
    word_at_offset(frame, offset_from_sp(frame, operand.rs1, operand.operand2))
}

fn loaded_range(loading: Loading) -> Range
    ensures { result ≡ loaded_range loading }
{
    match loading {
        Loading::UnsignedByte => UNSIGNED_BYTE,
        Loading::SignedByte => SIGNED_BYTE,
        Loading::UnsignedHalf => UNSIGNED_HALF,
        Loading::SignedHalf => SIGNED_HALF,
        Loading::Word | Loading::Double => all(0),
    }
}

fn exchanged_range(exchange: Exchange) -> Range
    ensures { result ≡ exchanged_range exchange }
{
    match exchange {
        Exchange::Ones => UNSIGNED_BYTE,
        Exchange::Register => all(0),
    }
}

impl State {
    ghost use Rattle.sbx_flat.specs.Operation.TheVariants.{Transfer as Moves};
    ghost use Rattle.sbx_domain.specs.Known.{known};
    ghost use Rattle.sbx_domain.specs.Transfer.{loaded_entry, transferred, with_loaded, with_stored};

    fn loaded_entry(&self, word: Option<u16>, loading: Loading) -> Option<Entry>
        ensures { result ≡ loaded_entry word loading (known self.now) }
    {
        match (word, loading) {
            (Some(location), Loading::Word) => self.entry(location),
            _ => plain_entry(Some(loaded_range(loading))),
        }
    }

    fn load(&mut self, word: Option<u16>, loading: Loading, rd: Reg)
        ensures { known self.new ≡ with_loaded word loading rd (known self.old) }
    {
        let rd = u16::from(rd.number());
        match loading {
            Loading::Double => {
                self.set(rd, Some(all(0)));
                self.set(rd / 2 * 2 + 1, Some(all(0)));
            }
            _ => {
                let entry = self.loaded_entry(word, loading);
                self.write(rd, entry);
            }
        }
    }

    fn store(&mut self, word: Option<u16>, size: Size, rd: Reg)
        ensures { known self.new ≡ with_stored word size rd (known self.old) }
    {
        match (word, size) {
            (Some(location), Size::Word) => {
                let entry = self.register_entry(rd);
                self.write(location, entry);
            }
            _ => {}
        }
    }

    /// A load, a store or an exchange in a frame of so many bytes, 0 in a leaf.
    #[tactic(auto, unfolding(crate::specs::Transfer::transferred))]
    pub fn transfer_memory(&mut self, frame: u32, transfer: Transfer, operand: &MemoryOperand)
        ensures { known self.new ≡ transferred frame (Moves transfer operand.now) (known self.old) }
    {
        let word = frame_word_of(frame, operand);
        match transfer {
            Transfer::Load(loading) => self.load(word, loading, operand.rd),
            Transfer::Store(size) => self.store(word, size, operand.rd),
            Transfer::Exchange(exchange) => {
                let range = exchanged_range(exchange);
                self.set(u16::from(operand.rd.number()), Some(range));
            }
        }
    }
}
