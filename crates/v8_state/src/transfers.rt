// What loads and stores take from the registers and give to them.
ghost use Rattle.std.specs.Prelude.{◌≡◌, ◌*◌, ◌^◌, ◌<◌};
ghost use Rattle.v8_meaning.specs.Transfers.{bytes_in, loaded, loaded_size, sent, size_of, stored};
ghost use Rattle.v8_windows.specs.Windows.{reg_of};
ghost use Rattle.v8_state.specs.Effects.{taken, with_regs};

use crate::state::Cpu;
use v8_meaning::{Exchange, Loading, Transfer, odd_of};
use v8_word::{Reg, Size};

impl<const N: usize> Cpu<N> {
    /// The number in the low bytes of a register, or in the words of its pair.
    #[inline(always)]
    fn stored(&self, size: Size, rd: Reg) -> u64
        ensures value { result ≡ stored (reg_of N self.now.regs) size rd }
        ensures bound { result < 2 ^ (8 * bytes_in size) }
    {
        let word = u64::from(self.regs.get(rd));
        match size {
            Size::Byte => word % 0x100,
            Size::Half => word % 0x1_0000,
            Size::Word => word,
            Size::Double => word * 0x1_0000_0000 + u64::from(self.regs.get(odd_of(rd))),
        }
    }

    /// The number that goes out to memory; of a load it is 0.
    #[inline(always)]
    pub fn sent(&self, transfer: Transfer, rd: Reg) -> u64
        ensures value { result ≡ sent (reg_of N self.now.regs) transfer rd }
        ensures bound { result < 2 ^ (8 * bytes_in (size_of transfer)) }
    {
        match transfer {
            Transfer::Load(_) => 0,
            Transfer::Store(size) => self.stored(size, rd),
            Transfer::Exchange(Exchange::Ones) => 0xFF,
            Transfer::Exchange(Exchange::Register) => u64::from(self.regs.get(rd)),
        }
    }

    /// Writes the registers that a loaded number fills.
    #[inline(always)]
    fn load(&mut self, loading: Loading, rd: Reg, number: u64)
        requires { number < 2 ^ (8 * bytes_in (loaded_size loading)) }
        ensures regs { self.new.regs ≡ with_regs N self.old.regs (loaded loading rd number) }
        ensures control { self.new.control ≡ self.old.control }
    {
        if let Loading::Double = loading {
            self.regs.set(rd, (number >> 32) as u32);
            self.regs.set(odd_of(rd), (number & 0xFFFF_FFFF) as u32);
        } else {
            self.regs.set(rd, loading.word(number as u32));
        }
    }

    /// Takes the number that came in from memory, of a store 0, and the next instruction comes.
    #[tactic(auto, unfolding(crate::specs::Effects::taken))]
    #[inline(always)]
    pub fn take(&mut self, transfer: Transfer, rd: Reg, number: u64)
        requires { number < 2 ^ (8 * bytes_in (size_of transfer)) }
        ensures { self.new ≡ taken N self.old transfer rd number }
    {
        match transfer {
            Transfer::Load(loading) => self.load(loading, rd, number),
            Transfer::Store(_) => {}
            Transfer::Exchange(_) => self.regs.set(rd, number as u32),
        }
        self.control.advance();
    }
}
