//! Where input comes from and output goes.
use v8_mmu::PortFault;

/// A source of input bytes and a sink of output bytes.
///
/// An implementor says which bytes it has yet to give, which it was given, how often it was called and has failed, and
/// which fault it answered last.
pub trait Port: Drop {
    ghost use Rattle.std.specs.Prelude.{◌≡◌, ℕ, List, [], ◌∷◌, ◌++◌, IfErr, IfOk, OnOk, OnErr};
    ghost use Rattle.v8_mmu.specs.Answers.{failed_after, one_more};
    ghost use Rattle.v8_mmu.specs.Ram.{AreBytes};
    ghost use Rattle.v8_mmu.specs.declared.bus.PortFault.{PortFault};
    ghost use Rattle.v8_memory.specs.Input.{next_byte};

    /// The bytes that it has yet to give.
    ghost input: { Self → List ℕ };

    /// The bytes that it was given.
    ghost output: { Self → List ℕ };

    /// How often it has failed. A count of 2^64 - 1 stays there.
    ghost failed: { Self → ℕ };

    /// How often it was called, to give a byte or to take one. A count of 2^64 - 1 stays there.
    ghost calls: { Self → ℕ };

    /// The fault that it answered last, once it has failed.
    ghost fault: { Self → PortFault };

    /// The next byte, or None at the end of the input. A fault leaves input and output as they were, and is counted;
    /// nothing else is.
    fn get(&mut self) -> Result<Option<u8>, PortFault>
        ensures byte { IfOk result (λ byte. next_byte (input self.old) ≡ (byte, input self.new)) }
        ensures input { OnErr result (input self.new ≡ input self.old) }
        ensures output { output self.new ≡ output self.old }
        ensures count { failed self.new ≡ failed_after result (failed self.old) }
        ensures calls { calls self.new ≡ one_more (calls self.old) }
        ensures own { IfErr result (λ f. fault self.new ≡ f) };

    /// Puts a byte out. A fault leaves input and output as they were, and is counted; nothing else is.
    fn put(&mut self, byte: u8) -> Result<(), PortFault>
        ensures ok { OnOk result (output self.new ≡ output self.old ++ byte ∷ []) }
        ensures output { OnErr result (output self.new ≡ output self.old) }
        ensures input { input self.new ≡ input self.old }
        ensures count { failed self.new ≡ failed_after result (failed self.old) }
        ensures calls { calls self.new ≡ one_more (calls self.old) }
        ensures own { IfErr result (λ f. fault self.new ≡ f) };

    /// How often it has failed, up to 2^64 - 1.
    fn failures(&self) -> u64
        ensures { result ≡ failed self.now };

    /// Tells that what it has yet to give are bytes. A model's input may hold any numbers; a port's does not.
    fn tells_bytes(&self)
        ensures { AreBytes (input self.now) };
}
