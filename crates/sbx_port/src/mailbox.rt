//! A port whose bytes are carried to and from streams between turns.
ghost use Rattle.std.specs.Prelude.{◌∷◌};
ghost use Rattle.v8_core.specs.Ram.{AreBytes};
ghost use Rattle.sbx_port.specs.Ports.{unknown};

use std::marker::Model;
use v8_memory::Port;
use v8_mmu::PortFault;

/// What is known of the input.
#[derive(Clone, Copy)]
pub enum Mail {
    /// Nothing yet.
    Waiting,
    /// The next byte.
    Byte(u8),
    /// That it has ended.
    Ended,
}

/// Tells that a byte, and the mark behind it, are bytes.
fn tells_byte(byte: u8)
    ensures { AreBytes (byte ∷ unknown) }
{}

/// A port that holds at most one byte of input and one of output. It fails where the input isn't known yet, and where
/// the byte of output before wasn't taken away. Contracts see, behind a byte that isn't known yet, a mark that stands
/// for all that may come.
#[derive(Drop)]
pub struct Mailbox {
    mail: Mail,
    slot: Option<u8>,
    calls: u64,
    failures: u64,
    fault: PortFault,
}

impl Model for Mailbox {
    ghost use Rattle.sbx_port.specs.Ports.{Held, IsWhy, input_of, output_of};

    ghost Value = { Held };

    ghost view = { λ m. record {
      input = input_of m.mail;
      output = output_of m.slot;
      calls = m.calls;
      failed =
          m.failures;
      fault = m.fault;
    } };

    ghost invariant = { λ m. IsWhy m.failures m.fault m.mail m.slot };
}

impl Mailbox {
    ghost use Rattle.std.specs.Prelude.{◌≡◌, ◌<◌, ◌≢◌, [], true, false};
    ghost use Rattle.sbx_port.specs.Ports.{output_of};

    /// A port of whose input nothing is known, without a byte of output.
    pub fn new() -> Self
        ensures input { result.input ≡ unknown }
        ensures output { result.output ≡ [] }
        ensures failed { result.failed ≡ 0 }
    {
        Mailbox {
            mail: Mail::Waiting,
            slot: None,
            calls: 0,
            failures: 0,
            fault: PortFault::Reader,
        }
    }

    /// Takes its byte of output away. Failures are counted anew.
    pub fn empty(&mut self)
        ensures { self.new ≡ record self.old { output = []; failed = 0 } }
    {
        self.slot = None;
        self.failures = 0;
    }

    /// Tells it the next byte of the input, and takes its byte of output away. Failures are counted anew.
    pub fn give(&mut self, byte: u8)
        ensures { self.new ≡ record self.old { input = byte ∷ unknown; output = []; failed = 0 } }
    {
        self.empty();
        self.mail = Mail::Byte(byte);
    }

    /// Tells it that the input has ended, and takes its byte of output away. Failures are counted anew.
    pub fn end(&mut self)
        ensures { self.new ≡ record self.old { input = []; output = []; failed = 0 } }
    {
        self.empty();
        self.mail = Mail::Ended;
    }

    /// Its byte of output, if it holds one.
    pub fn slot(&self) -> Option<u8>
        ensures { output_of result ≡ self.now.output }
    {
        self.slot
    }

    /// Whether it knows that the input has ended.
    pub fn has_ended(&self) -> bool
        ensures ended { result ≡ true → self.now.input ≡ [] }
        ensures goes_on { result ≡ false → self.now.input ≢ [] }
    {
        match self.mail {
            Mail::Waiting | Mail::Byte(_) => false,
            Mail::Ended => true,
        }
    }

    /// Tells that its input, as far as it is known, and the mark behind that, are bytes.
    #[tactic(auto, using(crate::proofs::Tracked::no_bytes, crate::proofs::Tracked::unknown_bytes))]
    pub fn tells_input(&self)
        ensures { AreBytes self.now.input }
    {
        match self.mail {
            Mail::Byte(byte) => tells_byte(byte),
            Mail::Waiting | Mail::Ended => {}
        }
    }

    /// Whether it lacks a byte of input, where it has failed: if not, it holds a byte of output.
    pub fn lacks(&self) -> bool
        ensures lacks { 0 < self.now.failed → result ≡ true → self.now.input ≡ unknown }
        ensures holds { 0 < self.now.failed → result ≡ false → self.now.output ≢ [] }
    {
        match self.fault {
            PortFault::Reader => true,
            PortFault::Writer | PortFault::Memory(_) => false,
        }
    }
}

impl Port for Mailbox {
    ghost input = { λ s. s.input };

    ghost output = { λ s. s.output };

    ghost failed = { λ s. s.failed };

    ghost calls = { λ s. s.calls };

    ghost fault = { λ s. s.fault };

    fn get(&mut self) -> Result<Option<u8>, PortFault> {
        self.calls = self.calls.saturating_add(1);
        match self.mail {
            Mail::Waiting => {
                self.failures = self.failures.saturating_add(1);
                self.fault = PortFault::Reader;
                Err(PortFault::Reader)
            }
            Mail::Byte(byte) => {
                self.mail = Mail::Waiting;
                Ok(Some(byte))
            }
            Mail::Ended => Ok(None),
        }
    }

    fn put(&mut self, byte: u8) -> Result<(), PortFault> {
        self.calls = self.calls.saturating_add(1);
        match self.slot {
            Some(_kept) => {
                self.failures = self.failures.saturating_add(1);
                self.fault = PortFault::Writer;
                Err(PortFault::Writer)
            }
            None => {
                self.slot = Some(byte);
                Ok(())
            }
        }
    }

    fn failures(&self) -> u64 {
        self.failures
    }

    fn tells_bytes(&self) {
        self.tells_input();
    }
}
