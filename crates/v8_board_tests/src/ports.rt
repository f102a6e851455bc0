//! A port that fails when it is told to.
ghost use Rattle.std.specs.Prelude.{◌≡◌, ℕ};
ghost use Rattle.v8_mmu.specs.Answers.{one_more};
ghost use Rattle.v8_mmu.specs.Ram.{AreBytes};

use std::alloc::{AllocError, Global};
use v8_memory::Port;
use v8_mmu::PortFault;
use want::Want;

/// A fault of a port, as tables name it.
#[derive(Clone, Copy)]
pub(crate) enum Fault {
    Reader,
    Writer,
    Memory,
}

impl Fault {
    pub(crate) fn told(self) -> PortFault {
        match self {
            Fault::Reader => PortFault::Reader,
            Fault::Writer => PortFault::Writer,
            Fault::Memory => PortFault::Memory(Want::from(AllocError)),
        }
    }
}

/// A port that takes its input from a slice, keeps its output and counts how often it is called. It fails once, at the
/// call of the number `fails` from here on, or never if that is 0; a failing put tells the fault `at_put`.
#[derive(Drop)]
pub(crate) struct Probe<'a> {
    pub(crate) left: &'a [u8],
    pub(crate) kept: Vec<u8>,
    pub(crate) calls: u64,
    pub(crate) fails: u64,
    pub(crate) at_put: PortFault,
    pub(crate) failures: u64,
    pub(crate) last: PortFault,
}

impl<'a> Probe<'a> {
    /// A port with this input that fails at this call.
    pub(crate) fn new(alloc: Global, input: &'a [u8], fails: u64, at_put: PortFault) -> Self {
        Probe {
            left: input,
            kept: Vec::new(alloc),
            calls: 0,
            fails,
            at_put,
            failures: 0,
            last: PortFault::Reader,
        }
    }
}

impl Probe<'_> {
    /// Counts a call, and tells whether it is to fail.
    fn is_to_fail(&mut self) -> bool
        ensures left { self.new.left ≡ self.old.left }
        ensures kept { self.new.kept ≡ self.old.kept }
        ensures calls { self.new.calls ≡ one_more self.old.calls }
        ensures failures { self.new.failures ≡ self.old.failures }
    {
        self.calls = self.calls.saturating_add(1);
        let now = self.fails == 1;
        self.fails = self.fails.saturating_sub(1);
        now
    }

    /// Counts a failure.
    fn fail(&mut self, fault: PortFault) -> PortFault
        ensures fault { result ≡ fault }
        ensures left { self.new.left ≡ self.old.left }
        ensures kept { self.new.kept ≡ self.old.kept }
        ensures calls { self.new.calls ≡ self.old.calls }
        ensures last { self.new.last ≡ fault }
        ensures count { self.new.failures ≡ one_more self.old.failures }
    {
        self.failures = self.failures.saturating_add(1);
        self.last = fault;
        fault
    }
}

/// Tells that the elements are bytes, which is known of each one that is read.
fn all_bytes(bytes: &[u8])
    ensures { AreBytes bytes.now }
{
    let _ = bytes;
}

impl Port for Probe<'_> {
    ghost input = { λ p. p.left.now };

    ghost output = { λ p. p.kept.items };

    ghost failed = { λ p. p.failures };

    ghost calls = { λ p. p.calls };

    ghost fault = { λ p. p.last };

    fn get(&mut self) -> Result<Option<u8>, PortFault> {
        if self.is_to_fail() {
            return Err(self.fail(PortFault::Reader));
        }
        match self.left.split_first() {
            Some((first, rest)) => {
                self.left = rest;
                Ok(Some(*first))
            }
            None => Ok(None),
        }
    }

    fn put(&mut self, byte: u8) -> Result<(), PortFault> {
        if self.is_to_fail() {
            return Err(self.fail(self.at_put));
        }
        match self.kept.push(byte) {
            Ok(()) => Ok(()),
            Err(failed) => Err(self.fail(PortFault::Memory(Want::from(failed)))),
        }
    }

    fn failures(&self) -> u64 {
        self.failures
    }

    fn tells_bytes(&self) {
        all_bytes(self.left);
    }
}
