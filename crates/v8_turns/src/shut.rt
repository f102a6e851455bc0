//! A port that gives no byte and takes none: no line reaches the device.
ghost use Rattle.std.specs.Prelude.{◌≡◌};

use v8_memory::Port;
use v8_mmu::PortFault;

/// A port at the end of its input, which takes no output.
#[derive(Drop)]
pub struct Shut {
    calls: u64,
    failures: u64,
}

impl Shut {
    pub const NEW: Shut = Shut {
        calls: 0,
        failures: 0,
    };
}

impl Port for Shut {
    ghost use Rattle.std.specs.Prelude.{[]};
    ghost use Rattle.v8_core.specs.PortFault.TheVariants as faults;

    ghost input = { λ s. [] };

    ghost output = { λ s. [] };

    ghost failed = { λ s. s.failures };

    ghost calls = { λ s. s.calls };

    ghost fault = { λ s. faults.Writer };

    fn get(&mut self) -> Result<Option<u8>, PortFault> {
        self.calls = self.calls.saturating_add(1);
        Ok(None)
    }

    fn put(&mut self, _byte: u8) -> Result<(), PortFault> {
        self.calls = self.calls.saturating_add(1);
        self.failures = self.failures.saturating_add(1);
        Err(PortFault::Writer)
    }

    fn failures(&self) -> u64 {
        self.failures
    }

    fn tells_bytes(&self) {}
}
