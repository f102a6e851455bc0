//! The bus: RAM and a device at physical addresses.
use v8_word::Size;
use want::Want;

/// What a port that failed ran out of.
#[derive(Clone, Copy, PartialEq, Eq)]
pub enum PortFault {
    Memory(Want),
    Reader,
    Writer,
}

/// Why an access didn't complete: nothing answers there, or a port failed.
#[derive(Clone, Copy, PartialEq, Eq)]
pub enum BusFault {
    Unanswered,
    Port(PortFault),
}

/// What stopped the machine: a word written as its exit status, or a trap that the handlers gave up on.
#[derive(Clone, Copy, PartialEq, Eq)]
pub enum Stop {
    Exit(u32),
    Trapped,
}

/// RAM and a device at physical addresses of 36 bits. Memory is big-endian.
///
/// An implementor says what state it is in: what its RAM holds and what state its device is in, how often its port was
/// called and has failed, and which fault the port answered last; and, as its `meaning`, what loads, stores and
/// exchanges do with RAM and device, and which of them may call the port. An access calls the port at most once,
/// counts one failure where it answers the port's fault and none elsewhere, and writes no byte of RAM but those that
/// it stores.
pub trait Bus {
    ghost use Rattle.v8_mmu.specs.Meaning.{Meaning, bytes_in, limit_of, loaded_from, stored_after};
    ghost use Rattle.v8_mmu.specs.Ram.{entry_of, with_entry, HasBytes, KeepsWords};
    ghost use Rattle.v8_mmu.specs.Answers.{call_if};
    ghost use Rattle.v8_mmu.specs.States.{Leaves, Memory, Ported, with_ram};
    ghost use Rattle.std.specs.Prelude.{◌≡◌, ℕ, ◌<◌, Some, true, false, IsSome, IfOk};

    /// What the device's state is.
    ghost Device: { Type 0 };

    /// The bytes of RAM, from physical address 0, with the device's state; and what is told of the port.
    ghost state: { Self → Ported (Memory Device) };

    /// What answers where, and what an access does.
    ghost meaning: { Meaning Device };

    /// The word of RAM that begins at `pa`, a multiple of 4; None elsewhere.
    fn entry(&self, pa: u64) -> Option<u32>
        ensures value { result ≡ entry_of (state self.now).held.ram pa }
        ensures bytes { IsSome result → HasBytes (state self.now).held.ram pa };

    /// Writes a word of RAM.
    fn set_entry(&mut self, pa: u64, word: u32)
        requires { IsSome (entry_of (state self.old).held.ram pa) }
        ensures { state self.new ≡ with_ram (state self.old) (with_entry (state self.old).held.ram pa word) };

    /// The number in the bytes of this size at `pa`, most significant byte first.
    fn read(&mut self, pa: u64, size: Size) -> Result<u64, BusFault>
        ensures small { IfOk result (λ v. v < limit_of size) }
        ensures ends { let m = (state self.old).held in Leaves
            (loaded_from m.ram (meaning.load m.ram m.device pa size)) (call_if (meaning.asks m.device pa size false))
            result (state self.old) (state self.new) };

    /// Writes a number to the bytes of this size at `pa`.
    fn write(&mut self, pa: u64, size: Size, value: u64) -> Result<(), BusFault>
        requires { value < limit_of size }
        ensures ends { let m = (state self.old).held in Leaves
            (stored_after tt (meaning.store m.ram m.device pa size value))
            (call_if (meaning.asks m.device pa size true)) result (state self.old) (state self.new) }
        ensures elsewhere { KeepsWords (state self.old).held.ram (state self.new).held.ram pa (bytes_in size) };

    /// Writes a number to the bytes of this size at `pa` and gives the number that was there, as one access.
    fn swap(&mut self, pa: u64, size: Size, value: u64) -> Result<u64, BusFault>
        requires { value < limit_of size }
        ensures small { IfOk result (λ v. v < limit_of size) }
        ensures ends { let m = (state self.old).held in Leaves
            (meaning.swap m.ram m.device pa size value) (call_if (meaning.asks m.device pa size true)) result
            (state self.old) (state self.new) }
        ensures elsewhere { KeepsWords (state self.old).held.ram (state self.new).held.ram pa (bytes_in size) };

    /// What stopped the machine, once something has.
    fn stop(&self) -> Option<Stop>
        ensures { result ≡ meaning.stopped (state self.now).held.device };

    /// How often the port has failed, up to 2^64 - 1.
    fn failures(&self) -> u64
        ensures { result ≡ (state self.now).port.failed };
}

/// A bus that lends the port of its device, and keeps its RAM meanwhile.
pub trait PortBus: Bus {
    ghost use Rattle.std.specs.Prelude.{◌≡◌};
    ghost use Rattle.std.specs.Borrow.{Lends, sem};

    /// The port of the device.
    type Port;

    /// The port that it has.
    ghost port: { Self → Self.Port };

    /// The same bus with another port.
    ghost with_port: { Self → Self.Port → Self };

    /// The port, to be written to. The bus then goes on with the port as it was left; whatever that is, its RAM stays.
    fn port_mut(&mut self) -> &mut Self::Port
        ensures* writes_back { sem 𝓛 (Lends Self.row Self.Port.row self.entry result (λ w. with_port self.old w)) }
        ensures value { result.now ≡ port self.old }
        ensures ram { (w : Self.Port) → (Self.state (with_port self.old w)).held.ram ≡ (Self.state self.old).held.ram };
}
