//! How the services of an image reach the world.
ghost use Rattle.leon_words.specs.Words.{leave_of, routines_of, stop_of, vectors_of};
ghost use Rattle.std.specs.Prelude.{◌≡◌};

use crate::{mail, uart};

/// How `get`, `put` and `exit` reach the world.
#[derive(Clone, Copy)]
pub enum LeonServices {
    /// Input, output and the end lie in RAM.
    Mailbox,
    /// They go over the UART, framed.
    Uart,
    /// They go by a device with the four registers of the sandbox machine's, at the start of the page of this number.
    Device(u32),
}

impl LeonServices {
    /// The vectors of trap types 80, 81 and 82; none where they are the sandbox machine's.
    #[tactic(auto, unfolding(crate::specs::Words::vectors_of))]
    pub fn vectors(&self) -> &[u32]
        ensures { result.now ≡ vectors_of self.now }
    {
        match self {
            LeonServices::Mailbox => &mail::SERVICES,
            LeonServices::Uart => &uart::SERVICES,
            LeonServices::Device(_) => &[],
        }
    }

    /// The vector of every other trap type but those of the window traps; none where it is the sandbox machine's.
    #[tactic(auto, unfolding(crate::specs::Words::stop_of))]
    pub fn stop(&self) -> &[u32]
        ensures { result.now ≡ stop_of self.now }
    {
        match self {
            LeonServices::Mailbox => &mail::STOP,
            LeonServices::Uart => &uart::STOP,
            LeonServices::Device(_) => &[],
        }
    }

    /// The routines that the vectors branch to.
    #[tactic(auto, unfolding(crate::specs::Words::routines_of))]
    pub fn routines(&self) -> &[u32]
        ensures { result.now ≡ routines_of self.now }
    {
        match self {
            LeonServices::Mailbox => &mail::ROUTINES,
            LeonServices::Uart => &uart::ROUTINES,
            LeonServices::Device(_) => &[],
        }
    }

    /// The virtual address of the way back in the system's pages, the words `jmpl %l2` and `rett %l2+4`.
    #[tactic(auto, unfolding(crate::specs::Words::leave_of))]
    pub fn leave(&self) -> u32
        ensures { result ≡ leave_of self.now }
    {
        match self {
            LeonServices::Mailbox => 0xF000_1140,
            LeonServices::Uart => 0xF000_11E4,
            LeonServices::Device(_) => 0xF000_0818,
        }
    }
}
