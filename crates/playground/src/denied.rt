//! Why a call has no text, and what it answers.
ghost use Rattle.std.specs.Prelude.{◌≡◌, ◌≢◌};
ghost use Rattle.playground.specs.declared.denied.Denied.TheVariants as denials;
ghost use Rattle.want.specs.Wants.{refused};

use std::alloc::AllocError;
use want::Want;

/// The text stands at the front of the room.
pub const OK: u32 = 0;
/// The bytes are no image.
pub const NO_IMAGE: u32 = 1;
/// Memory was refused.
pub const MEMORY: u32 = 3;
/// A count of windows below 4 or above 32.
pub const WINDOWS: u32 = 4;
/// The room is smaller than the text.
pub const ROOM: u32 = 7;
/// The source means no image.
pub const SOURCE: u32 = 13;
/// The image that the source means is no program, or its annotations would be too many.
pub const NO_PROGRAM: u32 = 16;

/// Why there is no text.
#[derive(Clone, Copy)]
pub enum Denied {
    /// The bytes are no image.
    NoImage,
    /// The source means no image.
    Source,
    /// Memory was refused.
    Memory(Want),
    /// The vector that the text is written to takes no more, as one does for which there is no memory.
    Unwritten,
}

impl From<AllocError> for Denied {
    ghost from_gives = { λ _ denied. denied ≡ denials.Memory refused };

    fn from(error: AllocError) -> Denied {
        Denied::Memory(Want::from(error))
    }
}

/// The status that tells why there is no text. The numbers are those of include/geyserpan.h.
pub fn status_of(denied: Denied) -> u32
    ensures image { result ≡ NO_IMAGE → denied ≡ Denied.NoImage }
    ensures source { result ≡ SOURCE → denied ≡ Denied.Source }
    ensures memory { result ≢ NO_IMAGE → result ≢ SOURCE → result ≡ MEMORY }
    ensures windows { result ≢ WINDOWS }
    ensures text { result ≢ OK }
    ensures room { result ≢ ROOM }
{
    match denied {
        Denied::NoImage => NO_IMAGE,
        Denied::Source => SOURCE,
        Denied::Memory(_) | Denied::Unwritten => MEMORY,
    }
}
