//! What an image may ask of its host.
ghost use Rattle.std.specs.Prelude.{⊤, ◌≡◌, [], ◌∷◌, ◌↔◌, codes, IsSome, IfSome};
ghost use Rattle.std.specs.Int.RustNames.{bit_and};

use bitflags::{Flag, Flags, bitflag_items};

/// A set of services, by its bits: 1 exit, 2 get, 4 put.
#[derive(Clone, Copy, PartialEq, Eq)]
pub struct Services(pub u16);

bitflag_items! {
    impl Services: u16 {
        const EXIT = 1;
        const GET = 2;
        const PUT = 4;
    }
}

impl Flags for Services {
    type Bits = u16;

    ghost exact = { ⊤ };

    ghost table = { (codes "EXIT", 1) ∷ (codes "GET", 2) ∷ (codes "PUT", 4) ∷ [] };

    ghost set_of = { λ s. s.0 };

    fn flags<'a>() -> &'a [Flag<Services>] {
        Services::FLAGS
    }

    fn bits(&self) -> u16 {
        self.0
    }

    fn from_bits_retain(bits: u16) -> Services {
        Services(bits)
    }
}

/// The services of a word of the header, or none where a bit has no meaning.
pub fn services_of(bits: u16) -> Option<Services>
    ensures value { IfSome result (λ s. s.0 ≡ bits) }
    ensures known { IsSome result ↔ (bit_and bits 7 ≡ bits) }
{
    Services::from_bits(bits)
}
