//! What names are worth in the tests.
use v8_syntax::Symbols;

/// Every name is worth the same, or nothing.
#[derive(Clone, Copy)]
pub struct Fixed {
    pub word: Option<u32>,
    pub here: u32,
}

impl Symbols for Fixed {
    ghost use Rattle.std.specs.Prelude.{ℕ};

    ghost values = { λ s _. s.word };

    ghost place = { λ s. s.here };

    fn value(&self, _name: &[u8]) -> Option<u32> {
        self.word
    }

    fn here(&self) -> u32 {
        self.here
    }
}

/// `s` is worth 0x12345678, and no other name is known.
pub struct OneName;

impl Symbols for OneName {
    ghost use Rattle.std.specs.Prelude.{None, Some, codes, if◌then◌else◌};
    ghost use Rattle.std.specs.Str.{bytes_eq};

    ghost values = { λ _ name. if bytes_eq name (codes "s") then Some 0x12345678 else None };

    ghost place = { λ _. 0 };

    fn value(&self, name: &[u8]) -> Option<u32> {
        if name == b"s".as_slice() {
            Some(0x1234_5678)
        } else {
            None
        }
    }

    fn here(&self) -> u32 {
        0
    }
}
