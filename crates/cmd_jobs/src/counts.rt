//! Counts of register windows.
ghost use Rattle.std.specs.Prelude.{◌≡◌, ◌≤◌};
ghost use Rattle.std.specs.Option.{SomeIff};

use std::marker::Model;

/// A count of register windows that a board can have, 4 to 32 (The SPARC Architecture Manual Version 8, chapter 4,
/// leaves it to the implementation). Contracts see the number.
#[derive(Clone, Copy, PartialEq, Eq)]
pub struct Windows {
    count: u32,
}

impl Model for Windows {
    ghost use Rattle.std.specs.Prelude.{ℕ, ◌≤◌};

    ghost Value = { ℕ };

    ghost view = { λ w. w.count };

    ghost invariant = { λ w. (4 ≤ w.count) × (w.count ≤ 32) };

    ghost inverse = { λ n. record { count = n } };
}

impl Windows {
    /// The count where no other is given.
    pub const USUAL: Windows = Windows { count: 8 };

    /// The count of a number from 4 to 32; none of any other.
    pub fn new(count: u32) -> Option<Windows>
        ensures { SomeIff result ((4 ≤ count) × (count ≤ 32)) count }
    {
        if count < 4 || count > 32 {
            None
        } else {
            Some(Windows { count })
        }
    }

    /// The number, 4 to 32.
    pub fn count(self) -> u32
        ensures value { result ≡ self }
        ensures least { 4 ≤ result }
        ensures most { result ≤ 32 }
    {
        self.count
    }
}
