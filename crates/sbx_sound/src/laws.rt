//! Each law is the contract of a function that does nothing.
ghost use Rattle.sbx_sound.specs.Examples.{ExamplesAreSafe};
ghost use Rattle.sbx_sound.specs.Law.{CheckedIsSafe, WhatIsReadIsFormed};
ghost use Rattle.sbx_sound.specs.Positive.{FuelStaysPositive};

/// In an image that breaks no rule some of a block's fuel is left before each of its words, for all numbers of the
/// ranges that the block may begin with.
pub fn fuel_stays_positive()
    ensures { FuelStaysPositive }
{}

/// An image that breaks no rule is safe on the flat machine: on each input no run of it is wrong, none weighs more than
/// the budget, each can go on until it has its exit word, and all give one output and one status along one path,
/// whatever words the registers hold at the start and fresh frames hold later.
pub fn checked_is_safe()
    ensures { CheckedIsSafe }
{}

/// What is read from bytes is formed: it keeps the limits of the format, and its fields can hold its numbers.
pub fn what_is_read_is_formed()
    ensures { WhatIsReadIsFormed }
{}

/// A loop that puts out what it gets, and a call of a leaf, are safe.
pub fn examples_are_safe()
    ensures { ExamplesAreSafe }
{}
