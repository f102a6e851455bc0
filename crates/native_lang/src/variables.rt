//! Which variable holds what of the machine. Registers are the variables of their numbers, 0 to 31.

/// The condition codes, each 0 or 1.
pub const NEGATIVE: u8 = 32;

pub const ZERO: u8 = 33;

pub const OVERFLOW: u8 = 34;

pub const CARRY: u8 = 35;

/// The Y register.
pub const Y: u8 = 36;

/// The operands and the result of the word that is being made.
pub const FIRST: u8 = 40;

pub const SECOND: u8 = 41;

pub const RESULT: u8 = 42;

/// Whether the branch is taken whose delay slot is being made.
pub const TAKEN: u8 = 43;

/// The address of the call that a return goes behind.
pub const CALLED: u8 = 44;

/// What is loaded for %g0.
pub const NOWHERE: u8 = 45;

/// How many variables have a number that a program uses.
pub const VARIABLES: u8 = 46;
