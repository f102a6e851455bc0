//! What isn't shown of a program's steps.
use fit_code::SourceLine;
use fit_origin::Origin;
use sbx_range::Range;
use v8_formats::{Operand, Reg};

/// An access that isn't shown to lie where it has to.
#[derive(Clone, Copy)]
pub struct UnshownAccess {
    /// Its addresses.
    pub range: Range,
    /// How many bytes it moves.
    pub size: u32,
    pub writes: bool,
    /// What its address is worked out from.
    pub origin: Option<Origin>,
    /// The parts of its address.
    pub parts: (Reg, Operand),
}

/// What isn't shown.
#[derive(Clone, Copy)]
pub enum NotShown {
    /// That a location is defined which is read.
    Defined(u16),
    /// That a location is defined which a callee takes for granted.
    Given(u16),
    /// That an access lies where it has to, at a multiple of its size.
    Placed(UnshownAccess),
    /// That a divisor isn't 0, and what is known of it.
    Divisible(Operand, Range),
}

/// What isn't shown of a step, by its place in its block; the end of the block stands behind the last step.
#[derive(Clone, Copy)]
pub struct Ask {
    pub function: usize,
    /// How many bytes the function's frame has.
    pub frame: u32,
    pub block: usize,
    pub place: usize,
    pub line: SourceLine,
    pub lack: NotShown,
}

/// How many low bits of an address of so many bytes, a power of 2 up to 8, are 0.
pub fn needed_alignment(size: u32) -> u8 {
    size.trailing_zeros().min(3) as u8
}
