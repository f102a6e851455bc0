//! Functions that are to be joined, as far as they are known, and the stack of those that are called again before they
//! return.
use fit_code::{Function, RegisterSet};
use v8_formats::Reg;

/// What a function does with the way back to its caller.
#[derive(Clone, Copy, PartialEq, Eq)]
pub enum WayBack {
    /// It returns by it.
    Own,
    /// It moves it from %o7 to another register, too, as `setjmp` does.
    Kept,
    /// It moves another one to %o7, and goes back by that, as `longjmp` does: the run's end stands for that.
    Replaced,
}

/// How a function of the program is put into the image.
#[derive(Clone, Copy)]
pub struct Part {
    /// Whether it becomes a part of the first function.
    pub is_joined: bool,
    /// Whether its frame lies on the soft stack, since it may be called again before it returns.
    pub is_soft: bool,
    /// Whether it is what calls through pointers: it takes no frame, and hands on all that it is given.
    pub is_caller: bool,
    /// The bytes of its frame there, a multiple of 8.
    pub frame: u32,
    /// Whether it moves what points into the soft stack, but to take its frame and give it back; and the register that
    /// holds where its frame lies then, if one does, else %g0.
    pub is_moving: bool,
    pub base: Reg,
    pub way_back: WayBack,
}

/// A stack in the data, for frames of functions that may be called again before they return.
#[derive(Clone, Copy)]
pub struct SoftStack {
    /// What points to the frame of the function that runs.
    pub register: Reg,
    /// Whether CALLs leave that register as it is.
    pub is_kept: bool,
    /// The bytes in which the register may point, a power of 2; behind them there is room for one frame.
    pub bytes: u32,
}

/// The registers that may point into the soft stack, from the last choice on: globals that compilers leave alone, ins
/// but those of results, and locals.
const CANDIDATES: &[u8] = &[2, 3, 4, 26, 27, 28, 29, 16, 17, 18, 19, 20, 21, 22, 23];

/// A register that no function names, and whether CALLs leave it as it is; none where each is named.
pub fn stack_register(functions: &[Function]) -> Option<(Reg, bool)> {
    let mut named = RegisterSet::NONE;
    for function in functions {
        named.add(function.named());
    }
    let free = named.last_free(CANDIDATES)?;
    Some((free, free.number() >= 16))
}
