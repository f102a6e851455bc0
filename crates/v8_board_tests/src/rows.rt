//! Programs with what they give, worked out by hand or by other programs.
use crate::images::image;
use crate::programs::{CALLS, CHECKSUM, ECHO, INCREMENT, MULTIPLY, SIEVE, Shape, chain};
use sbx_image::Image;
use std::alloc::Global;
use std::test::Fail;

/// Words of a program, or a chain.
#[derive(Clone, Copy)]
pub enum Code {
    Words(&'static [u32]),
    Chain(Shape),
}

impl Code {
    /// An image of the words and these data.
    pub(crate) fn image(&self, alloc: Global, data: &[u8]) -> Result<Image, Fail> {
        match *self {
            Code::Words(words) => image(alloc, words, data),
            Code::Chain(shape) => image(alloc, chain(alloc, shape)?.as_slice(), data),
        }
    }
}

/// What a program gives on an input, and what its path comes to: its steps, its weight, its turns where there are
/// windows enough, the overflows on four windows, and how many of them each window more spares.
#[derive(Clone, Copy)]
pub struct Row {
    pub name: &'static str,
    pub code: Code,
    pub input: &'static [u8],
    pub output: &'static [u8],
    pub status: u32,
    pub steps: usize,
    pub weight: u64,
    pub turns: u64,
    pub overflows: u64,
    pub spared: u64,
}

/// Programs that four windows suffice for, and then chains, of 40 windows.
pub static ROWS: [Row; 9] = [
    Row {
        name: "echo",
        code: Code::Words(&ECHO),
        input: b"abc",
        output: b"abc",
        status: 0,
        steps: 32,
        weight: 86,
        turns: 62,
        overflows: 0,
        spared: 0,
    },
    Row {
        name: "echo of nothing",
        code: Code::Words(&ECHO),
        input: b"",
        output: b"",
        status: 0,
        steps: 8,
        weight: 38,
        turns: 14,
        overflows: 0,
        spared: 0,
    },
    Row {
        name: "increment",
        code: Code::Words(&INCREMENT),
        input: b"",
        output: b"!",
        status: 0,
        steps: 9,
        weight: 39,
        turns: 15,
        overflows: 0,
        spared: 0,
    },
    Row {
        name: "calls",
        code: Code::Words(&CALLS),
        input: b"",
        output: b"\x00\x01H\xbe",
        status: 0,
        steps: 88,
        weight: 370,
        turns: 106,
        overflows: 0,
        spared: 0,
    },
    Row {
        name: "multiply",
        code: Code::Words(&MULTIPLY),
        input: b"",
        output: b"\xed:\xef\xe0",
        status: 0,
        steps: 73,
        weight: 115,
        turns: 91,
        overflows: 0,
        spared: 0,
    },
    Row {
        name: "chain",
        code: Code::Chain(Shape::Plain),
        input: b"",
        output: b"!",
        status: 0,
        steps: 200,
        weight: 2_102,
        turns: 206,
        overflows: 38,
        spared: 1,
    },
    Row {
        name: "chain with a result",
        code: Code::Chain(Shape::Result),
        input: b"",
        output: b"!",
        status: 42,
        steps: 200,
        weight: 2_102,
        turns: 206,
        overflows: 38,
        spared: 1,
    },
    Row {
        name: "rounds",
        code: Code::Chain(Shape::Rounds),
        input: b"",
        output: b"\x00\x00\x00\x91",
        status: 0,
        steps: 411,
        weight: 4_197,
        turns: 429,
        overflows: 75,
        spared: 2,
    },
    Row {
        name: "products",
        code: Code::Chain(Shape::Products),
        input: b"",
        output: b":\x08\xa2\x81",
        status: 0,
        steps: 411,
        weight: 4_197,
        turns: 429,
        overflows: 75,
        spared: 2,
    },
];

/// Paths of some fifteen thousand places, without a call. Below 1,024 there are 172 primes, so that 850 numbers from 2
/// on are none.
pub static LOOPS: [Row; 2] = [
    Row {
        name: "checksum",
        code: Code::Words(&CHECKSUM),
        input: b"123456789",
        output: b"\xcb\xf49&",
        status: 0,
        steps: 16_002,
        weight: 16_084,
        turns: 16_060,
        overflows: 0,
        spared: 0,
    },
    Row {
        name: "sieve",
        code: Code::Words(&SIEVE),
        input: b"",
        output: b"\x00\x00\x03R",
        status: 0,
        steps: 14_693,
        weight: 14_735,
        turns: 14_711,
        overflows: 0,
        spared: 0,
    },
];

impl Row {
    /// The overflows, underflows and turns on so many windows. The first function's SAVE is never undone, so there is
    /// an underflow less; and each of them takes 24 turns, its trap and the handler's 23.
    pub(crate) fn counts_on(&self, windows: u32) -> (u64, u64, u64) {
        let more = u64::from(windows.saturating_sub(4));
        let overflows = self
            .overflows
            .saturating_sub(self.spared.saturating_mul(more));
        let underflows = overflows.saturating_sub(1);
        let traps = overflows.saturating_add(underflows);
        let turns = self.turns.saturating_add(traps.saturating_mul(24));
        (overflows, underflows, turns)
    }

    /// An image of the row's words, with 1,024 bytes of data.
    pub(crate) fn image(&self, alloc: Global) -> Result<Image, Fail> {
        self.code.image(alloc, &[0; 1024])
    }
}
