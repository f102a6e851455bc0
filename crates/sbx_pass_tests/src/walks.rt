//! Verdicts of the walk over whole images, worked out by hand.
use crate::rows::ECHO;
use sbx_image::parse;
use sbx_pass::{Cause, Refusal, first_fault};
use std::alloc::{AllocError, Global};

/// Whether these bytes are an image of which this is told.
fn is_told(alloc: Global, bytes: &[u8], told: &Option<Refusal>) -> bool {
    let Ok(image) = parse(alloc, bytes) else {
        return false;
    };
    match first_fault(alloc, &image) {
        Ok(found) => found == *told,
        Err(AllocError) => false,
    }
}

#[test]
fn a_loop_is_checked(rt: HostRuntime) {
    assert!(rt; is_told(rt.alloc(), ECHO, &None));
}

/// `save %sp,-96,%sp; mov 32,%o0; call .+20; nop; ta 2; mov 0,%o0; ta 0; retl; add %o0,1,%o0`: a function of 39 turns
/// that passes 32 to a leaf, which asks for at most 254, adds 1 and promises at most 255.
const ADDING: [u8; 158] = [
    83, 66, 88, 56, 0, 1, 0, 7, 0, 0, 0, 9, 0, 0, 0, 0, 0, 1, 0, 2, 157, 227, 191, 160, 144, 16,
    32, 32, 64, 0, 0, 5, 1, 0, 0, 0, 145, 208, 32, 2, 144, 16, 32, 0, 145, 208, 32, 0, 129, 195,
    224, 8, 144, 2, 32, 1, 1, 0, 0, 0, 0, 4, 0, 0, 0, 0, 0, 96, 0, 0, 0, 96, 0, 0, 0, 0, 0, 0, 0,
    39, 0, 1, 0, 4, 0, 0, 0, 0, 0, 0, 0, 0, 0, 0, 0, 0, 0, 39, 0, 1, 1, 0, 0, 4, 0, 28, 0, 0, 0, 0,
    0, 0, 0, 0, 0, 0, 0, 0, 0, 0, 0, 2, 0, 1, 0, 0, 0, 0, 0, 0, 0, 254, 0, 0, 0, 0, 1, 0, 0, 0,
    255, 0, 0, 4, 0, 28, 0, 0, 0, 0, 0, 0, 0, 0, 0, 0, 0, 2,
];

/// The same with a leaf that asks for at most `param` and promises at most `promised`, and so many turns as budget and
/// fuel.
fn adding(param: u8, promised: u8, turns: u8) -> [u8; 158] {
    let mut bytes = ADDING;
    bytes[79] = turns;
    bytes[97] = turns;
    bytes[131] = param;
    bytes[140] = promised;
    bytes
}

/// What a leaf asks for and promises, the turns, and what is told.
type Adding = (u8, u8, u8, Option<Refusal>);

const ADDINGS: [Adding; 4] = [
    (254, 255, 39, None),
    (
        254,
        255,
        38,
        Some(Refusal {
            function: 0,
            address: 0x0004_0018,
            cause: Cause::OutOfFuel,
        }),
    ),
    (
        31,
        255,
        39,
        Some(Refusal {
            function: 0,
            address: 0x0004_000C,
            cause: Cause::UnkeptCells,
        }),
    ),
    (
        254,
        254,
        39,
        Some(Refusal {
            function: 1,
            address: 0x0004_0020,
            cause: Cause::UnkeptResults,
        }),
    ),
];

/// Whether a row's verdict is told.
fn is_adding_told(alloc: Global, row: &Adding) -> bool {
    let bytes = adding(row.0, row.1, row.2);
    is_told(alloc, &bytes, &row.3)
}

#[test]
fn calls_are_checked(rt: HostRuntime) {
    for row in &ADDINGS {
        assert!(rt;
            is_adding_told(rt.alloc(), row),
            "{} {} {}",
            row.0,
            row.1,
            row.2
        );
    }
}

/// `save %sp,-96,%sp`, `mov 0` to each local, and `mov 0,%o0; ta 0`, in two blocks, the second with a cell of each
/// local, 0 to 0, and the greatest coefficients of both signs. A SAVE weighs 25, an exit 3: the first block has 37
/// turns.
const LOCALS: [u8; 258] = [
    83, 66, 88, 56, 0, 1, 0, 7, 0, 0, 0, 11, 0, 0, 0, 0, 0, 1, 0, 1, 157, 227, 191, 160, 160, 16,
    32, 0, 162, 16, 32, 0, 164, 16, 32, 0, 166, 16, 32, 0, 168, 16, 32, 0, 170, 16, 32, 0, 172, 16,
    32, 0, 174, 16, 32, 0, 144, 16, 32, 0, 145, 208, 32, 0, 1, 0, 0, 0, 0, 4, 0, 0, 0, 0, 0, 96, 0,
    0, 0, 96, 0, 0, 0, 0, 0, 0, 0, 37, 0, 2, 0, 4, 0, 0, 0, 0, 0, 0, 0, 0, 0, 0, 0, 0, 0, 37, 0, 4,
    0, 36, 0, 8, 0, 8, 0, 0, 0, 0, 0, 0, 0, 4, 0, 16, 0, 0, 0, 0, 0, 0, 0, 0, 0, 0, 17, 0, 0, 0, 0,
    0, 0, 0, 0, 0, 0, 18, 0, 0, 0, 0, 0, 0, 0, 0, 0, 0, 19, 0, 0, 0, 0, 0, 0, 0, 0, 0, 0, 20, 0, 0,
    0, 0, 0, 0, 0, 0, 0, 0, 21, 0, 0, 0, 0, 0, 0, 0, 0, 0, 0, 22, 0, 0, 0, 0, 0, 0, 0, 0, 0, 0, 23,
    0, 0, 0, 0, 0, 0, 0, 0, 0, 0, 16, 127, 255, 255, 255, 0, 17, 127, 255, 255, 255, 0, 18, 127,
    255, 255, 255, 0, 19, 127, 255, 255, 255, 0, 20, 128, 0, 0, 0, 0, 21, 128, 0, 0, 0, 0, 22, 128,
    0, 0, 0, 0, 23, 128, 0, 0, 0,
];

/// The same where each local may be any word.
const ANY_LOCALS: [u8; 258] = [
    83, 66, 88, 56, 0, 1, 0, 7, 0, 0, 0, 11, 0, 0, 0, 0, 0, 1, 0, 1, 157, 227, 191, 160, 160, 16,
    32, 0, 162, 16, 32, 0, 164, 16, 32, 0, 166, 16, 32, 0, 168, 16, 32, 0, 170, 16, 32, 0, 172, 16,
    32, 0, 174, 16, 32, 0, 144, 16, 32, 0, 145, 208, 32, 0, 1, 0, 0, 0, 0, 4, 0, 0, 0, 0, 0, 96, 0,
    0, 0, 96, 0, 0, 0, 0, 0, 0, 0, 37, 0, 2, 0, 4, 0, 0, 0, 0, 0, 0, 0, 0, 0, 0, 0, 0, 0, 37, 0, 4,
    0, 36, 0, 8, 0, 8, 0, 0, 0, 0, 0, 0, 0, 4, 0, 16, 128, 0, 0, 0, 127, 255, 255, 255, 0, 0, 17,
    128, 0, 0, 0, 127, 255, 255, 255, 0, 0, 18, 128, 0, 0, 0, 127, 255, 255, 255, 0, 0, 19, 128, 0,
    0, 0, 127, 255, 255, 255, 0, 0, 20, 128, 0, 0, 0, 127, 255, 255, 255, 0, 0, 21, 128, 0, 0, 0,
    127, 255, 255, 255, 0, 0, 22, 128, 0, 0, 0, 127, 255, 255, 255, 0, 0, 23, 128, 0, 0, 0, 127,
    255, 255, 255, 0, 0, 16, 127, 255, 255, 255, 0, 17, 127, 255, 255, 255, 0, 18, 127, 255, 255,
    255, 0, 19, 127, 255, 255, 255, 0, 20, 128, 0, 0, 0, 0, 21, 128, 0, 0, 0, 0, 22, 128, 0, 0, 0,
    0, 23, 128, 0, 0, 0,
];

/// The locals with another fuel of the first block.
fn locals(fuel: u8) -> [u8; 258] {
    let mut bytes = LOCALS;
    bytes[105] = fuel;
    bytes
}

/// The first function's want of fuel at an address.
const fn out_of_fuel(address: u32) -> Option<Refusal> {
    Some(Refusal {
        function: 0,
        address,
        cause: Cause::OutOfFuel,
    })
}

#[test]
fn greatest_sizes_are_checked(rt: HostRuntime) {
    assert!(rt; is_told(rt.alloc(), &locals(37), &None));
    assert!(rt; is_told(rt.alloc(), &locals(36), &out_of_fuel(0x0004_0020)));
    assert!(rt; is_told(rt.alloc(), &ANY_LOCALS, &out_of_fuel(0x0004_0028)));
}
