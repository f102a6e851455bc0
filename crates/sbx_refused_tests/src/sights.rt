//! What is known at words of whole images, worked out by hand. Where a growth of memory is refused, a call is made once
//! more.
ghost use Rattle.std.specs.Prelude.{IfOk};
ghost use Rattle.inspect_known.specs.Sights.{IsSeen};

use crate::images::image_of;
use crate::passing::passes;
use inspect_known::{
    BudgetSides, Fuel, FuelSides, NotKnown, RoomSides, Sight, after, budget_sides, call_room,
    entry_room, fuel_sides, known_at, stack_room,
};
use sbx_domain::State;
use sbx_image::Image;
use sbx_known::{Course, Going};
use std::alloc::{AllocError, Global};
use std::process::Abort;

/// `save %sp,-96,%sp; mov 1000,%l0; loop: ta 1; cmp %o0,-1; be done; nop; ta 2; deccc %l0; bne loop; nop; done: mov
/// 0,%o0; ta 0`, budget 16,030. The loop begins with %l0 from 1 to 1,000 and 16 times %l0 and 4 turns, the block after
/// its first branch with %o0 from 0 to 255 too and 8 turns less, the last block with 4.
const ECHO: [u8; 203] = [
    83, 66, 88, 56, 0, 1, 0, 7, 0, 0, 0, 12, 0, 0, 0, 0, 0, 1, 0, 1, 157, 227, 191, 160, 160, 16,
    35, 232, 145, 208, 32, 1, 128, 162, 63, 255, 2, 128, 0, 6, 1, 0, 0, 0, 145, 208, 32, 2, 160,
    164, 32, 1, 18, 191, 255, 250, 1, 0, 0, 0, 144, 16, 32, 0, 145, 208, 32, 0, 1, 0, 0, 0, 0, 4,
    0, 0, 0, 0, 0, 96, 0, 0, 0, 96, 0, 0, 0, 0, 0, 0, 62, 158, 0, 4, 0, 4, 0, 0, 0, 0, 0, 0, 0, 0,
    0, 0, 0, 0, 62, 158, 0, 4, 0, 8, 0, 1, 0, 1, 0, 0, 0, 0, 0, 0, 0, 4, 0, 16, 0, 0, 0, 1, 0, 0,
    3, 232, 0, 0, 16, 0, 0, 0, 16, 0, 4, 0, 24, 0, 2, 0, 1, 255, 255, 255, 255, 255, 255, 255, 252,
    0, 8, 0, 0, 0, 0, 0, 0, 0, 255, 0, 0, 16, 0, 0, 0, 1, 0, 0, 3, 232, 0, 0, 16, 0, 0, 0, 16, 0,
    4, 0, 40, 0, 0, 0, 0, 0, 0, 0, 0, 0, 0, 0, 4,
];

/// `f0: save %sp,-96,%sp; call f1; nop; ta 0`, `f1: save %sp,-96,%sp; call f2; nop; mov 41,%l0; ret; restore %l0,1,%o0`
/// with the result 42, and `f2: save %sp,-96,%sp; mov 33,%o0; ta 2; ret; restore`. Budgets are 57, 54 more, and 30
/// more; rooms 96, 192, 288.
const CHAIN: [u8; 215] = [
    83, 66, 88, 56, 0, 1, 0, 7, 0, 0, 0, 15, 0, 0, 0, 0, 0, 1, 0, 3, 157, 227, 191, 160, 64, 0, 0,
    3, 1, 0, 0, 0, 145, 208, 32, 0, 157, 227, 191, 160, 64, 0, 0, 5, 1, 0, 0, 0, 160, 16, 32, 41,
    129, 199, 224, 8, 145, 236, 32, 1, 157, 227, 191, 160, 144, 16, 32, 33, 145, 208, 32, 2, 129,
    199, 224, 8, 129, 232, 0, 0, 1, 0, 0, 0, 0, 4, 0, 0, 0, 0, 0, 96, 0, 0, 1, 32, 0, 0, 0, 0, 0,
    0, 0, 141, 0, 1, 0, 4, 0, 0, 0, 0, 0, 0, 0, 0, 0, 0, 0, 0, 0, 141, 1, 0, 1, 0, 0, 4, 0, 16, 0,
    0, 0, 96, 0, 0, 0, 192, 0, 0, 0, 0, 0, 0, 0, 111, 0, 1, 0, 0, 0, 42, 0, 0, 0, 42, 0, 0, 4, 0,
    16, 0, 0, 0, 0, 0, 0, 0, 0, 0, 0, 0, 111, 1, 0, 0, 0, 0, 4, 0, 40, 0, 0, 0, 96, 0, 0, 0, 96, 0,
    0, 0, 0, 0, 0, 0, 57, 0, 1, 0, 4, 0, 40, 0, 0, 0, 0, 0, 0, 0, 0, 0, 0, 0, 57,
];

const O0: u16 = 8;

const L0: u16 = 16;

fn seen(alloc: Global, image: &Image, function: u16, address: u32) -> Result<Sight, NotKnown>
    ensures { IfOk result (λ sight. IsSeen image.now sight) }
{
    match known_at(alloc, image, function, address) {
        Err(NotKnown::NoMemory(_)) => known_at(alloc, image, function, address),
        first => first,
    }
}

/// Where a way leads: the block, if it leads to one; and the ends of a location's range, where it is defined.
type Way = (Option<usize>, Option<(i32, i32)>);

/// A function, the address of its word, the turns up to there, a location, and the two ways.
type Row = (u16, u32, u64, u16, Option<Way>, Option<Way>);

const ECHO_ROWS: [Row; 6] = [
    (0, 0x0004_0004, 26, L0, Some((Some(1), None)), None),
    (0, 0x0004_0008, 5, L0, Some((None, Some((1, 1_000)))), None),
    (0, 0x0004_000C, 6, O0, Some((None, Some((-1, 255)))), None),
    (
        0,
        0x0004_0014,
        8,
        O0,
        Some((Some(3), Some((-1, -1)))),
        Some((Some(2), Some((0, 255)))),
    ),
    (
        0,
        0x0004_0024,
        8,
        L0,
        Some((Some(1), Some((1, 999)))),
        Some((Some(3), Some((0, 0)))),
    ),
    (0, 0x0004_002C, 4, O0, Some((None, Some((0, 0)))), None),
];

const CHAIN_ROWS: [Row; 4] = [
    (0, 0x0004_0008, 138, O0, Some((None, None)), None),
    (0, 0x0004_000C, 141, O0, Some((None, Some((42, 42)))), None),
    (1, 0x0004_0024, 111, L0, Some((None, Some((41, 41)))), None),
    (2, 0x0004_0030, 31, O0, Some((None, Some((33, 33)))), None),
];

/// Where a way leads, if there is one, and the range of a location on it.
fn way_of(course: Option<Course>, state: &State, location: u16) -> Option<Way> {
    let block = match course?.going {
        Going::To(block) => Some(block),
        _ => None,
    };
    match state.range(location) {
        Some(range) => Some((block, Some((range.lo, range.hi)))),
        None => Some((block, None)),
    }
}

/// Whether what is known is a row's.
fn is_row_of(sight: &Sight, row: &Row) -> bool {
    let (_, _, weight, location, first, second) = *row;
    sight.weight == weight
        && way_of(sight.courses.first, &sight.first, location) == first
        && way_of(sight.courses.second, &sight.second, location) == second
}

/// A function, an address, and why nothing is known there.
type Nowhere = (u16, u32, NotKnown);

/// Functions and addresses of the echo where nothing is known.
const NOWHERE: [Nowhere; 6] = [
    (0, 0, NotKnown::NoWord),
    (0, 0x0003_FFFC, NotKnown::NoWord),
    (0, 0x0004_0009, NotKnown::NoWord),
    (0, 0x0004_0030, NotKnown::NoWord),
    (1, 0x0004_0000, NotKnown::NoFunction),
    (65_535, 0x0004_0000, NotKnown::NoFunction),
];

/// Whether fuel is the constant, and the coefficient times the number of a location, if that isn't 0.
fn is_fuel(fuel: &Fuel, constant: i64, location: u16, coefficient: i128) -> bool {
    fuel.constant == constant
        && match fuel.terms.as_slice() {
            [] => coefficient == 0,
            [term] => term.location == location && term.coefficient == coefficient,
            _ => false,
        }
}

fn is_next(fuel: &Option<Fuel>, constant: i64, coefficient: i128) -> bool {
    match fuel {
        Some(fuel) => is_fuel(fuel, constant, L0, coefficient),
        None => false,
    }
}

/// Whether fuel is 16 times %l0 less 4, and on the ways after a turn's 8 that and 8 more, and 4.
fn are_fuel_sides(sides: &FuelSides) -> bool {
    is_fuel(&sides.fuel, -4, L0, 16)
        && sides.weight == 8
        && is_next(&sides.first, 4, 16)
        && is_next(&sides.second, 4, 0)
}

fn is_budget(sides: &BudgetSides) -> bool {
    sides.budget == 16_030 && is_fuel(&sides.fuel, 16_030, L0, 0)
}

fn has_fuel(image: &Image, sight: &Sight) -> bool
    requires { IsSeen image.now sight.now }
{
    are_fuel_sides(&fuel_sides(image, sight)) && is_budget(&budget_sides(image, sight))
}

fn is_room(sides: RoomSides, room: u64, needed: u64) -> bool {
    sides.room == room && sides.needed == needed
}

/// The chain's first call: 288 bytes against 96 and 192. The stack has a page.
fn has_first_room(image: &Image, sight: &Sight) -> bool
    requires { IsSeen image.now sight.now }
{
    is_room(call_room(image, sight), 288, 288)
        && is_room(entry_room(image, sight), 288, 96)
        && is_room(stack_room(image, sight), 4_096, 352)
}

/// What is asked of the sight of a word.
#[derive(Clone, Copy)]
enum Asked<'a> {
    /// Whether it is a row's.
    Known(&'a Row),
    /// Whether it has the fuel of the echo's last branch: 16 times %l0 less 4, the loop's that and 8 more, the last
    /// block's 4.
    Fuel,
    /// Whether it has the room of the chain's first call.
    FirstRoom,
    /// Whether it has the room of its second call: 192 bytes against 96 and 96.
    SecondRoom,
    /// Whether what is known of %o0 after it is the chain's result, where it is the slot of its first call.
    Result,
    /// Whether there is none, and why.
    Unknown(NotKnown),
}

/// Whether what is asked of a sight is so.
fn is_so(image: &Image, sight: &Sight, asked: Asked<'_>) -> bool
    requires { IsSeen image.now sight.now }
{
    match asked {
        Asked::Known(row) => is_row_of(sight, row),
        Asked::Fuel => has_fuel(image, sight),
        Asked::FirstRoom => has_first_room(image, sight),
        Asked::SecondRoom => is_room(call_room(image, sight), 192, 192),
        Asked::Result | Asked::Unknown(_) => false,
    }
}

/// Whether what is known after a word has the chain's result in %o0.
fn has_result_after(image: &Image, sight: Sight) -> bool
    requires { IsSeen image.now sight }
{
    let left = after(image, sight);
    way_of(left.courses.first, &left.first, O0) == Some((None, Some((42, 42))))
}

/// The same, of the sight itself or of what is known after it.
fn is_so_of(image: &Image, sight: Sight, asked: Asked<'_>) -> bool
    requires { IsSeen image.now sight }
{
    match asked {
        Asked::Result => has_result_after(image, sight),
        _ => is_so(image, &sight, asked),
    }
}

/// Whether the reason is the one that is asked for.
fn is_reason(reason: NotKnown, asked: Asked<'_>) -> bool {
    match asked {
        Asked::Unknown(wanted) => reason == wanted,
        _ => false,
    }
}

/// Whether it is so of the word of a function at an address.
fn is_so_at(alloc: Global, image: &Image, place: (u16, u32), asked: Asked<'_>) -> bool {
    match seen(alloc, image, place.0, place.1) {
        Ok(sight) => is_so_of(image, sight, asked),
        Err(reason) => is_reason(reason, asked),
    }
}

/// Whether it is so in the image of these bytes. All questions go through here, since what owns an image or a sight
/// takes long to check.
fn holds(alloc: Global, bytes: &[u8], place: (u16, u32), asked: Asked<'_>) -> bool {
    match image_of(alloc, bytes) {
        Some(image) => is_so_at(alloc, &image, place, asked),
        None => false,
    }
}

/// Each row is what is known in the image of these bytes.
fn are_known<R: Abort>(rt: &R, alloc: Global, name: &str, bytes: &[u8], rows: &[Row]) {
    for row in rows {
        assert!(rt;
            holds(alloc, bytes, (row.0, row.1), Asked::Known(row)),
            "{name}, at {}",
            row.1
        );
    }
}

#[test]
fn these_are_known(rt: HostRuntime) {
    are_known(&rt, rt.alloc(), "echo", &ECHO, &ECHO_ROWS);
    are_known(&rt, rt.alloc(), "chain", &CHAIN, &CHAIN_ROWS);
}

/// The slot of the chain's first call: before it nothing is known of %o0, after it the result.
#[test]
fn a_call_leaves_its_results(rt: HostRuntime) {
    let after = holds(rt.alloc(), &CHAIN, (0, 0x0004_0008), Asked::Result);
    passes(&rt, "the result", after);
}

/// Nothing is known at each row of the echo.
fn are_unknown<R: Abort>(rt: &R, alloc: Global, rows: &[Nowhere]) {
    for row in rows {
        assert!(rt;
            holds(alloc, &ECHO, (row.0, row.1), Asked::Unknown(row.2)),
            "{}, at {}",
            row.0,
            row.1
        );
    }
}

#[test]
fn nothing_is_known_elsewhere(rt: HostRuntime) {
    are_unknown(&rt, rt.alloc(), &NOWHERE);
}

#[test]
fn sides_are_these(rt: HostRuntime) {
    let fuel = holds(rt.alloc(), &ECHO, (0, 0x0004_0024), Asked::Fuel);
    passes(&rt, "fuel", fuel);
    let first = holds(rt.alloc(), &CHAIN, (0, 0x0004_0004), Asked::FirstRoom);
    passes(&rt, "room of the first call", first);
    let second = holds(rt.alloc(), &CHAIN, (1, 0x0004_0014), Asked::SecondRoom);
    passes(&rt, "room of the second call", second);
}

/// What stands before the words of an image of 65,536.
const BEFORE_WORDS: [u8; 20] = [
    83, 66, 88, 56, 0, 1, 0, 7, 0, 1, 0, 0, 0, 0, 0, 0, 0, 1, 0, 1,
];

/// Its last word, `ta 0`, and its one leaf function of one block, with the turns as budget and fuel.
const LAST_WORD: [u8; 46] = [
    145, 208, 32, 0, 0, 0, 0, 0, 0, 4, 0, 0, 0, 0, 0, 0, 0, 0, 0, 0, 0, 0, 0, 0, 0, 1, 0, 2, 0, 1,
    0, 4, 0, 0, 0, 0, 0, 0, 0, 0, 0, 0, 0, 1, 0, 2,
];

/// Fills in an image of one block of 65,535 times `nop` and the exit.
fn fill_long_block(bytes: &mut Vec<u8>) -> Result<(), AllocError> {
    bytes.clear();
    bytes.extend_from_slice(&BEFORE_WORDS)?;
    for _ in 0..65_535 {
        bytes.extend_from_slice(&[1, 0, 0, 0])?;
    }
    bytes.extend_from_slice(&LAST_WORD)
}

/// The turns up to the last word of an image that has 65,536.
fn weight_in(alloc: Global, image: &Image) -> Option<u64> {
    match seen(alloc, image, 0, 0x0007_FFFC) {
        Ok(sight) => Some(sight.weight),
        Err(_) => None,
    }
}

/// The same of the image of these bytes.
fn last_weight(alloc: Global, bytes: &[u8]) -> Option<u64> {
    match image_of(alloc, bytes) {
        Some(image) => weight_in(alloc, &image),
        None => None,
    }
}

/// The turns up to the end of the longest block. Where a growth was refused, its image is filled in once more.
fn longest(alloc: Global) -> Option<u64> {
    let mut bytes = Vec::new(alloc);
    if fill_long_block(&mut bytes).is_ok() || fill_long_block(&mut bytes).is_ok() {
        last_weight(alloc, bytes.as_slice())
    } else {
        None
    }
}

#[test]
fn a_long_block_is_passed(rt: HostRuntime) {
    let weight = longest(rt.alloc()).unwrap_or(0);
    assert!(rt; weight == 65_538, "{weight}");
}
