//! The rules that look after a word: what is known then on each of its ways, and where they lead.
ghost use Rattle.std.specs.Prelude.{◌≡◌, ◌&&◌, ◌||◌, ◌==◌, ◌<◌, ◌+◌, ◌*◌, ◌↔◌, IfSome, IsTrue, Ok, false};
ghost use Rattle.std.specs.Prelude.{if◌then◌else◌, length, nat_lt, not, suc};
ghost use Rattle.std.specs.List.{list_any};
ghost use Rattle.sbx_rules.specs.Known.{Known, known};
ghost use Rattle.sbx_fuel.specs.Least.{HasOnlyLocations};
ghost use Rattle.sbx_image.specs.Rules.{parts_keep};
ghost use Rattle.sbx_image.specs.Spelling.{IsCountedFunction};
ghost use Rattle.sbx_rules.specs.Operations.{is_call, is_framed, is_return};
ghost use Rattle.sbx_rules.specs.Fuel.{IsEnough, IsWithinBudget};
ghost use Rattle.sbx_image.specs.Order.{block_at, function_at};
ghost use Rattle.sbx_rules.specs.Places.{ends_run};
ghost use Rattle.sbx_rules.specs.Rules.{HasUnpaidEdge, Holds, LacksFuel, calls_deeper, has_cells, has_outs, is_back};
ghost use Rattle.sbx_rules.specs.Rules.{is_entry, is_past, lacks_depth, lacks_room, lists_badly, misses_params};
ghost use Rattle.sbx_rules.specs.Rules.{names_strange, params_of, room_of_callee};
ghost use Rattle.sbx_rules.specs.Ways.{after_call, cells_at, fuel_at, state_at, visits_at, weight_to};
ghost use Rattle.sbx_known.specs.Courses.{AreWell, IsWell, arrivals_at, is_any, listed, misses_at};
ghost use Rattle.sbx_pass.specs.Firsts.{Tells};
ghost use Rattle.sbx_pass.specs.Paying.{IsPaidOn};
ghost use Rattle.sbx_known.specs.Spots.{IsBlock, IsSpot};

use crate::before::is_entry;
use sbx_fuel::{is_enough, is_within_budget, lasts, names_strange};
use sbx_image::{Function, Image};
use sbx_known::{
    Course, Courses, Going, Spot, block_at, comes_back, ends_run, function_at, has_cells, has_outs,
    is_call, is_framed, is_return, lists_badly, return_to, some_comes_back, some_goes_past,
};
use sbx_rules::{Cause, State};

/// Whether what is known is within what a block begins with: a function's first one with the params.
fn keeps_cells(image: &Image, function: usize, block: usize, state: &State) -> bool
    requires { IsBlock image.now function block }
    ensures { result ≡ has_cells (known state.now) (cells_at image.now function block) }
{
    if block == 0 {
        let params = function_at(image, function).params.as_slice();
        has_outs(8, params, state)
    } else {
        has_cells(state, block_at(image, function, block).cells.as_slice())
    }
}

/// Whether a way is an edge to a block that begins with more than is known.
fn misses_cells(image: &Image, function: usize, course: Option<Course>, state: &State) -> bool
    requires function { function < length image.now.functions }
    requires well { IfSome course (λ c. IsWell image.now function c.going) }
    ensures { result ≡ is_any (misses_at image.now function) course (known state.now) }
{
    match course {
        Some(
            Course {
                going: Going::To(target),
                ..
            },
        ) => !keeps_cells(image, function, target, state),
        _ => false,
    }
}

/// Whether the function that was called right before a word's slot begins with more than is known after the slot.
fn misses_params(image: &Image, spot: &Spot, state: &State) -> bool
    requires { IsSpot image.now spot.now }
    ensures { result ≡
        not (has_cells (known state.now)
        (params_of image.now spot.now.function spot.now.block spot.now.number spot.now.called)) }
{
    match spot.called {
        Some(callee) => !keeps_cells(image, callee, 0, state),
        None => false,
    }
}

/// The effect of the call whose slot a word is, and whether its function begins with more than is known after the slot.
pub fn end_call(image: &Image, spot: &Spot, state: &mut State) -> bool
    requires { IsSpot image.now spot.now }
    ensures missed { result ≡
        not (has_cells (known state.old)
        (params_of image.now spot.now.function spot.now.block spot.now.number spot.now.called)) }
    ensures known { known state.new ≡ after_call image.now spot.now.called (known state.old) }
{
    let misses = misses_params(image, spot, state);
    return_to(image, spot, state);
    misses
}

/// Whether a first block lists cells, or another one a cell that its function can't write.
fn lists_badly_at(image: &Image, spot: &Spot) -> bool
    requires { IsSpot image.now spot.now }
    ensures { result ≡
        ((spot.now.number == 0)
        && lists_badly (function_at image.now spot.now.function) spot.now.block
        (block_at image.now spot.now.function spot.now.block)) }
{
    spot.number == 0
        && lists_badly(
            function_at(image, spot.function),
            spot.block as u16,
            block_at(image, spot.function, spot.block),
        )
}

/// Whether the stack room is less than the function's frame, or function 0's more than the stack.
fn lacks_entry_room(image: &Image, function: &Function, number: usize) -> bool
    ensures { result ≡
        (nat_lt function.now.stack_room function.now.frame
        || ((number == 0) && nat_lt (4096 * image.now.stack_pages) (function.now.stack_room + 64))) }
{
    let stack = 4_096 * u64::from(image.stack_pages());
    function.stack_room < function.frame
        || (number == 0 && stack < u64::from(function.stack_room) + 64)
}

fn room_of_callee(image: &Image, spot: &Spot) -> u32
    requires { IsSpot image.now spot.now }
    ensures { result ≡ room_of_callee image.now spot.now.function spot.now.block spot.now.number spot.now.callee }
{
    match spot.callee {
        Some(callee) => function_at(image, callee).stack_room,
        None => 0,
    }
}

fn lacks_room(image: &Image, spot: &Spot) -> bool
    requires { IsSpot image.now spot.now }
    ensures { result ≡ lacks_room image.now spot.now.function spot.now.block spot.now.number }
{
    let function = function_at(image, spot.function);
    let needed = u64::from(function.frame) + u64::from(room_of_callee(image, spot));
    (is_entry(spot) && lacks_entry_room(image, function, spot.function))
        || (is_call(&spot.operation) && u64::from(function.stack_room) < needed)
}

/// Whether the function that a word calls is as deep as the caller, or deeper.
fn calls_deeper(image: &Image, spot: &Spot) -> bool
    requires { IsSpot image.now spot.now }
    ensures { result ≡ calls_deeper image.now spot.now.function spot.now.block spot.now.number spot.now.callee }
{
    match spot.callee {
        Some(callee) => function_at(image, spot.function).depth <= function_at(image, callee).depth,
        None => false,
    }
}

fn lacks_depth(image: &Image, spot: &Spot) -> bool
    requires { IsSpot image.now spot.now }
    ensures { result ≡ lacks_depth image.now spot.now.function spot.now.block spot.now.number }
{
    let function = function_at(image, spot.function);
    image.version() == 3
        && ((is_entry(spot) && is_framed(function.kind) && function.depth < 1)
            || calls_deeper(image, spot))
}

/// Whether a way is a return whose results aren't within the function's.
fn breaks_results(function: &Function, course: Option<Course>, state: &State) -> bool
    requires { IsCountedFunction function.now }
    ensures { result ≡
        is_any (λ v. is_back v.way && not (has_outs 8 function.now.results v.known)) course (known state.now) }
{
    comes_back(course) && !has_outs(8, function.results.as_slice(), state)
}

fn breaks_results_on(function: &Function, courses: &Courses, here: &State, other: &State) -> bool
    requires { IsCountedFunction function.now }
    ensures { result ≡
        list_any (λ v. is_back v.way && not (has_outs 8 function.now.results v.known))
        (listed courses.now (known here.now) (known other.now)) }
{
    breaks_results(function, courses.first, here) || breaks_results(function, courses.second, other)
}

/// Whether function 0 has params or returns.
fn is_bad_entry(image: &Image, spot: &Spot) -> bool
    requires { IsSpot image.now spot.now }
    ensures { result ≡
        ((spot.now.function == 0)
        && ((is_entry spot.now.block spot.now.number
        && not (length (function_at image.now spot.now.function).params == 0)) || is_return spot.now.operation)) }
{
    spot.function == 0
        && ((is_entry(spot) && function_at(image, spot.function).params.len() != 0)
            || is_return(&spot.operation))
}

/// Whether some of the rule of cells is broken but at a call: on an edge, or by what the block lists.
fn breaks_cells(image: &Image, spot: &Spot, courses: &Courses, here: &State, other: &State) -> bool
    requires spot { IsSpot image.now spot.now }
    requires well { AreWell image.now spot.now.function courses.now }
    ensures { result ≡
        (list_any (misses_at image.now spot.now.function) (listed courses.now (known here.now) (known other.now))
        || ((spot.now.number == 0) && lists_badly (function_at image.now spot.now.function) spot.now.block (block_at image.now spot.now.function spot.now.block))) }
{
    misses_cells(image, spot.function, courses.first, here)
        || misses_cells(image, spot.function, courses.second, other)
        || lists_badly_at(image, spot)
}

/// The first of the rules 15 to 18 and 20 that a word breaks.
fn fault_of_ways(
    image: &Image,
    spot: &Spot,
    courses: &Courses,
    here: &State,
    other: &State,
) -> Option<Cause>
    requires spot { IsSpot image.now spot.now }
    requires arrivals { arrivals_at image.now spot.now.function spot.now.block spot.now.number ≡
        listed courses.now (known here.now) (known other.now) }
    ensures { Tells (Holds image.now spot.now.function spot.now.block spot.now.number) 15 21 result }
{
    let function = function_at(image, spot.function);
    lacks_room(image, spot)
        .then_some(Cause::OutOfStack)
        .or(some_goes_past(courses).then_some(Cause::RunsPastEnd))
        .or(breaks_results_on(function, courses, here, other).then_some(Cause::UnkeptResults))
        .or(is_bad_entry(image, spot).then_some(Cause::BadEntry))
        .or(lacks_depth(image, spot).then_some(Cause::TooDeep))
}

/// Whether the fuel of a word's block lasts where a way leads to a block.
fn pays(image: &Image, spot: &Spot, weight: u64, course: Option<Course>, state: &State) -> bool
    requires spot { IsSpot image.now spot.now }
    requires well { IfSome course (λ c. IsWell image.now spot.now.function c.going) }
    requires locations { IfSome course (λ _. HasOnlyLocations (known state.now)) }
    ensures { IsTrue result ↔ IsPaidOn image.now spot.now.function spot.now.block weight course (known state.now) }
{
    match course {
        Some(
            Course {
                going: Going::To(target),
                ..
            },
        ) => lasts(image, spot.function, spot.block, target, weight, state),
        _ => true,
    }
}

/// Whether the run or the function ends after a word for which the fuel of its block isn't enough.
fn ends_short(image: &Image, spot: &Spot, weight: u64, courses: &Courses) -> bool
    requires { IsSpot image.now spot.now }
    ensures { (d e : Known) →
        IsTrue result ↔ (IsTrue (list_any (λ v. is_back v.way) (listed courses.now d e) || ends_run spot.now.operation)
        × (IsEnough (state_at image.now spot.now.function spot.now.block 0)
        (fuel_at image.now spot.now.function spot.now.block) weight → ⊥)) }
{
    (some_comes_back(courses) || ends_run(&spot.operation))
        && !is_enough(image, spot.function, spot.block, weight)
}

/// Whether a function's budget is less than its first block's fuel.
fn lacks_budget(image: &Image, spot: &Spot) -> bool
    requires { IsSpot image.now spot.now }
    ensures { IsTrue result ↔ (IsTrue (is_entry spot.now.block spot.now.number)
        × (IsWithinBudget (state_at image.now spot.now.function spot.now.block 0)
        (fuel_at image.now spot.now.function spot.now.block) (function_at image.now spot.now.function).budget →
        ⊥)) }
{
    is_entry(spot) && !is_within_budget(image, spot.function, spot.block)
}

/// Whether a term of a block's fuel names no cell of it.
fn names_strange_at(image: &Image, spot: &Spot) -> bool
    requires { IsSpot image.now spot.now }
    ensures { result ≡
        ((spot.now.number == 0) && names_strange image.now spot.now.function spot.now.block spot.now.number) }
{
    spot.number == 0 && names_strange(image, spot.function, spot.block)
}

fn are_both(first: bool, second: bool) -> bool
    ensures { result ≡ (first && second) }
{
    first && second
}

fn is_some_of(first: bool, second: bool, third: bool, fourth: bool) -> bool
    ensures { result ≡ (first || second || third || fourth) }
{
    first || second || third || fourth
}

/// Whether the fuel of a word's block doesn't last on some way to a block.
fn leaves_unpaid(
    image: &Image,
    spot: &Spot,
    weight: u64,
    courses: &Courses,
    here: &State,
    other: &State,
) -> bool
    requires spot { IsSpot image.now spot.now }
    requires well { AreWell image.now spot.now.function courses.now }
    requires arrivals { arrivals_at image.now spot.now.function spot.now.block spot.now.number ≡
        listed courses.now (known here.now) (known other.now) }
    requires weight { weight ≡ weight_to image.now spot.now.function spot.now.block (suc spot.now.number) }
    ensures { IsTrue result ↔ HasUnpaidEdge image.now spot.now.function spot.now.block spot.now.number }
{
    !are_both(
        pays(image, spot, weight, courses.first, here),
        pays(image, spot, weight, courses.second, other),
    )
}

/// Whether fuel or budget may not last at a word.
fn lacks_fuel(
    image: &Image,
    spot: &Spot,
    weight: u64,
    courses: &Courses,
    here: &State,
    other: &State,
) -> bool
    requires spot { IsSpot image.now spot.now }
    requires well { AreWell image.now spot.now.function courses.now }
    requires arrivals { arrivals_at image.now spot.now.function spot.now.block spot.now.number ≡
        listed courses.now (known here.now) (known other.now) }
    requires weight { weight ≡ weight_to image.now spot.now.function spot.now.block (suc spot.now.number) }
    ensures { IsTrue result ↔ LacksFuel image.now spot.now.function spot.now.block spot.now.number }
{
    is_some_of(
        leaves_unpaid(image, spot, weight, courses, here, other),
        ends_short(image, spot, weight, courses),
        lacks_budget(image, spot),
        names_strange_at(image, spot),
    )
}

/// The first of the rules 13 to 18 and 20 that a word breaks, where no call that it ends is made with less than its
/// params.
pub fn fault_after(
    image: &Image,
    spot: &Spot,
    weight: u64,
    courses: &Courses,
    here: &State,
    other: &State,
) -> Option<Cause>
    requires spot { IsSpot image.now spot.now }
    requires well { AreWell image.now spot.now.function courses.now }
    requires arrivals { arrivals_at image.now spot.now.function spot.now.block spot.now.number ≡
        listed courses.now (known here.now) (known other.now) }
    requires params { list_any (misses_params image.now spot.now.function spot.now.block spot.now.number)
        (visits_at image.now spot.now.function spot.now.block spot.now.number) ≡ false }
    requires weight { weight ≡ weight_to image.now spot.now.function spot.now.block (suc spot.now.number) }
    ensures { Tells (Holds image.now spot.now.function spot.now.block spot.now.number) 13 21 result }
{
    breaks_cells(image, spot, courses, here, other)
        .then_some(Cause::UnkeptCells)
        .or(lacks_fuel(image, spot, weight, courses, here, other).then_some(Cause::OutOfFuel))
        .or(fault_of_ways(image, spot, courses, here, other))
}
