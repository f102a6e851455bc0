//! The rules that look before a word: what it is, where it goes, and what it reads, writes and reaches on each of its
//! ways.
ghost use Rattle.std.specs.Prelude.{◌≡◌, ◌<◌, ◌+◌, ◌&&◌, ◌||◌, nat_le, not, ℕ};
ghost use Rattle.sbx_image.specs.Parts.{Parts};
ghost use Rattle.sbx_rules.specs.Known.{Known, known};
ghost use Rattle.sbx_rules.specs.Operations.{access_of, is_call, is_framed, is_framed_return, is_restore, is_save};
ghost use Rattle.sbx_rules.specs.Operations.{is_transfer, is_trap};
ghost use Rattle.sbx_rules.specs.Rules.{Holds, branches_badly, enters_well, has_bad_shape, is_aligned_access, is_entry};
ghost use Rattle.sbx_rules.specs.Rules.{is_later, is_placed_access, may_divide_by_zero, may_overflow, reads_undefined};
ghost use Rattle.sbx_rules.specs.Rules.{runs_with, same_test, suits, touches_reserved};
ghost use Rattle.sbx_rules.specs.Places.{ends_run};
ghost use Rattle.sbx_rules.specs.Ways.{visits_at};
ghost use Rattle.sbx_known.specs.Courses.{listed};
ghost use Rattle.sbx_pass.specs.Firsts.{Tells};
ghost use Rattle.sbx_known.specs.Spots.{IsSpot};

use sbx_image::{Function, Image};
use sbx_known::{
    Courses, Spot, branch_way, ends_run, enters_well, function_at, is_aligned, is_call,
    is_declared, is_framed, is_framed_return, is_inner_edge, is_placed, is_restore, is_save,
    is_transfer, is_trap, may_divide_by_zero, may_overflow, reads_undefined, runs, suits,
    touches_reserved,
};
use sbx_rules::{Cause, State};
use v8_meaning::{Operation, is_admitted};

/// Whether a word is the first of its function.
pub fn is_entry(spot: &Spot) -> bool
    ensures { result ≡ is_entry spot.now.block spot.now.number }
{
    spot.block == 0 && spot.number == 0
}

/// Whether a function's first word isn't as its kind asks, or a SAVE or a RESTORE stands where it may not, or a RESTORE
/// doesn't where it must.
fn misplaces_windows(function: &Function, spot: &Spot) -> bool
    ensures { result ≡ ((is_entry spot.now.block spot.now.number && not (enters_well function.now spot.now.operation))
        || (is_save spot.now.operation && not (is_entry spot.now.block spot.now.number && is_framed function.now.kind))
        || not (same_test (is_framed_return spot.now.before) (is_restore spot.now.operation))) }
{
    let is_entry = is_entry(spot);
    (is_entry && !enters_well(function, &spot.operation))
        || (is_save(&spot.operation) && !(is_entry && is_framed(function.kind)))
        || is_framed_return(&spot.before) != is_restore(&spot.operation)
}

fn is_last(spot: &Spot) -> bool
    requires { spot.now.number < spot.now.count }
    ensures { result ≡ nat_le spot.now.count (spot.now.number + 1) }
{
    spot.count <= spot.number + 1
}

/// Whether a transfer stands in a slot, or before one that isn't in its block, or a word of the block after a slot or
/// an exit.
fn misplaces_transfers(spot: &Spot) -> bool
    requires { spot.now.number < spot.now.count }
    ensures { result ≡ ((is_transfer spot.now.before && (is_transfer spot.now.operation || is_trap spot.now.operation))
        || (is_transfer spot.now.operation && nat_le spot.now.count (spot.now.number + 1))
        || (is_transfer spot.now.before && not (is_call spot.now.before) && not (nat_le spot.now.count (spot.now.number + 1)))
        || (ends_run spot.now.operation && not (nat_le spot.now.count (spot.now.number + 1)))) }
{
    let is_last = is_last(spot);
    let in_slot = is_transfer(&spot.before);
    let transfers = is_transfer(&spot.operation);
    (in_slot && (transfers || is_trap(&spot.operation)))
        || (transfers && is_last)
        || (in_slot && !is_call(&spot.before) && !is_last)
        || (ends_run(&spot.operation) && !is_last)
}

fn has_bad_shape(image: &Image, spot: &Spot) -> bool
    requires { IsSpot image.now spot.now }
    ensures { result ≡ has_bad_shape image.now spot.now.function spot.now.block spot.now.number }
{
    let function = function_at(image, spot.function);
    misplaces_windows(function, spot)
        || !suits(function.kind, &spot.operation)
        || misplaces_transfers(spot)
}

/// Whether a branch goes to no block of its function, or to its first one.
fn branches_badly(image: &Image, spot: &Spot) -> bool
    requires { IsSpot image.now spot.now }
    ensures { result ≡ branches_badly image.now spot.now.function spot.now.block spot.now.number spot.now.operation }
{
    match &spot.operation {
        Operation::BranchOnCondition(branch) => !is_inner_edge(branch_way(
            image,
            spot.function,
            spot.block,
            spot.number,
            branch.displacement,
        )),
        _ => false,
    }
}

/// Whether a CALL goes to no function of larger number.
fn calls_badly(spot: &Spot) -> bool
    ensures { (parts : Parts) → (b i : ℕ) →
        result ≡ (is_call spot.now.operation && not (is_later parts spot.now.function b i spot.now.callee)) }
{
    is_call(&spot.operation)
        && match spot.callee {
            Some(callee) => callee <= spot.function,
            None => true,
        }
}

/// The first of the rules 1 to 5 that a word breaks.
fn fault_of_word(image: &Image, spot: &Spot) -> Option<Cause>
    requires { IsSpot image.now spot.now }
    ensures { Tells (Holds image.now spot.now.function spot.now.block spot.now.number) 1 6 result }
{
    spot.is_no_instruction
        .then_some(Cause::NotAnInstruction)
        .or((!is_admitted(&spot.operation)).then_some(Cause::NotAdmitted))
        .or(has_bad_shape(image, spot).then_some(Cause::BadShape))
        .or(branches_badly(image, spot).then_some(Cause::BadBranch))
        .or(calls_badly(spot).then_some(Cause::BadCall))
}

fn reads_undefined_on(
    function: &Function,
    operation: &Operation,
    courses: &Courses,
    here: &State,
    other: &State,
) -> bool
    ensures { result ≡
        runs_with (reads_undefined function.now operation.now) (listed courses.now (known here.now) (known other.now)) }
{
    (runs(courses.first) && reads_undefined(function, operation, here))
        || (runs(courses.second) && reads_undefined(function, operation, other))
}

fn touches_reserved_on(function: &Function, operation: &Operation, courses: &Courses) -> bool
    ensures { (d e : Known) →
        result ≡ runs_with (λ _. touches_reserved function.now operation.now) (listed courses.now d e) }
{
    (runs(courses.first) || runs(courses.second)) && touches_reserved(function, operation)
}

fn is_misaligned_on(
    function: &Function,
    operation: &Operation,
    courses: &Courses,
    here: &State,
    other: &State,
) -> bool
    ensures { result ≡
        runs_with (λ d. not (is_aligned_access (access_of function.now operation.now d)))
        (listed courses.now (known here.now) (known other.now)) }
{
    (runs(courses.first) && !is_aligned(function, operation, here))
        || (runs(courses.second) && !is_aligned(function, operation, other))
}

fn is_outside_on(
    image: &Image,
    function: &Function,
    operation: &Operation,
    courses: &Courses,
    here: &State,
    other: &State,
) -> bool
    ensures { result ≡
        runs_with (λ d. not (is_placed_access image.now function.now.frame (access_of function.now operation.now d)))
        (listed courses.now (known here.now) (known other.now)) }
{
    (runs(courses.first) && !is_placed(image, function, operation, here))
        || (runs(courses.second) && !is_placed(image, function, operation, other))
}

fn may_divide_by_zero_on(
    operation: &Operation,
    courses: &Courses,
    here: &State,
    other: &State,
) -> bool
    ensures { result ≡
        runs_with (may_divide_by_zero operation.now) (listed courses.now (known here.now) (known other.now)) }
{
    (runs(courses.first) && may_divide_by_zero(operation, here))
        || (runs(courses.second) && may_divide_by_zero(operation, other))
}

fn may_overflow_on(operation: &Operation, courses: &Courses, here: &State, other: &State) -> bool
    ensures { result ≡ runs_with (may_overflow operation.now) (listed courses.now (known here.now) (known other.now)) }
{
    (runs(courses.first) && may_overflow(operation, here))
        || (runs(courses.second) && may_overflow(operation, other))
}

/// The first of the rules 6 to 11 that a word breaks on some of its ways.
fn fault_on_ways(
    image: &Image,
    spot: &Spot,
    courses: &Courses,
    here: &State,
    other: &State,
) -> Option<Cause>
    requires spot { IsSpot image.now spot.now }
    requires visits { visits_at image.now spot.now.function spot.now.block spot.now.number ≡
        listed courses.now (known here.now) (known other.now) }
    ensures { Tells (Holds image.now spot.now.function spot.now.block spot.now.number) 6 12 result }
{
    let function = function_at(image, spot.function);
    let operation = &spot.operation;
    reads_undefined_on(function, operation, courses, here, other)
        .then_some(Cause::UndefinedRead)
        .or(touches_reserved_on(function, operation, courses).then_some(Cause::ReservedRegister))
        .or(is_misaligned_on(function, operation, courses, here, other).then_some(
            Cause::Misaligned,
        ))
        .or(is_outside_on(image, function, operation, courses, here, other).then_some(
            Cause::OutOfBounds,
        ))
        .or(may_divide_by_zero_on(operation, courses, here, other).then_some(Cause::ZeroDivisor))
        .or(may_overflow_on(operation, courses, here, other).then_some(Cause::TagOverflow))
}

/// The first of the rules 1 to 12 that a word breaks.
pub fn fault_before(
    image: &Image,
    spot: &Spot,
    courses: &Courses,
    here: &State,
    other: &State,
) -> Option<Cause>
    requires spot { IsSpot image.now spot.now }
    requires visits { visits_at image.now spot.now.function spot.now.block spot.now.number ≡
        listed courses.now (known here.now) (known other.now) }
    ensures { Tells (Holds image.now spot.now.function spot.now.block spot.now.number) 1 13 result }
{
    fault_of_word(image, spot)
        .or(fault_on_ways(image, spot, courses, here, other))
        .or((!is_declared(image.services(), &spot.operation)).then_some(Cause::UndeclaredService))
}
