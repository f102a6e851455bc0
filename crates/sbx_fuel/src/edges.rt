//! Whether a block's fuel lasts.
ghost use Rattle.std.specs.Prelude.{◌≡◌, ◌+◌, ◌*◌, ◌<◌, ◌≤◌, ◌^◌, ◌+ℤ◌, ◌-ℤ◌, pos, true, false, length, unsigned_abs, IfSome, Ok};
ghost use Rattle.std.specs.Prelude.{Some, map, not};
ghost use Rattle.sbx_rules.specs.Known.{known, range_at};
ghost use Rattle.sbx_image.specs.Rules.{parts_keep};
ghost use Rattle.sbx_rules.specs.Fuel.{IsEnough, IsPaid, IsWithinBudget};
ghost use Rattle.sbx_image.specs.Order.{function_at};
ghost use Rattle.sbx_rules.specs.Rules.{names_strange};
ghost use Rattle.sbx_rules.specs.Ways.{fuel_at, state_at};
ghost use Rattle.sbx_fuel.specs.Blocks.{IsKeptBlock, first_of, fuel_of};
ghost use Rattle.sbx_form.specs.Forms.{AreWithin};
ghost use Rattle.sbx_fuel.specs.Least.{HasOnlyLocations, is_natural_sum, least_over};
ghost use Rattle.sbx_fuel.specs.Margins.{AreSome, start_terms};

use crate::starts::{all_negated, fuel_terms, names_none};
use crate::sums::{least_at_start, less_forms, taken_by};
use arrayvec::ArrayVec;
use sbx_form::FormTerm;
use sbx_image::{Block, Function, Image};
use sbx_rules::State;

fn total(number: i128, least: i128, other: i128) -> i128
    requires number { unsigned_abs number ≤ 2 ^ 70 }
    requires least { unsigned_abs least ≤ 2 ^ 112 }
    requires other { unsigned_abs other ≤ 2 ^ 112 }
    ensures { result ≡ number +ℤ (least +ℤ other) }
{
    number + (least + other)
}

/// Whether a number and two least values come to at least 0; where nothing is least, they don't.
fn is_natural_sum(number: i128, least: Option<i128>, other: Option<i128>) -> bool
    requires number { unsigned_abs number ≤ 2 ^ 70 }
    requires least { IfSome least (λ m. unsigned_abs m ≤ 2 ^ 112) }
    requires other { IfSome other (λ m. unsigned_abs m ≤ 2 ^ 112) }
    ensures { result ≡ is_natural_sum number least other }
{
    match (least, other) {
        (Some(least), Some(other)) => !(total(number, least, other) < 0),
        _ => false,
    }
}

/// Whether some range holds no number. Such a state is that of no run, and asks nothing of fuel.
fn has_empty_range(now: &State) -> bool
    requires { HasOnlyLocations (known now.now) }
    ensures empty { result ≡ true → AreSome (known now.now) → ⊥ }
    ensures full { result ≡ false → AreSome (known now.now) }
{
    now.has_empty_range()
}

/// What is left of a block's constant once the other's and the weight are taken away.
fn constant_left(fuel: i64, next: i64, weight: u64) -> i128
    ensures value { result ≡ (fuel -ℤ next) -ℤ pos weight }
    ensures bound { unsigned_abs result ≤ 2 ^ 70 }
{
    i128::from(fuel) - i128::from(next) - i128::from(weight)
}

/// The least value of a block's own terms.
fn least_of_own(function: &Function, number: usize, block: &Block) -> Option<i128>
    requires { length block.now.terms ≤ 8 }
    ensures value { result ≡
        least_over (range_at (first_of function.now number block.now)) (fuel_of function.now number block.now).terms }
    ensures bound { IfSome result (λ m. unsigned_abs m ≤ 2 ^ 112) }
{
    let terms: ArrayVec<FormTerm, 8> = fuel_terms(function, number, block);
    least_at_start(function, number, block, terms.as_slice())
}

/// The least value of a block's terms once those of the block after it are taken away, with room for `N` terms.
fn least_of_both<const N: usize>(
    function: &Function,
    number: usize,
    block: &Block,
    now: &State,
    next: &[FormTerm],
) -> Option<i128>
    requires room { length block.now.terms + 8 * length next.now ≤ N }
    requires some_room { N ≤ 72 }
    requires few { length next.now ≤ 8 }
    requires small { AreWithin (2 ^ 31) next.now }
    ensures value { result ≡
        least_over (range_at (first_of function.now number block.now))
        (start_terms (known now.now) next.now (fuel_of function.now number block.now).terms) }
    ensures bound { IfSome result (λ m. unsigned_abs m ≤ 2 ^ 112) }
{
    let mut terms: ArrayVec<FormTerm, N> = fuel_terms(function, number, block);
    less_forms(&mut terms, now, next);
    least_at_start(function, number, block, terms.as_slice())
}

/// The same, with no more room than is needed: the fuel of most blocks is a number alone, or has one term.
fn least_left(
    function: &Function,
    number: usize,
    block: &Block,
    now: &State,
    next: &[FormTerm],
) -> Option<i128>
    requires own { length block.now.terms ≤ 8 }
    requires few { length next.now ≤ 8 }
    requires small { AreWithin (2 ^ 31) next.now }
    ensures value { result ≡
        least_over (range_at (first_of function.now number block.now))
        (start_terms (known now.now) next.now (fuel_of function.now number block.now).terms) }
    ensures bound { IfSome result (λ m. unsigned_abs m ≤ 2 ^ 112) }
{
    if next.is_empty() {
        least_of_own(function, number, block)
    } else if next.len() < 2 {
        least_of_both::<16>(function, number, block, now, next)
    } else {
        least_of_both::<72>(function, number, block, now, next)
    }
}

/// Whether a block's fuel lasts for the weight and the fuel of the block after it, where numbers are in their ranges.
fn lasts_for(
    function: &Function,
    number: usize,
    block: &Block,
    target: usize,
    next: &Block,
    weight: u64,
    now: &State,
) -> bool
    requires kept { IsKeptBlock function.now number block.now }
    requires next_kept { IsKeptBlock function.now target next.now }
    requires some { AreSome (known now.now) }
    ensures paid { result ≡ true →
        IsPaid (first_of function.now number block.now) (fuel_of function.now number block.now) weight (known now.now)
        (fuel_of function.now target next.now) }
    ensures unpaid { result ≡ false →
        IsPaid (first_of function.now number block.now) (fuel_of function.now number block.now) weight (known now.now)
        (fuel_of function.now target next.now) → ⊥ }
{
    let other: ArrayVec<FormTerm, 8> = fuel_terms(function, target, next);
    is_natural_sum(
        constant_left(block.fuel, next.fuel, weight),
        least_left(function, number, block, now, other.as_slice()),
        taken_by(now, other.as_slice()),
    )
}

/// Whether a block's fuel is at least the weight.
fn is_enough_for(function: &Function, number: usize, block: &Block, weight: u64) -> bool
    requires kept { IsKeptBlock function.now number block.now }
    ensures enough { result ≡ true →
        IsEnough (first_of function.now number block.now) (fuel_of function.now number block.now) weight }
    ensures short { result ≡ false →
        IsEnough (first_of function.now number block.now) (fuel_of function.now number block.now) weight → ⊥ }
{
    let terms: ArrayVec<FormTerm, 8> = fuel_terms(function, number, block);
    is_natural_sum(
        constant_left(block.fuel, 0, weight),
        least_at_start(function, number, block, terms.as_slice()),
        Some(0),
    )
}

/// Whether a block's fuel is at most the budget.
fn is_within(function: &Function, number: usize, block: &Block, budget: u64) -> bool
    requires kept { IsKeptBlock function.now number block.now }
    ensures within { result ≡ true →
        IsWithinBudget (first_of function.now number block.now) (fuel_of function.now number block.now) budget }
    ensures above { result ≡ false →
        IsWithinBudget (first_of function.now number block.now) (fuel_of function.now number block.now) budget → ⊥ }
{
    let terms: ArrayVec<FormTerm, 8> = fuel_terms(function, number, block);
    let opposites = all_negated(terms.as_slice());
    is_natural_sum(
        budget_left(budget, block.fuel),
        least_at_start(function, number, block, opposites.as_slice()),
        Some(0),
    )
}

/// What is left of a budget once the constant of fuel is taken away.
fn budget_left(budget: u64, fuel: i64) -> i128
    ensures value { result ≡ pos budget -ℤ fuel }
    ensures bound { unsigned_abs result ≤ 2 ^ 70 }
{
    i128::from(budget) - i128::from(fuel)
}

/// Whether the fuel of block `b` of function `f`, where so much weight is used, lasts for the fuel of block `target`:
/// for all numbers that the cells of `b` can start with, and all that locations without a form can hold now.
pub fn lasts(image: &Image, f: usize, b: usize, target: usize, weight: u64, now: &State) -> bool
    requires kept { parts_keep image.now ≡ Ok tt }
    requires function { f < length image.now.functions }
    requires block { b < length (function_at image.now f).blocks }
    requires target { target < length (function_at image.now f).blocks }
    requires locations { HasOnlyLocations (known now.now) }
    ensures paid { result ≡ true →
        IsPaid (state_at image.now f b 0) (fuel_at image.now f b) weight (known now.now) (fuel_at image.now f target) }
    ensures unpaid { result ≡ false →
        IsPaid (state_at image.now f b 0) (fuel_at image.now f b) weight (known now.now) (fuel_at image.now f target) →
        ⊥ }
{
    let function = &image.functions()[f];
    let block = &function.blocks.as_slice()[b];
    let next = &function.blocks.as_slice()[target];
    has_empty_range(now) || lasts_for(function, b, block, target, next, weight, now)
}

/// Whether the fuel of block `b` of function `f` is at least the weight, for all numbers that its cells can start with.
pub fn is_enough(image: &Image, f: usize, b: usize, weight: u64) -> bool
    requires kept { parts_keep image.now ≡ Ok tt }
    requires function { f < length image.now.functions }
    requires block { b < length (function_at image.now f).blocks }
    ensures enough { result ≡ true → IsEnough (state_at image.now f b 0) (fuel_at image.now f b) weight }
    ensures short { result ≡ false → IsEnough (state_at image.now f b 0) (fuel_at image.now f b) weight → ⊥ }
{
    let function = &image.functions()[f];
    is_enough_for(function, b, &function.blocks.as_slice()[b], weight)
}

/// Whether the budget of function `f` is at least the fuel of its block `b`, for all numbers that the block's cells can
/// start with.
pub fn is_within_budget(image: &Image, f: usize, b: usize) -> bool
    requires kept { parts_keep image.now ≡ Ok tt }
    requires function { f < length image.now.functions }
    requires block { b < length (function_at image.now f).blocks }
    ensures within { result ≡ true →
        IsWithinBudget (state_at image.now f b 0) (fuel_at image.now f b) (function_at image.now f).budget }
    ensures above { result ≡ false →
        IsWithinBudget (state_at image.now f b 0) (fuel_at image.now f b) (function_at image.now f).budget → ⊥ }
{
    let function = &image.functions()[f];
    is_within(function, b, &function.blocks.as_slice()[b], function.budget)
}

/// Whether a term of the fuel of block `b` of function `f` names no cell of the block.
pub fn names_strange(image: &Image, f: usize, b: usize) -> bool
    requires function { f < length image.now.functions }
    requires block { b < length (function_at image.now f).blocks }
    ensures { result ≡ names_strange image.now f b 0 }
{
    let function = &image.functions()[f];
    names_none(function, b, &function.blocks.as_slice()[b])
}
