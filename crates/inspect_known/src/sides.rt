//! The two sides of what fuel, a budget, stack room and call depth are asked for.
ghost use Rattle.std.specs.Prelude.{◌≡◌, ◌<◌, ◌+◌, ◌*◌, IfSome, Ok, length, suc};
ghost use Rattle.sbx_image.specs.Rules.{parts_keep};
ghost use Rattle.sbx_known.specs.Courses.{IsWell};
ghost use Rattle.sbx_known.specs.Spots.{IsBlock, IsSpot};
ghost use Rattle.sbx_image.specs.Order.{function_at};
ghost use Rattle.sbx_rules.specs.Places.{callee_at};
ghost use Rattle.sbx_rules.specs.Rules.{room_of_callee};
ghost use Rattle.sbx_rules.specs.Ways.{fuel_at, weight_to};
ghost use Rattle.inspect_known.specs.Sides.{IsNextFuel, depth_for, form_of, own_depth};
ghost use Rattle.inspect_known.specs.Sights.{IsSeen};

use crate::known::Sight;
use arrayvec::ArrayVec;
use sbx_form::FormTerm;
use sbx_fuel::fuel_terms;
use sbx_image::{Image, Kind};
use sbx_known::{Course, Going, Spot, block_at, function_at};

/// Turns: a constant, and so many for each 1 of the number with which a location begins.
#[derive(Drop)]
pub struct Fuel {
    pub constant: i64,
    pub terms: ArrayVec<FormTerm, 8>,
}

/// What fuel is asked for at a word: the fuel of its block has to be at least the weight, and on a way that leads to a
/// block the weight and that block's fuel.
#[derive(Drop)]
pub struct FuelSides {
    /// Of the word's own block, over the numbers with which that begins.
    pub fuel: Fuel,
    /// From the block's first word to the end of this one, in turns.
    pub weight: u64,
    /// Of the block that the first way leads to, over the numbers after the word; none where it leads to none.
    pub first: Option<Fuel>,
    /// The same of the second way.
    pub second: Option<Fuel>,
}

/// What a budget is asked for: it has to be at least the first block's fuel. In turns.
#[derive(Drop)]
pub struct BudgetSides {
    pub budget: u64,
    pub fuel: Fuel,
}

/// What stack room is asked for: there has to be at least what is needed. In bytes.
#[derive(Clone, Copy)]
pub struct RoomSides {
    pub room: u64,
    pub needed: u64,
}

/// What call depth is asked for: there has to be declared at least what is needed. In frames.
#[derive(Clone, Copy)]
pub struct DepthSides {
    pub depth: u32,
    pub needed: u32,
}

/// The fuel with which a block begins, as the rules count it.
pub fn fuel_of(image: &Image, function: usize, block: usize) -> Fuel
    requires keeps { parts_keep image.now ≡ Ok tt }
    requires block { IsBlock image.now function block }
    ensures { form_of result ≡ fuel_at image.now function block }
{
    let declared = block_at(image, function, block);
    Fuel {
        constant: declared.fuel,
        terms: fuel_terms(function_at(image, function), block, declared),
    }
}

/// The fuel of the block that a way leads to, if there is such a way, and it leads to one.
fn next_fuel(image: &Image, function: usize, course: Option<Course>) -> Option<Fuel>
    requires keeps { parts_keep image.now ≡ Ok tt }
    requires function { function < length image.now.functions }
    requires well { IfSome course (λ c. IsWell image.now function c.going) }
    ensures { IsNextFuel image.now function course result }
{
    match course {
        Some(
            Course {
                going: Going::To(target),
                ..
            },
        ) => Some(fuel_of(image, function, target)),
        _ => None,
    }
}

/// The sides of the rule of fuel at a word.
pub fn fuel_sides(image: &Image, sight: &Sight) -> FuelSides
    requires { IsSeen image.now sight.now }
    ensures fuel { form_of result.fuel ≡ fuel_at image.now sight.now.spot.function sight.now.spot.block }
    ensures weight { result.weight ≡
        weight_to image.now sight.now.spot.function sight.now.spot.block (suc sight.now.spot.number) }
    ensures first { IsNextFuel image.now sight.now.spot.function sight.now.courses.first result.first }
    ensures second { IsNextFuel image.now sight.now.spot.function sight.now.courses.second result.second }
{
    let function = sight.spot.function;
    FuelSides {
        fuel: fuel_of(image, function, sight.spot.block),
        weight: sight.weight,
        first: next_fuel(image, function, sight.courses.first),
        second: next_fuel(image, function, sight.courses.second),
    }
}

/// The sides of the rule of fuel at the entry of a word's function.
pub fn budget_sides(image: &Image, sight: &Sight) -> BudgetSides
    requires { IsSeen image.now sight.now }
    ensures budget { result.budget ≡ (function_at image.now sight.now.spot.function).budget }
    ensures fuel { form_of result.fuel ≡ fuel_at image.now sight.now.spot.function 0 }
{
    let function = sight.spot.function;
    BudgetSides {
        budget: function_at(image, function).budget,
        fuel: fuel_of(image, function, 0),
    }
}

/// The sides of the rule of stack room at the entry of a word's function: its room against its frame.
pub fn entry_room(image: &Image, sight: &Sight) -> RoomSides
    requires { IsSeen image.now sight.now }
    ensures room { result.room ≡ (function_at image.now sight.now.spot.function).stack_room }
    ensures needed { result.needed ≡ (function_at image.now sight.now.spot.function).frame }
{
    let function = function_at(image, sight.spot.function);
    RoomSides {
        room: u64::from(function.stack_room),
        needed: u64::from(function.frame),
    }
}

/// The sides of the rule of stack room at the entry of function 0, where a word's function is that: the stack against
/// the function's room and 64 bytes.
pub fn stack_room(image: &Image, sight: &Sight) -> RoomSides
    requires { IsSeen image.now sight.now }
    ensures room { result.room ≡ 4096 * image.now.stack_pages }
    ensures needed { result.needed ≡ (function_at image.now sight.now.spot.function).stack_room + 64 }
{
    let function = function_at(image, sight.spot.function);
    RoomSides {
        room: 4_096 * u64::from(image.stack_pages()),
        needed: sum(function.stack_room, 64),
    }
}

fn sum(bytes: u32, more: u32) -> u64
    ensures { result ≡ bytes + more }
{
    u64::from(bytes) + u64::from(more)
}

fn room_of_callee(image: &Image, spot: &Spot) -> u32
    requires { IsSpot image.now spot.now }
    ensures { result ≡ room_of_callee image.now spot.now.function spot.now.block spot.now.number spot.now.callee }
{
    match spot.callee {
        Some(callee) => function_at(image, callee).stack_room,
        None => 0,
    }
}

/// The sides of the rule of stack room at a word that calls: its function's room against the frame and the callee's
/// room.
pub fn call_room(image: &Image, sight: &Sight) -> RoomSides
    requires { IsSeen image.now sight.now }
    ensures room { result.room ≡ (function_at image.now sight.now.spot.function).stack_room }
    ensures needed { result.needed ≡ (function_at image.now sight.now.spot.function).frame
        + room_of_callee image.now sight.now.spot.function sight.now.spot.block sight.now.spot.number (callee_at image.now sight.now.spot.function sight.now.spot.block sight.now.spot.number) }
{
    let function = function_at(image, sight.spot.function);
    RoomSides {
        room: u64::from(function.stack_room),
        needed: sum(function.frame, room_of_callee(image, &sight.spot)),
    }
}

/// The sides of the rule of call depth at the entry of a word's function: what it declares against its own frame.
pub fn entry_depth(image: &Image, sight: &Sight) -> DepthSides
    requires { IsSeen image.now sight.now }
    ensures depth { result.depth ≡ (function_at image.now sight.now.spot.function).depth }
    ensures needed { result.needed ≡ own_depth (function_at image.now sight.now.spot.function).kind }
{
    let function = function_at(image, sight.spot.function);
    DepthSides {
        depth: u32::from(function.depth),
        needed: match function.kind {
            Kind::Framed => 1,
            Kind::Leaf => 0,
        },
    }
}

fn depth_for(image: &Image, spot: &Spot) -> u32
    requires { IsSpot image.now spot.now }
    ensures { result ≡ depth_for image.now spot.now.callee }
{
    match spot.callee {
        Some(callee) => u32::from(function_at(image, callee).depth) + 1,
        None => 0,
    }
}

/// The sides of the rule of call depth at a word that calls: what its function declares against 1 more than the callee
/// does.
pub fn call_depth(image: &Image, sight: &Sight) -> DepthSides
    requires { IsSeen image.now sight.now }
    ensures depth { result.depth ≡ (function_at image.now sight.now.spot.function).depth }
    ensures needed { result.needed ≡
        depth_for image.now (callee_at image.now sight.now.spot.function sight.now.spot.block sight.now.spot.number) }
{
    let function = function_at(image, sight.spot.function);
    DepthSides {
        depth: u32::from(function.depth),
        needed: depth_for(image, &sight.spot),
    }
}
