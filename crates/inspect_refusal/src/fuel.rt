//! The two sides of the rule of fuel.
ghost use Rattle.std.specs.Prelude.{IfSome};
ghost use Rattle.sbx_known.specs.Courses.{AreWell, IsWell};
ghost use Rattle.sbx_known.specs.Spots.{IsSpot};
ghost use Rattle.inspect_known.specs.Sights.{IsSeen};

use crate::sides::{Edge, push_budget_sides, push_edge_sides, push_end_sides};
use crate::sights::{push_going, push_known};
use crate::values::push_sum;
use inspect_image::Location;
use inspect_known::{Fuel, FuelSides, Sight, after, budget_sides, fuel_sides};
use sbx_domain::State;
use sbx_faults::ends_run;
use sbx_form::FormTerm;
use sbx_image::{Image, Term};
use sbx_known::{Course, Going, Spot, block_at, comes_back, start};
use std::alloc::{AllocError, Global};

/// What is known of the locations of a fuel's terms, where its block begins.
fn push_beginnings(
    out: &mut String,
    terms: &[FormTerm],
    beginning: &State,
) -> Result<(), AllocError> {
    for term in terms {
        push_known(out, term.location, beginning.range(term.location))?;
    }
    Ok(())
}

/// The form of a location over the numbers that its block began with, where it counts one of them.
fn push_form_of(out: &mut String, location: u16, state: &State) -> Result<(), AllocError> {
    let Some(form) = state.form(location) else {
        return Ok(());
    };
    let terms = form.terms::<8>();
    if terms.is_empty() {
        return Ok(());
    }
    push_sum(out, "    which is ", form.constant(), terms.as_slice())?;
    out.push_str(", by what the block began with\n")
}

/// What is known of the locations of a fuel's terms on the way to its block.
fn push_arrived(out: &mut String, terms: &[FormTerm], there: &State) -> Result<(), AllocError> {
    for term in terms {
        push_known(out, term.location, there.range(term.location))?;
        push_form_of(out, term.location, there)?;
    }
    Ok(())
}

/// The fuel of a block, and the turns of its words up to here.
fn push_own(out: &mut String, sides: &FuelSides, beginning: &State) -> Result<(), AllocError> {
    let (weight, terms) = (sides.weight, sides.fuel.terms.as_slice());
    push_sum(out, "\nthe block's fuel is ", sides.fuel.constant, terms)?;
    out.push_str(if terms.is_empty() {
        "\n"
    } else {
        ", where it begins with\n"
    })?;
    push_beginnings(out, terms, beginning)?;
    writeln!(out, "its turns to the end of this word are {weight}")
}

/// A term that the fuel doesn't count, since it names no cell of its block.
fn push_strange(out: &mut String, term: &Term, fuel: &Fuel) -> Result<(), AllocError> {
    for counted in fuel.terms.as_slice() {
        if counted.location == term.location {
            return Ok(());
        }
    }
    let location = Location(term.location);
    writeln!(
        out,
        "a term names {location}, which is no cell of the block   <-"
    )
}

/// The terms of a word's block that name no cell of it.
fn push_strangers(
    out: &mut String,
    image: &Image,
    spot: &Spot,
    fuel: &Fuel,
) -> Result<(), AllocError>
    requires { IsSpot image.now spot.now }
{
    for term in block_at(image, spot.function, spot.block).terms.as_slice() {
        push_strange(out, term, fuel)?;
    }
    Ok(())
}

/// The budget of a function at its first word, beside its first block's fuel.
fn push_budget(
    out: &mut String,
    image: &Image,
    sight: &Sight,
    beginning: &State,
) -> Result<(), AllocError>
    requires { IsSeen image.now sight.now }
{
    let sides = budget_sides(image, sight);
    push_budget_sides(out, sides.budget, &sides.fuel, beginning)
}

/// What is said where a way lacks fuel that leads to its own block or an earlier one.
const LOOP: &str =
    "  this way closes a loop: fuel has to fall by a round's turns, by a term that counts the rounds,\n  \
     whose number is below 0 where they are counted upwards\n";

fn closes_loop(spot: &Spot, going: Going) -> bool {
    matches!(going, Going::To(block) if block <= spot.block)
}

/// A way to another block, whose fuel the block's own has to last for besides its turns.
fn push_edge(
    out: &mut String,
    image: &Image,
    spot: &Spot,
    going: Going,
    edge: &Edge<'_>,
    weight: u64,
) -> Result<(), AllocError>
    requires spot { IsSpot image.now spot.now }
    requires well { IsWell image.now spot.now.function going }
{
    let terms = edge.next.terms.as_slice();
    push_going(out, image, spot.function, going)?;
    push_sum(out, ", whose fuel is ", edge.next.constant, terms)?;
    out.push_str("\n")?;
    push_arrived(out, terms, edge.there)?;
    let is_short = push_edge_sides(out, edge, weight)?;
    if is_short && closes_loop(spot, going) {
        out.push_str(LOOP)
    } else {
        Ok(())
    }
}

/// A way that leads to another block, if it does.
fn push_way(
    out: &mut String,
    image: &Image,
    spot: &Spot,
    course: Option<Course>,
    edge: &Option<Edge<'_>>,
    weight: u64,
) -> Result<(), AllocError>
    requires spot { IsSpot image.now spot.now }
    requires well { IfSome course (λ c. IsWell image.now spot.now.function c.going) }
{
    match (course, edge) {
        (Some(course), Some(edge)) => push_edge(out, image, spot, course.going, edge, weight),
        _ => Ok(()),
    }
}

/// The edge from a block to the one that has the next fuel, if there is one.
fn edge_to<'a>(
    fuel: &'a Fuel,
    beginning: &'a State,
    next: &'a Option<Fuel>,
    there: &'a State,
) -> Option<Edge<'a>> {
    match next {
        Some(next) => Some(Edge {
            fuel,
            beginning,
            next,
            there,
        }),
        None => None,
    }
}

/// What the fuel of the word's block is asked for on each way to another block.
fn push_ways(
    out: &mut String,
    image: &Image,
    there: &Sight,
    sides: &FuelSides,
    beginning: &State,
) -> Result<(), AllocError>
    requires spot { IsSpot image.now there.now.spot }
    requires well { AreWell image.now there.now.spot.function there.now.courses }
{
    let FuelSides {
        fuel,
        weight,
        first,
        second,
    } = sides;
    let Sight { spot, courses, .. } = there;
    let edge = edge_to(fuel, beginning, first, &there.first);
    push_way(out, image, spot, courses.first, &edge, *weight)?;
    let edge = edge_to(fuel, beginning, second, &there.second);
    push_way(out, image, spot, courses.second, &edge, *weight)
}

/// What the fuel of the word's block is asked for at an end of the run or of the function.
fn push_ends(
    out: &mut String,
    sight: &Sight,
    sides: &FuelSides,
    beginning: &State,
) -> Result<(), AllocError> {
    if ends_run(&sight.spot.operation) {
        push_end_sides(out, "\nat the end of the run\n", sides, beginning)?;
    }
    if comes_back(sight.courses.first) {
        push_end_sides(out, "\nback in the caller\n", sides, beginning)
    } else {
        Ok(())
    }
}

/// What the fuel of the word's block is asked for at the word itself: of its terms and of the budget where block and
/// function begin, and of its turns where the run or the function ends.
fn push_here(
    out: &mut String,
    image: &Image,
    sight: &Sight,
    sides: &FuelSides,
    beginning: &State,
) -> Result<(), AllocError>
    requires { IsSeen image.now sight.now }
{
    push_own(out, sides, beginning)?;
    if sight.spot.number == 0 {
        push_strangers(out, image, &sight.spot, &sides.fuel)?;
        if sight.spot.block == 0 {
            push_budget(out, image, sight, beginning)?;
        }
    }
    push_ends(out, sight, sides, beginning)
}

/// The two sides of the rule of fuel at a word, each worked out with the numbers at which the fuel is scarcest; an
/// arrow marks where it doesn't last, and terms that name no cell.
pub(crate) fn push_fuel(
    alloc: Global,
    out: &mut String,
    image: &Image,
    sight: Sight,
) -> Result<(), AllocError>
    requires { IsSeen image.now sight }
{
    let mut beginning = State::new(alloc)?;
    start(image, sight.spot.function, sight.spot.block, &mut beginning);
    let sides = fuel_sides(image, &sight);
    push_here(out, image, &sight, &sides, &beginning)?;
    let there = after(image, sight);
    push_ways(out, image, &there, &sides, &beginning)
}
