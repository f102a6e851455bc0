//! What a block, a function or a caller begins with, beside what is known after the word that leads there.
ghost use Rattle.std.specs.Prelude.{◌<◌, IfSome, length};
ghost use Rattle.inspect_known.specs.Sights.{IsSeen};
ghost use Rattle.sbx_known.specs.Courses.{AreWell, IsWell};
ghost use Rattle.sbx_known.specs.Spots.{IsSpot};

use crate::mends::push_mend;
use crate::values::Known;
use inspect_image::{Bounds, Location};
use inspect_known::Sight;
use sbx_domain::State;
use sbx_image::{Cell, Image, Range};
use sbx_known::{Course, Courses, Going, Spot, block_at, function_at, perform_on, return_to};
use sbx_range::is_within;
use std::alloc::AllocError;

/// Whether a location is known to hold what a declaration says.
fn mark(known: Option<Range>, declared: Range) -> &'static str {
    match known {
        Some(range) if is_within(range, declared) => "",
        _ => "   <-",
    }
}

/// A location that a declaration names, beside what is known of it; an arrow marks one that isn't within, and below
/// stands what mends it. `is_back` says whether the way there leads to its own block or an earlier one.
fn push_declared(
    out: &mut String,
    location: u16,
    declared: Range,
    state: &State,
    is_back: bool,
) -> Result<(), AllocError> {
    let known = state.range(location);
    let mark = mark(known, declared);
    let (name, bounds, known) = (Location(location), Bounds(declared), Known(known));
    writeln!(
        out,
        "  {name} is declared as {bounds}, and is {known}{mark}"
    )?;
    push_mend(out, location, declared, state, is_back)
}

/// The cells of the block at an address, if it has any. `is_back` says whether the way there leads to its own block or
/// an earlier one.
fn push_cells(
    out: &mut String,
    address: u32,
    cells: &[Cell],
    state: &State,
    is_back: bool,
) -> Result<(), AllocError> {
    if cells.is_empty() {
        return Ok(());
    }
    writeln!(out, "\nafter it, where the block at {address:08X} begins:")?;
    for cell in cells {
        push_declared(out, cell.location, cell.range, state, is_back)?;
    }
    Ok(())
}

/// Parameters or results, which stand in %o0 and on, under a heading, if there are any.
fn push_outs(
    out: &mut String,
    heading: &str,
    ranges: &[Range],
    state: &State,
) -> Result<(), AllocError> {
    if ranges.is_empty() {
        return Ok(());
    }
    writeln!(out, "\nafter it, {heading}:")?;
    let mut location = 8u16;
    for range in ranges {
        push_declared(out, location, *range, state, false)?;
        location = location.wrapping_add(1);
    }
    Ok(())
}

/// What a block begins with, beside what is known: its cells, or the parameters of the function that it is the first
/// block of.
fn push_begins(
    out: &mut String,
    image: &Image,
    spot: &Spot,
    block: usize,
    after: &State,
) -> Result<(), AllocError>
    requires spot { IsSpot image.now spot.now }
    requires well { IsWell image.now spot.now.function (Going.To block) }
{
    if block == 0 {
        let params = function_at(image, spot.function).params.as_slice();
        return push_outs(out, "where the function begins", params, after);
    }
    let declared = block_at(image, spot.function, block);
    let is_back = block <= spot.block;
    push_cells(
        out,
        declared.address,
        declared.cells.as_slice(),
        after,
        is_back,
    )
}

/// What a way leads to, beside what is known after the word: what another block begins with, or back in the caller the
/// function's results.
fn push_way(
    out: &mut String,
    image: &Image,
    spot: &Spot,
    course: Option<Course>,
    after: &State,
) -> Result<(), AllocError>
    requires spot { IsSpot image.now spot.now }
    requires well { IfSome course (λ c. IsWell image.now spot.now.function c.going) }
{
    let Some(course) = course else {
        return Ok(());
    };
    match course.going {
        Going::To(block) => push_begins(out, image, spot, block, after),
        Going::Back => {
            let results = function_at(image, spot.function).results.as_slice();
            push_outs(out, "back in the caller", results, after)
        }
        _ => Ok(()),
    }
}

/// The parameters of the function that was called before a slot, beside what is known after the slot.
fn push_call(out: &mut String, image: &Image, spot: &Spot, state: &State) -> Result<(), AllocError>
    requires { IsSpot image.now spot.now }
{
    match spot.called {
        Some(callee) => {
            let params = function_at(image, callee).params.as_slice();
            push_outs(
                out,
                "where the function that is called begins",
                params,
                state,
            )
        }
        None => Ok(()),
    }
}

/// What each way leads to, beside what is known after the word there.
fn push_ways(
    out: &mut String,
    image: &Image,
    spot: &Spot,
    courses: Courses,
    first: &State,
    second: &State,
) -> Result<(), AllocError>
    requires spot { IsSpot image.now spot.now }
    requires well { AreWell image.now spot.now.function courses }
{
    push_way(out, image, spot, courses.first, first)?;
    push_way(out, image, spot, courses.second, second)
}

/// The parameters, cells or results that the word's ways lead to, beside what is known after the word there.
pub(crate) fn push_arrivals(out: &mut String, image: &Image, sight: Sight) -> Result<(), AllocError>
    requires { IsSeen image.now sight }
{
    let Sight {
        spot,
        weight: _,
        courses,
        mut first,
        mut second,
    } = sight;
    perform_on(image, &spot, &courses, &mut first, &mut second);
    push_call(out, image, &spot, &first)?;
    return_to(image, &spot, &mut first);
    push_ways(out, image, &spot, courses, &first, &second)
}
