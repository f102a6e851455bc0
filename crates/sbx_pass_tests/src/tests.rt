//! The first fault of whole images, block by block, against the verdicts of another program.
ghost use Rattle.std.specs.Prelude.{◌≡◌, IfOk, Ok};
ghost use Rattle.sbx_image.specs.Rules.{parts_keep};

use crate::rows::{ROWS, Row};
use sbx_domain::State;
use sbx_image::{Image, parse};
use sbx_known::{address_of, function_at};
use sbx_pass::first_fault_in_block;
use std::alloc::Global;
use std::process::Abort;
use std::test::Fail;

/// An image of these bytes, which is known to keep the limits of its format.
fn image_of(alloc: Global, bytes: &[u8]) -> Result<Image, Fail>
    ensures { IfOk result (λ image. parts_keep image ≡ Ok tt) }
{
    match Image::from_parts(parse(alloc, bytes)?.into_parts()) {
        Ok(image) => Ok(image),
        Err((_, fault)) => Err(fault)?,
    }
}

/// The function, the address and the rule of the first fault.
fn first_fault(image: &Image, here: &mut State, other: &mut State) -> Option<(usize, u32, u8)>
    requires { parts_keep image.now ≡ Ok tt }
{
    for function in 0..image.functions().len() {
        for block in 0..function_at(image, function).blocks.len() {
            if let Some((word, cause)) = first_fault_in_block(image, function, block, here, other) {
                let address = address_of(image, function, block, word);
                return Some((function, address, cause.number()));
            }
        }
    }
    None
}

/// Whether a row's verdict is the one that is told.
fn is_told(
    alloc: Global,
    row: &Row<'_>,
    here: &mut State,
    other: &mut State,
) -> Result<bool, Fail> {
    let image = image_of(alloc, row.image)?;
    Ok(first_fault(&image, here, other) == row.told)
}

/// The rows. A function that names a table costs the prover by all that stands in it, so this one does nothing else.
fn all_rows() -> &'static [Row<'static>] {
    &ROWS
}

/// Asserts that each row's verdict is.
fn are_told(
    rt: &impl Abort,
    alloc: Global,
    rows: &[Row<'_>],
    here: &mut State,
    other: &mut State,
) -> Result<(), Fail> {
    for number in 0..rows.len() {
        assert!(rt; is_told(alloc, &rows[number], here, other)?, "row {number}");
    }
    Ok(())
}

#[test]
fn verdicts_are_these(rt: HostRuntime) -> Result<(), Fail> {
    let alloc = rt.alloc();
    let mut here = State::new(alloc)?;
    let mut other = State::new(alloc)?;
    are_told(&rt, alloc, all_rows(), &mut here, &mut other)
}
