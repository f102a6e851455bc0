//! Where a branch or a call goes that it may not go to.
ghost use Rattle.sbx_known.specs.Spots.{IsSpot};

use inspect_known::find_word;
use sbx_image::Image;
use sbx_known::{Spot, block_at};
use std::alloc::AllocError;
use v8_map::CODE_START;
use v8_meaning::{Operation, target};

/// The function whose words lie about an address of the code, by number.
fn holder_of(image: &Image, address: u32) -> Option<usize> {
    let end = CODE_START + 4 * image.word_count();
    let mut found = None;
    for (number, function) in image.functions().iter().enumerate() {
        if function.entry <= address && address < end {
            found = Some(number);
        }
    }
    found
}

/// What stands at an address outside of a function.
fn push_outside(out: &mut String, image: &Image, address: u32) -> Result<(), AllocError> {
    match holder_of(image, address) {
        Some(number) => writeln!(out, "it goes to {address:08X}, a word of function {number}"),
        None => writeln!(out, "it goes to {address:08X}, where no code is"),
    }
}

/// Pushes what stands where a branch goes that isn't the beginning of a block, or is that of the first one.
fn push_branch(out: &mut String, image: &Image, spot: &Spot, address: u32) -> Result<(), AllocError>
    requires { IsSpot image.now spot.now }
{
    match find_word(image, spot.function, address) {
        Some((0, 0)) => writeln!(
            out,
            "it goes to {address:08X}, the function's first block, which begins with parameters alone:\n\
             begin a block behind that one's first word, with the cells that hold there"
        ),
        Some((block, _)) => {
            let begins = block_at(image, spot.function, block).address;
            writeln!(
                out,
                "it goes to {address:08X}, into the block that begins at {begins:08X}:\n\
                 begin a block there, with the cells that hold"
            )
        }
        None => {
            push_outside(out, image, address)?;
            out.push_str("a branch stays in its function\n")
        }
    }
}

/// Pushes what stands where a call goes that isn't the entry of a function behind the caller.
fn push_call(out: &mut String, image: &Image, spot: &Spot, address: u32) -> Result<(), AllocError> {
    match spot.callee {
        Some(callee) if callee == spot.function => out.push_str(
            "it goes to its own function: a loop does what a call of itself does\n",
        ),
        Some(callee) => writeln!(
            out,
            "it goes to function {callee}, which stands before this one: put a callee behind its callers"
        ),
        None => {
            push_outside(out, image, address)?;
            out.push_str("a call goes to the first word of a function\n")
        }
    }
}

/// Pushes where a branch or a call goes, and where it may.
pub(crate) fn push_target(
    out: &mut String,
    image: &Image,
    spot: &Spot,
    address: u32,
) -> Result<(), AllocError>
    requires { IsSpot image.now spot.now }
{
    match &spot.operation {
        Operation::BranchOnCondition(branch) => {
            push_branch(out, image, spot, target(address, branch.displacement))
        }
        Operation::Call(displacement) => {
            push_call(out, image, spot, target(address, *displacement))
        }
        _ => Ok(()),
    }
}
