//! The functions of lines without faults, each of its own lines.
ghost use Rattle.std.specs.Prelude.{◌≡◌, ◌++◌, [], ◌∷◌, List, IfOk};
ghost use Rattle.sbx_asm.specs.Items.{Item, each, up_to, ends_block};
ghost use Rattle.sbx_asm.specs.Addresses.{code_address};
ghost use Rattle.sbx_asm.specs.Kept.{place_at};
ghost use Rattle.sbx_asm.specs.Images.{block_with, block_at, function_at};

use crate::annotations::{block_with, signature_of};
use crate::own::{up_to_block, up_to_function};
use crate::place::LocationCounter;
use crate::reading::Line;
use sbx_directives::{Directive, Statement};
use sbx_image::{Block, Function, Items};
use std::alloc::{AllocError, Global};

/// Adds the block that begins at an address and has the next lines.
fn push_block(
    blocks: &mut Vec<Block>,
    alloc: Global,
    address: u32,
    after: &[Line<'_, '_>],
) -> Result<(), AllocError>
    ensures { IfOk result
        (λ _. blocks.new.items ≡ blocks.old.items ++ block_with address (up_to ends_block after.now) ∷ []) }
{
    blocks.push(block_with(alloc, address, up_to_block(after))?)?;
    Ok(())
}

/// Adds the block that a line begins at a place, if it is a `.block`.
fn push_named_block(
    blocks: &mut Vec<Block>,
    alloc: Global,
    line: &Line<'_, '_>,
    place: LocationCounter,
    after: &[Line<'_, '_>],
) -> Result<(), AllocError>
    ensures { IfOk result (λ _. (before : List Item) → place ≡ place_at before →
        blocks.new.items ≡ blocks.old.items ++ block_at before line.now after.now) }
{
    if let Ok(Statement::Directive(Directive::Block(_))) = line.said() {
        push_block(blocks, alloc, place.next_word, after)
    } else {
        Ok(())
    }
}

/// The blocks of a function, which begins with a line at a place and has some more: the first begins with the function.
fn blocks_of(
    alloc: Global,
    first: &Line<'_, '_>,
    place: LocationCounter,
    own: &[Line<'_, '_>],
) -> Result<Items<Block>, AllocError>
    ensures { IfOk result (λ blocks. (before : List Item) → place ≡ place_at before →
        blocks ≡ block_with (code_address before) (up_to ends_block own.now)
        ∷ each block_at (first.now ∷ before) own.now) }
{
    let mut blocks = Vec::new(alloc);
    push_block(&mut blocks, alloc, place.next_word, own)?;
    let mut here = place.after(first);
    for (at, line) in own.iter().enumerate() {
        push_named_block(&mut blocks, alloc, line, here, &own[at + 1..])?;
        here = here.after(line);
    }
    Ok(Items::new(blocks))
}

/// Adds the function that a line begins at a place, if it is a `.function`.
fn push_function(
    functions: &mut Vec<Function>,
    alloc: Global,
    line: &Line<'_, '_>,
    place: LocationCounter,
    after: &[Line<'_, '_>],
) -> Result<(), AllocError>
    ensures { IfOk result (λ _. (before : List Item) → place ≡ place_at before →
        functions.new.items ≡ functions.old.items ++ function_at before line.now after.now) }
{
    if let Ok(
        Statement::Directive(
            Directive::Function {
                name: _,
                kind,
                frame,
                stack_room,
                budget,
            },
        ),
    ) = line.said()
    {
        let own = up_to_function(after);
        let blocks = blocks_of(alloc, line, place, own)?;
        let signature = signature_of(alloc, own)?;
        functions.push(Function {
            kind,
            params: signature.params,
            results: signature.results,
            entry: place.next_word,
            frame,
            stack_room,
            budget,
            depth: signature.depth,
            blocks,
        })?;
    }
    Ok(())
}

/// The functions of all lines.
pub fn functions_of(alloc: Global, lines: &[Line<'_, '_>]) -> Result<Items<Function>, AllocError>
    ensures { IfOk result (λ functions. functions ≡ each function_at [] lines.now) }
{
    let mut functions = Vec::new(alloc);
    let mut here = LocationCounter::start();
    for (at, line) in lines.iter().enumerate() {
        push_function(&mut functions, alloc, line, here, &lines[at + 1..])?;
        here = here.after(line);
    }
    Ok(Items::new(functions))
}
