//! What an image declares, in the source language's own words.
ghost use Rattle.std.specs.Prelude.{◌≡◌, ◌≤◌, ◌++◌, length, OnOk, string_bytes};
ghost use Rattle.std.specs.List.{flat_map};
ghost use Rattle.sbx_image.specs.Regions.{page_rights, placed};
ghost use Rattle.inspect_image.specs.Images.{block_head, block_lines, block_text, blocks_text, cell_line, depth_line};
ghost use Rattle.inspect_image.specs.Images.{function_head, function_text, functions_text, image_text, kind_text};
ghost use Rattle.inspect_image.specs.Images.{param_line, region_lines, regions_text, result_line, right_text};
ghost use Rattle.inspect_image.specs.Images.{services_line, sizes_lines, term_line};

use crate::names::{Bounds, Location};
use sbx_image::{Block, Cell, Function, Image, Kind, Range, Region, Services, Term, behind};
use std::alloc::AllocError;
use v8_map::DATA_START;

fn push_cells(out: &mut String, cells: &[Cell]) -> Result<(), AllocError>
    ensures { OnOk result (string_bytes out.new ≡ string_bytes out.old ++ flat_map cell_line cells.now) }
{
    for cell in cells {
        let (location, range) = (Location(cell.location), Bounds(cell.range));
        writeln!(out, ".cell {location},{range}")?;
    }
    Ok(())
}

fn push_terms(out: &mut String, terms: &[Term]) -> Result<(), AllocError>
    ensures { OnOk result (string_bytes out.new ≡ string_bytes out.old ++ flat_map term_line terms.now) }
{
    for term in terms {
        let (location, coefficient) = (Location(term.location), term.coefficient);
        writeln!(out, ".term {location},{coefficient}")?;
    }
    Ok(())
}

/// What is known where a block begins, and its fuel.
fn push_block(out: &mut String, block: &Block) -> Result<(), AllocError>
    ensures { OnOk result (string_bytes out.new ≡ string_bytes out.old ++ block_lines block.now) }
{
    let fuel = block.fuel;
    push_cells(out, block.cells.as_slice())?;
    writeln!(out, ".fuel {fuel}")?;
    push_terms(out, block.terms.as_slice())
}

/// The line that begins a block which isn't its function's first, with its address above.
fn push_block_head(
    out: &mut String,
    function: usize,
    number: usize,
    block: &Block,
) -> Result<(), AllocError>
    ensures { OnOk result (string_bytes out.new ≡ string_bytes out.old ++ block_head function number block.now) }
{
    let address = block.address;
    writeln!(out, "\n! {address:08X}\n.block f{function}_b{number}")
}

/// A block by its number; the first one begins with its function.
pub fn push_numbered(
    out: &mut String,
    function: usize,
    number: usize,
    block: &Block,
) -> Result<(), AllocError>
    ensures { OnOk result (string_bytes out.new ≡ string_bytes out.old ++ block_text function number block.now) }
{
    if number > 0 {
        push_block_head(out, function, number, block)?;
    }
    push_block(out, block)
}

fn push_blocks(out: &mut String, function: usize, blocks: &[Block]) -> Result<(), AllocError>
    ensures { OnOk result (string_bytes out.new ≡ string_bytes out.old ++ blocks_text function blocks.now) }
{
    let mut number = 0;
    for block in blocks {
        push_numbered(out, function, number, block)?;
        number += 1;
    }
    Ok(())
}

/// The word for a function's kind.
pub fn kind_text(kind: Kind) -> &'static str
    ensures { result.now ≡ kind_text kind }
{
    match kind {
        Kind::Leaf => "leaf",
        Kind::Framed => "framed",
    }
}

/// The line that begins a function, with its address above.
pub fn push_function_head(
    out: &mut String,
    number: usize,
    function: &Function,
) -> Result<(), AllocError>
    ensures { OnOk result (string_bytes out.new ≡ string_bytes out.old ++ function_head number function.now) }
{
    let Function {
        kind,
        entry,
        frame,
        stack_room,
        budget,
        ..
    } = function;
    let kind = kind_text(*kind);
    writeln!(
        out,
        "\n! {entry:08X}\n.function f{number},{kind},{frame},{stack_room},{budget}"
    )
}

/// The line of a function's depth in an image of that version.
pub fn push_depth(out: &mut String, version: u16, depth: u16) -> Result<(), AllocError>
    ensures { OnOk result (string_bytes out.new ≡ string_bytes out.old ++ depth_line version depth) }
{
    if version == 3 {
        writeln!(out, ".depth {depth}")
    } else {
        Ok(())
    }
}

pub fn push_params(out: &mut String, params: &[Range]) -> Result<(), AllocError>
    ensures { OnOk result (string_bytes out.new ≡ string_bytes out.old ++ flat_map param_line params.now) }
{
    for range in params {
        let range = Bounds(*range);
        writeln!(out, ".param {range}")?;
    }
    Ok(())
}

pub fn push_results(out: &mut String, results: &[Range]) -> Result<(), AllocError>
    ensures { OnOk result (string_bytes out.new ≡ string_bytes out.old ++ flat_map result_line results.now) }
{
    for range in results {
        let range = Bounds(*range);
        writeln!(out, ".result {range}")?;
    }
    Ok(())
}

fn push_function(
    out: &mut String,
    version: u16,
    number: usize,
    function: &Function,
) -> Result<(), AllocError>
    ensures { OnOk result (string_bytes out.new ≡ string_bytes out.old ++ function_text version number function.now) }
{
    push_function_head(out, number, function)?;
    push_depth(out, version, function.depth)?;
    push_params(out, function.params.as_slice())?;
    push_results(out, function.results.as_slice())?;
    push_blocks(out, number, function.blocks.as_slice())
}

/// The functions of an image of that version.
fn push_functions(out: &mut String, version: u16, functions: &[Function]) -> Result<(), AllocError>
    ensures { OnOk result (string_bytes out.new ≡ string_bytes out.old ++ functions_text version functions.now) }
{
    let mut number = 0;
    for function in functions {
        push_function(out, version, number, function)?;
        number += 1;
    }
    Ok(())
}

/// The line of the services that an image declares, if it declares some.
fn services_line(services: Services) -> &'static str
    ensures { result.now ≡ services_line services.0 }
{
    match services.0 {
        0 => "",
        1 => ".services exit\n",
        2 => ".services get\n",
        3 => ".services exit,get\n",
        4 => ".services put\n",
        5 => ".services exit,put\n",
        6 => ".services get,put\n",
        _ => ".services exit,get,put\n",
    }
}

fn push_sizes(out: &mut String, pages: u16, words: u32, bytes: u32) -> Result<(), AllocError>
    ensures { OnOk result (string_bytes out.new ≡ string_bytes out.old ++ sizes_lines pages words bytes) }
{
    writeln!(
        out,
        ".stack {pages}\n! words of code: {words}, bytes of data: {bytes}"
    )
}

fn right_name(writable: bool) -> &'static str
    ensures { result.now ≡ right_text writable }
{
    if writable { "rw" } else { "ro" }
}

/// A region that begins at an address.
fn push_region(out: &mut String, start: u32, region: &Region) -> Result<(), AllocError>
    ensures { OnOk result
        (string_bytes out.new ≡
        string_bytes out.old
        ++ region_lines (record { address = start; bytes = region.now.bytes; writable = region.now.writable })) }
{
    let bytes = region.bytes.len();
    let right = right_name(region.writable);
    writeln!(out, "\n! {start:08X}, bytes: {bytes}\n.region {right}")
}

fn push_each_region(out: &mut String, regions: &[Region]) -> Result<(), AllocError>
    requires { length (page_rights regions.now) ≤ 64 }
    ensures { OnOk result (string_bytes out.new ≡ string_bytes out.old ++ flat_map region_lines (placed regions.now)) }
{
    let mut start = DATA_START;
    for region in regions {
        push_region(out, start, region)?;
        start = behind(start, region);
    }
    Ok(())
}

/// The regions of an image of that version.
fn push_regions(out: &mut String, version: u16, regions: &[Region]) -> Result<(), AllocError>
    requires { length (page_rights regions.now) ≤ 64 }
    ensures { OnOk result (string_bytes out.new ≡ string_bytes out.old ++ regions_text version regions.now) }
{
    if version == 1 {
        Ok(())
    } else {
        push_each_region(out, regions)
    }
}

/// What an image declares, as its source would: services, pages of stack, the regions of version 2 or 3, and of each
/// function kind, frame, stack room, budget, in version 3 its depth, parameters, results and blocks, each with its
/// cells and fuel. Names aren't kept in an image: `f2` is function 2, and `f2_b3` its block 3, both counted from 0.
/// Addresses and sizes stand in comments.
pub fn push_image(out: &mut String, image: &Image) -> Result<(), AllocError>
    ensures { OnOk result (string_bytes out.new ≡ string_bytes out.old ++ image_text image.now) }
{
    let version = image.version();
    out.push_str(services_line(image.services()))?;
    push_sizes(
        out,
        image.stack_pages(),
        image.word_count(),
        image.byte_count(),
    )?;
    push_regions(out, version, image.regions())?;
    push_functions(out, version, image.functions())?;
    Ok(())
}
