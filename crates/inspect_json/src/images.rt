//! What an image declares, as an object.
ghost use Rattle.std.specs.Prelude.{◌≡◌, ◌≤◌, codes, length, map, IfOk, OnOk};
ghost use Rattle.json.specs.Json.{boolean};
ghost use Rattle.json.specs.Tree.{json_tokens};
ghost use Rattle.sbx_image.specs.Regions.{page_rights, placed};
ghost use Rattle.inspect_json.specs.Objects.{Adds, IsLine, array_of, member_tokens, signed, unsigned};
ghost use Rattle.inspect_json.specs.Images.{block_json, cell_json, function_json, image_json, is_framed, location_json};
ghost use Rattle.inspect_json.specs.Images.{number_tokens, range_json, range_tokens, region_json, services_json};
ghost use Rattle.inspect_json.specs.Images.{size_tokens, term_json};

use crate::lists::{Told, put_items, put_member};
use crate::members::{
    close_array, close_object, line_of, new_line, open_array, open_object, put_byte, put_flag,
    put_half, put_key, put_number, put_signed, put_signed_word, put_text, put_word,
};
use inspect_image::Location;
use json::Writer;
use sbx_image::{Block, Cell, Function, Image, Kind, Range, Region, Services, Term, behind};
use std::alloc::{AllocError, Global};
use v8_map::DATA_START;

/// The member that names a location.
fn put_location(alloc: Global, out: &mut Writer, location: u16) -> Result<(), AllocError>
    ensures { OnOk result (Adds out.old out.new (member_tokens (codes "location") (location_json location))) }
{
    let location = Location(location);
    let name = format!(in alloc; "{location}")?;
    put_text(out, "location", name.as_str())
}

fn put_low(out: &mut Writer, range: Range) -> Result<(), AllocError>
    ensures { OnOk result (Adds out.old out.new (member_tokens (codes "low") (signed range.lo))) }
{
    put_signed_word(out, "low", range.lo)
}

fn put_high(out: &mut Writer, range: Range) -> Result<(), AllocError>
    ensures { OnOk result (Adds out.old out.new (member_tokens (codes "high") (signed range.hi))) }
{
    put_signed_word(out, "high", range.hi)
}

/// The members of a range.
fn put_range(out: &mut Writer, range: Range) -> Result<(), AllocError>
    ensures { OnOk result (Adds out.old out.new (range_tokens range)) }
{
    put_low(out, range)?;
    put_high(out, range)?;
    put_byte(out, "alignment", range.alignment)
}

impl Told for Range {
    ghost told = { range_json };

    fn put(&self, _alloc: Global, out: &mut Writer) -> Result<(), AllocError> {
        open_object(out)?;
        put_range(out, *self)?;
        close_object(out)
    }
}

impl Told for Cell {
    ghost told = { cell_json };

    fn put(&self, alloc: Global, out: &mut Writer) -> Result<(), AllocError> {
        open_object(out)?;
        put_location(alloc, out, self.location)?;
        put_range(out, self.range)?;
        close_object(out)
    }
}

fn put_coefficient(out: &mut Writer, term: &Term) -> Result<(), AllocError>
    ensures { OnOk result (Adds out.old out.new (member_tokens (codes "coefficient") (signed term.now.coefficient))) }
{
    put_signed_word(out, "coefficient", term.coefficient)
}

impl Told for Term {
    ghost told = { term_json };

    fn put(&self, alloc: Global, out: &mut Writer) -> Result<(), AllocError> {
        open_object(out)?;
        put_location(alloc, out, self.location)?;
        put_coefficient(out, self)?;
        close_object(out)
    }
}

fn put_fuel(out: &mut Writer, block: &Block) -> Result<(), AllocError>
    ensures { OnOk result (Adds out.old out.new (member_tokens (codes "fuel") (signed block.now.fuel))) }
{
    put_signed(out, "fuel", block.fuel)
}

impl Told for Block {
    ghost told = { block_json };

    fn put(&self, alloc: Global, out: &mut Writer) -> Result<(), AllocError> {
        open_object(out)?;
        put_word(out, "address", self.address)?;
        put_fuel(out, self)?;
        put_items(alloc, out, "cells", &self.cells)?;
        put_items(alloc, out, "terms", &self.terms)?;
        close_object(out)
    }
}

/// Whether a function has a window of its own.
fn is_framed(kind: Kind) -> bool
    ensures { result ≡ is_framed kind }
{
    match kind {
        Kind::Leaf => false,
        Kind::Framed => true,
    }
}

fn put_kind(out: &mut Writer, function: &Function) -> Result<(), AllocError>
    ensures { OnOk result (Adds out.old out.new (member_tokens (codes "framed") (boolean (is_framed function.now.kind)))) }
{
    put_flag(out, "framed", is_framed(function.kind))
}

/// The members of a function that are numbers, behind the word for its kind.
fn put_numbers(out: &mut Writer, function: &Function) -> Result<(), AllocError>
    ensures { OnOk result (Adds out.old out.new (number_tokens function.now)) }
{
    put_word(out, "address", function.entry)?;
    put_kind(out, function)?;
    put_word(out, "frame", function.frame)?;
    put_word(out, "room", function.stack_room)?;
    put_number(out, "budget", function.budget)?;
    put_half(out, "depth", function.depth)
}

impl Told for Function {
    ghost told = { function_json };

    fn put(&self, alloc: Global, out: &mut Writer) -> Result<(), AllocError> {
        open_object(out)?;
        put_numbers(out, self)?;
        put_items(alloc, out, "params", &self.params)?;
        put_items(alloc, out, "results", &self.results)?;
        put_items(alloc, out, "blocks", &self.blocks)?;
        close_object(out)
    }
}

fn put_byte_count(out: &mut Writer, region: &Region) -> Result<(), AllocError>
    ensures { OnOk result (Adds out.old out.new (member_tokens (codes "bytes") (unsigned (length region.now.bytes)))) }
{
    put_number(out, "bytes", region.bytes.len() as u64)
}

/// A region that begins at an address.
fn put_region(out: &mut Writer, start: u32, region: &Region) -> Result<(), AllocError>
    ensures { OnOk result
        (Adds out.old out.new
        (json_tokens (region_json
        (record { address = start; bytes = region.now.bytes; writable = region.now.writable })))) }
{
    open_object(out)?;
    put_word(out, "address", start)?;
    put_byte_count(out, region)?;
    put_flag(out, "writable", region.writable)?;
    close_object(out)
}

/// The regions, each on the pages behind those of the one before.
fn put_placed(out: &mut Writer, regions: &[Region]) -> Result<(), AllocError>
    requires { length (page_rights regions.now) ≤ 64 }
    ensures { OnOk result (Adds out.old out.new (json_tokens (array_of (map region_json (placed regions.now))))) }
{
    open_array(out)?;
    let mut start = DATA_START;
    for region in regions {
        put_region(out, start, region)?;
        start = behind(start, region);
    }
    close_array(out)
}

/// The member of the regions.
fn put_regions(out: &mut Writer, regions: &[Region]) -> Result<(), AllocError>
    requires { length (page_rights regions.now) ≤ 64 }
    ensures { OnOk result (Adds out.old out.new (member_tokens (codes "regions") (array_of (map region_json (placed regions.now))))) }
{
    put_key(out, "regions")?;
    put_placed(out, regions)
}

/// The services, each by its name and whether it is declared.
fn put_services(out: &mut Writer, services: Services) -> Result<(), AllocError>
    ensures { OnOk result (Adds out.old out.new (member_tokens (codes "services") (services_json services.0))) }
{
    put_key(out, "services")?;
    open_object(out)?;
    put_flag(out, "exit", services.0 % 2 == 1)?;
    put_flag(out, "get", services.0 / 2 % 2 == 1)?;
    put_flag(out, "put", services.0 / 4 % 2 == 1)?;
    close_object(out)
}

/// The members of an image that stand before its lists.
fn put_sizes(
    out: &mut Writer,
    version: u16,
    services: Services,
    pages: u16,
    words: u32,
    bytes: u32,
) -> Result<(), AllocError>
    ensures { OnOk result (Adds out.old out.new (size_tokens version services.0 pages words bytes)) }
{
    put_half(out, "version", version)?;
    put_services(out, services)?;
    put_half(out, "stack_pages", pages)?;
    put_word(out, "words", words)?;
    put_word(out, "data_bytes", bytes)
}

/// Writes what an image declares.
fn put_image(alloc: Global, out: &mut Writer, image: &Image) -> Result<(), AllocError>
    ensures { OnOk result (Adds out.old out.new (json_tokens (image_json image.now))) }
{
    open_object(out)?;
    put_sizes(
        out,
        image.version(),
        image.services(),
        image.stack_pages(),
        image.word_count(),
        image.byte_count(),
    )?;
    put_regions(out, image.regions())?;
    put_member(alloc, out, "functions", image.functions())?;
    close_object(out)
}

/// The line of what an image declares: its version, services, pages of stack, words of code, bytes and regions of data,
/// and its functions with their blocks, cells and terms. It fails where memory is refused.
pub fn image_line(alloc: Global, image: &Image) -> Result<Vec<u8>, AllocError>
    ensures { IfOk result (λ line. IsLine (image_json image.now) line.items) }
{
    let mut out = new_line(alloc);
    put_image(alloc, &mut out, image)?;
    line_of(out)
}
