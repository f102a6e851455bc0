//! The one spelling of an image.
ghost use Rattle.std.specs.Prelude.{◌≡◌, ◌<◌, ◌≤◌, ◌^◌, ◌++◌, length, OnOk, IfOk, All};
ghost use Rattle.std.specs.Int.{w8, w16, w32, w64, to_be_bytes};
ghost use Rattle.std.specs.List.{flat_map};
ghost use Rattle.sbx_image.specs.Spelling.{kind_code, depth_text, signed, IsCountedBlock, IsCountedFunction};
ghost use Rattle.sbx_image.specs.Spelling.{block_text, cell_text, function_head_text, function_text, header_text};
ghost use Rattle.sbx_image.specs.Spelling.{range_text, region_text, data_count_text, shape_text, shapes_text, spelling};
ghost use Rattle.sbx_image.specs.Spelling.{term_text};

use crate::image::Image;
use sbx_parts::{Block, Cell, Function, Kind, Range, Region, Term};
use std::alloc::{AllocError, Global};

/// An item of a list, as the format spells it.
pub trait Writable {
    ghost use Rattle.std.specs.Prelude.{◌≡◌, ℕ, ◌++◌, List, OnOk};

    /// Its bytes.
    ghost text: { Self → List ℕ };

    /// Each of its lists has a length that its count can say.
    ghost is_counted: { Self → Type 0 } = { λ _. Unit {0} };

    /// Puts its bytes at the end.
    fn put(&self, out: &mut Vec<u8>) -> Result<(), AllocError>
        requires { is_counted self.now }
        ensures { OnOk result (out.new.items ≡ out.old.items ++ text self.now) };
}

/// Puts the bytes of each item at the end.
fn put_each<T: Writable>(out: &mut Vec<u8>, items: &[T]) -> Result<(), AllocError>
    requires { All T.is_counted items.now }
    ensures { OnOk result (out.new.items ≡ out.old.items ++ flat_map T.text items.now) }
{
    for item in items {
        item.put(out)?;
    }
    Ok(())
}

fn put_u8(out: &mut Vec<u8>, n: u8) -> Result<(), AllocError>
    ensures { OnOk result (out.new.items ≡ out.old.items ++ to_be_bytes w8 n) }
{
    out.extend_from_slice(&n.to_be_bytes())
}

fn put_u16(out: &mut Vec<u8>, n: u16) -> Result<(), AllocError>
    ensures { OnOk result (out.new.items ≡ out.old.items ++ to_be_bytes w16 n) }
{
    out.extend_from_slice(&n.to_be_bytes())
}

fn put_u32(out: &mut Vec<u8>, n: u32) -> Result<(), AllocError>
    ensures { OnOk result (out.new.items ≡ out.old.items ++ to_be_bytes w32 n) }
{
    out.extend_from_slice(&n.to_be_bytes())
}

fn put_u64(out: &mut Vec<u8>, n: u64) -> Result<(), AllocError>
    ensures { OnOk result (out.new.items ≡ out.old.items ++ to_be_bytes w64 n) }
{
    out.extend_from_slice(&n.to_be_bytes())
}

fn put_i32(out: &mut Vec<u8>, n: i32) -> Result<(), AllocError>
    ensures { OnOk result (out.new.items ≡ out.old.items ++ signed w32 n) }
{
    put_u32(out, n.cast_unsigned())
}

fn put_i64(out: &mut Vec<u8>, n: i64) -> Result<(), AllocError>
    ensures { OnOk result (out.new.items ≡ out.old.items ++ signed w64 n) }
{
    put_u64(out, n.cast_unsigned())
}

impl Writable for u32 {
    ghost text = { to_be_bytes w32 };

    fn put(&self, out: &mut Vec<u8>) -> Result<(), AllocError> {
        put_u32(out, *self)
    }
}

impl Writable for Region {
    ghost text = { region_text };

    fn put(&self, out: &mut Vec<u8>) -> Result<(), AllocError> {
        out.extend_from_slice(self.bytes.as_slice())
    }
}

impl Writable for Range {
    ghost text = { range_text };

    #[tactic(auto, unfolding(crate::specs::Spelling::range_text))]
    fn put(&self, out: &mut Vec<u8>) -> Result<(), AllocError> {
        put_i32(out, self.lo)?;
        put_i32(out, self.hi)?;
        put_u8(out, self.alignment)
    }
}

impl Writable for Cell {
    ghost text = { cell_text };

    #[tactic(auto, unfolding(crate::specs::Spelling::cell_text))]
    fn put(&self, out: &mut Vec<u8>) -> Result<(), AllocError> {
        put_u16(out, self.location)?;
        self.range.put(out)
    }
}

impl Writable for Term {
    ghost text = { term_text };

    #[tactic(auto, unfolding(crate::specs::Spelling::term_text))]
    fn put(&self, out: &mut Vec<u8>) -> Result<(), AllocError> {
        put_u16(out, self.location)?;
        put_i32(out, self.coefficient)
    }
}

impl Writable for Block {
    ghost text = { block_text };

    ghost is_counted = { IsCountedBlock };

    #[tactic(auto, unfolding(crate::specs::Spelling::block_text))]
    fn put(&self, out: &mut Vec<u8>) -> Result<(), AllocError> {
        let cells = self.cells.as_slice();
        let terms = self.terms.as_slice();
        put_u32(out, self.address)?;
        put_u16(out, cells.len() as u16)?;
        put_u16(out, terms.len() as u16)?;
        put_i64(out, self.fuel)?;
        put_each(out, cells)?;
        put_each(out, terms)
    }
}

/// The number of a kind.
fn kind_code(kind: Kind) -> u8
    ensures { result ≡ kind_code kind }
{
    match kind {
        Kind::Leaf => 0,
        Kind::Framed => 1,
    }
}

/// How many frames calls push at one time, which version 3 alone tells.
fn put_depth(out: &mut Vec<u8>, version: u16, function: &Function) -> Result<(), AllocError>
    ensures { OnOk result (out.new.items ≡ out.old.items ++ depth_text version function.now) }
{
    if version == 3 {
        put_u16(out, function.depth)
    } else {
        Ok(())
    }
}

#[tactic(auto, unfolding(crate::specs::Spelling::function_head_text))]
fn put_function_head(out: &mut Vec<u8>, version: u16, function: &Function) -> Result<(), AllocError>
    requires { IsCountedFunction function.now }
    ensures { OnOk result (out.new.items ≡ out.old.items ++ function_head_text version function.now) }
{
    put_u8(out, kind_code(function.kind))?;
    put_u8(out, function.params.len() as u8)?;
    put_u8(out, function.results.len() as u8)?;
    put_u8(out, 0)?;
    put_u32(out, function.entry)?;
    put_u32(out, function.frame)?;
    put_u32(out, function.stack_room)?;
    put_u64(out, function.budget)?;
    put_depth(out, version, function)?;
    put_u16(out, function.blocks.len() as u16)
}

#[tactic(auto, unfolding(crate::specs::Spelling::function_text))]
fn put_function(out: &mut Vec<u8>, version: u16, function: &Function) -> Result<(), AllocError>
    requires { IsCountedFunction function.now }
    ensures { OnOk result (out.new.items ≡ out.old.items ++ function_text version function.now) }
{
    put_function_head(out, version, function)?;
    put_each(out, function.params.as_slice())?;
    put_each(out, function.results.as_slice())?;
    put_each(out, function.blocks.as_slice())
}

/// Each function, as the image's version has it.
fn put_functions(out: &mut Vec<u8>, image: &Image) -> Result<(), AllocError>
    ensures { OnOk result
        (out.new.items ≡ out.old.items ++ flat_map (function_text image.now.version) image.now.functions) }
{
    for function in image.functions() {
        put_function(out, image.version(), function)?;
    }
    Ok(())
}

/// How many bytes of data version 1 has, or how many regions versions 2 and 3 have.
#[tactic(auto, unfolding(crate::specs::Spelling::data_count_text))]
fn put_data_count(out: &mut Vec<u8>, image: &Image) -> Result<(), AllocError>
    ensures { OnOk result (out.new.items ≡ out.old.items ++ data_count_text image.now) }
{
    if image.version() == 1 {
        put_u32(out, image.byte_count())
    } else {
        put_u16(out, image.regions().len() as u16)
    }
}

/// A region's length, and whether it may be written.
#[tactic(auto, unfolding(crate::specs::Spelling::shape_text))]
fn put_shape(out: &mut Vec<u8>, region: &Region) -> Result<(), AllocError>
    requires { length region.now.bytes ≤ 262144 }
    ensures { OnOk result (out.new.items ≡ out.old.items ++ shape_text region.now) }
{
    put_u32(out, region.bytes.len() as u32)?;
    put_u16(out, u16::from(region.writable))
}

/// Length and kind of each region; version 1 tells none.
#[tactic(auto, unfolding(crate::specs::Spelling::shapes_text))]
fn put_shapes(out: &mut Vec<u8>, image: &Image) -> Result<(), AllocError>
    ensures { OnOk result (out.new.items ≡ out.old.items ++ shapes_text image.now) }
{
    if image.version() == 1 {
        return Ok(());
    }
    for region in image.regions() {
        put_shape(out, region)?;
    }
    Ok(())
}

#[tactic(auto, unfolding(crate::specs::Spelling::header_text))]
fn put_header(out: &mut Vec<u8>, image: &Image) -> Result<(), AllocError>
    ensures { OnOk result (out.new.items ≡ out.old.items ++ header_text image.now) }
{
    put_u32(out, 0x5342_5838)?;
    put_u16(out, image.version())?;
    put_u16(out, image.services().0)?;
    put_u32(out, image.word_count())?;
    put_data_count(out, image)?;
    put_u16(out, image.stack_pages())?;
    put_u16(out, image.function_count())
}

/// The one spelling of an image.
#[tactic(auto, unfolding(crate::specs::Spelling::spelling))]
pub fn write(image: &Image, alloc: Global) -> Result<Vec<u8>, AllocError>
    ensures { IfOk result (λ v. v.items ≡ spelling image.now) }
{
    let mut out = Vec::new(alloc);
    put_header(&mut out, image)?;
    put_shapes(&mut out, image)?;
    put_each(&mut out, image.words())?;
    put_each(&mut out, image.regions())?;
    put_functions(&mut out, image)?;
    Ok(out)
}
