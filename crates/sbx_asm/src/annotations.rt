//! What lines say of a function, of a block or of the whole.
ghost use Rattle.std.specs.Prelude.{◌≡◌, if◌then◌else◌, get_or, IfOk};
ghost use Rattle.std.specs.List.{flat_map, list_any};
ghost use Rattle.sbx_asm.specs.Items.{services, stacks, params, results, depths, has, is_region};
ghost use Rattle.sbx_asm.specs.Images.{block_with};

use crate::reading::Line;
use sbx_directives::{Directive, Statement};
use sbx_image::{Block, Items, Range, Services};
use std::alloc::{AllocError, Global};

/// The ranges of a function's parameters and results, and its depth.
#[derive(Drop)]
pub struct Signature {
    pub params: Items<Range>,
    pub results: Items<Range>,
    pub depth: u16,
}

/// What is said of the whole.
#[derive(Drop)]
pub struct Heading {
    pub version: u16,
    pub services: Services,
    pub stack_pages: u16,
}

/// The signature that some lines say. Without a depth it is 0; of several the first counts.
pub fn signature_of(alloc: Global, lines: &[Line<'_, '_>]) -> Result<Signature, AllocError>
    ensures { IfOk result (λ found. (found.params ≡ flat_map params lines.now)
        × (found.results ≡ flat_map results lines.now) × (found.depth ≡ get_or (flat_map depths lines.now) 0 0)) }
{
    let mut params = Vec::new(alloc);
    let mut results = Vec::new(alloc);
    let mut depth = None;
    for line in lines {
        match line.said() {
            Ok(Statement::Directive(Directive::Param(range))) => params.push(range)?,
            Ok(Statement::Directive(Directive::Result(range))) => results.push(range)?,
            Ok(Statement::Directive(Directive::Depth(said))) => depth = depth.or(Some(said)),
            _ => {}
        }
    }
    Ok(Signature {
        params: Items::new(params),
        results: Items::new(results),
        depth: depth.unwrap_or(0),
    })
}

/// The block that begins at an address and has some lines. Without a fuel it is 0; of several the first counts.
pub fn block_with(alloc: Global, address: u32, lines: &[Line<'_, '_>]) -> Result<Block, AllocError>
    ensures { IfOk result (λ block. block ≡ block_with address lines.now) }
{
    let mut fuel = None;
    let mut cells = Vec::new(alloc);
    let mut terms = Vec::new(alloc);
    for line in lines {
        match line.said() {
            Ok(Statement::Directive(Directive::Fuel(said))) => fuel = fuel.or(Some(said)),
            Ok(Statement::Directive(Directive::Cell(cell))) => cells.push(cell)?,
            Ok(Statement::Directive(Directive::Term(term))) => terms.push(term)?,
            _ => {}
        }
    }
    Ok(Block {
        address,
        fuel: fuel.unwrap_or(0),
        cells: Items::new(cells),
        terms: Items::new(terms),
    })
}

/// The services and the pages of stack that are said first, and the version of the image format: the one that has
/// depths or, else, regions, where there are some.
#[tactic(auto, using(crate::proofs::Firsts::with_depths, crate::proofs::Firsts::with_regions))]
pub fn heading_of(lines: &[Line<'_, '_>]) -> Heading
    ensures { (result.version ≡
        (if list_any (has depths) lines.now then 3 else (if list_any is_region lines.now then 2 else 1)))
        × (result.services ≡ get_or (flat_map services lines.now) 0 (record { 0 = 0 }))
        × (result.stack_pages ≡ get_or (flat_map stacks lines.now) 0 1) }
{
    let mut version = 1;
    let mut services = None;
    let mut stack = None;
    for line in lines {
        match line.said() {
            Ok(Statement::Directive(Directive::Depth(_))) => version = 3,
            Ok(Statement::Directive(Directive::Region { .. })) => version = version.max(2),
            Ok(Statement::Directive(Directive::Services(set))) => services = services.or(Some(set)),
            Ok(Statement::Directive(Directive::Stack(pages))) => stack = stack.or(Some(pages)),
            _ => {}
        }
    }
    Heading {
        version,
        services: services.unwrap_or(Services(0)),
        stack_pages: stack.unwrap_or(1),
    }
}
