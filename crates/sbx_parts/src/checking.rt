//! Whether parts keep every limit and order, in the order of the fields.
ghost use Rattle.std.specs.Prelude.{◌≡◌, ◌≤◌, ◌+◌, ◌-◌, true, false, MatchResult, IfOk};
ghost use Rattle.sbx_parts.specs.declared.order.Next.TheVariants.{Exactly};
ghost use Rattle.sbx_parts.specs.declared.fault.ImageFault.TheVariants as fault;
ghost use Rattle.sbx_parts.specs.Rules.{wants, between, range_keeps, location_keeps, cell_keeps, term_keeps};
ghost use Rattle.sbx_parts.specs.Rules.{block_keeps, function_keeps, parts_keep, is_data, is_one_region, region_keeps};
ghost use Rattle.sbx_parts.specs.Rules.{is_known, is_version, is_depth, each, code_start};

use crate::fault::ImageFault;
use crate::lists::{HasRules, check_each};
use crate::order::{Next, admits, is_coefficient, is_fuel};
use crate::parts::{Block, Cell, Function, Parts, Range, Region, Term};
use crate::regions::{is_length_behind, pages_for};
use crate::services::Services;
use v8_map::CODE_START;

fn wants(test: bool, bad: ImageFault) -> Result<(), ImageFault>
    ensures { result ≡ wants test bad }
{
    if test { Ok(()) } else { Err(bad) }
}

fn between(low: u64, high: u64, n: u64) -> bool
    ensures { result ≡ between low high n }
{
    low <= n && n <= high
}

/// Whether no service has a bit above exit, get and put.
fn is_known(services: Services) -> bool
    ensures { result ≡ is_known services.0 }
{
    services.0 & 7 == services.0
}

/// Whether the version is one that is known: 1 to 3.
fn is_version(version: u16) -> bool
    ensures { result ≡ is_version version }
{
    between(1, 3, version as u64)
}

/// Whether regions are data of version 1: none, or one that has whole double words, up to 262,144 bytes, and may be
/// written.
fn is_one_region(regions: &[Region]) -> bool
    ensures { result ≡ is_one_region regions.now }
{
    match regions {
        [] => true,
        [only] => {
            let count = only.bytes.len();
            only.writable && (0 < count && (count <= 262144 && count % 8 == 0))
        }
        _ => false,
    }
}

/// Whether a version may have the regions, where they are counted: versions 2 and 3 have up to 8.
fn is_data(version: u16, regions: &[Region]) -> bool
    ensures { result ≡ is_data version regions.now }
{
    if version == 1 {
        is_one_region(regions)
    } else {
        regions.len() <= 8
    }
}

/// Whether a function of a version may have the depth, which version 3 alone tells.
fn is_depth(version: u16, depth: u16) -> bool
    ensures { result ≡ is_depth version depth }
{
    if version == 3 {
        depth <= 256
    } else {
        depth == 0
    }
}

fn check_location(last: u16, location: u16) -> Result<(), ImageFault>
    ensures { result ≡ location_keeps last location }
{
    wants(between(1, 1039, location as u64), ImageFault::Limit)?;
    wants(last < location, ImageFault::Order)
}

/// A function's number of blocks, where those of all functions so far are `before`.
fn check_count(before: u16, count: usize) -> Result<u16, ImageFault>
    ensures cases { MatchResult result (λ n. (n ≡ count) × (between 1 (4096 - before) count ≡ true))
        (λ e. (e ≡ fault.Limit) × (between 1 (4096 - before) count ≡ false)) }
    ensures room { IfOk result (λ n. before + n ≤ 4096) }
{
    let room = 4096u16.saturating_sub(before);
    if between(1, room as u64, count as u64) {
        Ok(count as u16)
    } else {
        Err(ImageFault::Limit)
    }
}

impl HasRules for Region {
    type Setting = ();

    type State = u16;

    ghost keeps = { λ _. region_keeps };

    #[tactic(auto, unfolding(crate::specs::Rules::region_keeps))]
    fn check(&self, _setting: (), pages: u16) -> Result<u16, ImageFault> {
        let count = self.bytes.len();
        wants(is_length_behind(pages, count), ImageFault::Limit)?;
        Ok(pages + pages_for(count) as u16)
    }
}

impl HasRules for Range {
    type Setting = ();

    type State = ();

    ghost keeps = { λ _ _ range. range_keeps range };

    #[tactic(auto, unfolding(crate::specs::Rules::range_keeps))]
    fn check(&self, _setting: (), _state: ()) -> Result<(), ImageFault> {
        if self.hi < self.lo {
            return Err(ImageFault::Range);
        }
        wants(between(0, 3, self.alignment as u64), ImageFault::Range)
    }
}

impl HasRules for Cell {
    type Setting = ();

    type State = u16;

    ghost keeps = { λ _. cell_keeps };

    #[tactic(auto, unfolding(crate::specs::Rules::cell_keeps))]
    fn check(&self, _setting: (), last: u16) -> Result<u16, ImageFault> {
        check_location(last, self.location)?;
        self.range.check((), ())?;
        Ok(self.location)
    }
}

impl HasRules for Term {
    type Setting = ();

    type State = u16;

    ghost keeps = { λ _. term_keeps };

    #[tactic(auto, unfolding(crate::specs::Rules::term_keeps))]
    fn check(&self, _setting: (), last: u16) -> Result<u16, ImageFault> {
        check_location(last, self.location)?;
        wants(is_coefficient(self.coefficient), ImageFault::Limit)?;
        Ok(self.location)
    }
}

impl HasRules for Block {
    type Setting = u32;

    type State = Next;

    ghost keeps = { block_keeps };

    #[tactic(auto, unfolding(crate::specs::Rules::block_keeps))]
    fn check(&self, end: u32, next: Next) -> Result<Next, ImageFault> {
        let cells = self.cells.as_slice();
        let terms = self.terms.as_slice();
        wants(admits(end, next, self.address), ImageFault::Order)?;
        wants(between(0, 64, cells.len() as u64), ImageFault::Limit)?;
        wants(between(0, 8, terms.len() as u64), ImageFault::Limit)?;
        wants(is_fuel(self.fuel), ImageFault::Limit)?;
        check_each((), 0, cells)?;
        check_each((), 0, terms)?;
        Ok(Next::Above(self.address))
    }
}

impl HasRules for Function {
    type Setting = (u16, u32);

    type State = (Next, u16);

    ghost keeps = { λ setting. function_keeps setting.0 setting.1 };

    #[tactic(auto, unfolding(crate::specs::Rules::function_keeps))]
    fn check(&self, setting: (u16, u32), place: (Next, u16)) -> Result<(Next, u16), ImageFault> {
        let (version, end) = setting;
        let params = self.params.as_slice();
        let results = self.results.as_slice();
        let blocks = self.blocks.as_slice();
        wants(between(0, 6, params.len() as u64), ImageFault::Limit)?;
        wants(between(0, 6, results.len() as u64), ImageFault::Limit)?;
        wants(admits(end, place.0, self.entry), ImageFault::Order)?;
        wants(between(0, 4096, self.frame as u64), ImageFault::Limit)?;
        wants(between(0, 65536, self.stack_room as u64), ImageFault::Limit)?;
        wants(between(0, 0xFF_FFFF_FFFF, self.budget), ImageFault::Limit)?;
        wants(is_depth(version, self.depth), ImageFault::Limit)?;
        let count = check_count(place.1, blocks.len())?;
        check_each((), (), params)?;
        check_each((), (), results)?;
        let next = check_each(end, Next::Exactly(self.entry), blocks)?;
        Ok((next, place.1 + count))
    }
}

fn check_functions(
    version: u16,
    end: u32,
    functions: &[Function],
) -> Result<(Next, u16), ImageFault>
    ensures { result ≡ each (function_keeps version end) (Exactly code_start, 0) functions.now }
{
    check_each((version, end), (Next::Exactly(CODE_START), 0), functions)
}

impl Parts {
    /// Whether they keep every limit and order; else the fault of the first field, in the order of the format, that
    /// breaks a rule: `Version`, `Service`, `Limit`, `Order` or `Range`.
    #[tactic(auto, unfolding(crate::specs::Rules::parts_keep))]
    pub fn check(&self) -> Result<(), ImageFault>
        ensures { result ≡ parts_keep self.now }
    {
        let count = self.words.len();
        wants(is_version(self.version), ImageFault::Version)?;
        wants(is_known(self.services), ImageFault::Service)?;
        wants(between(1, 65536, count as u64), ImageFault::Limit)?;
        let regions = self.regions.as_slice();
        wants(is_data(self.version, regions), ImageFault::Limit)?;
        wants(between(1, 16, self.stack_pages as u64), ImageFault::Limit)?;
        wants(
            between(1, 256, self.functions.len() as u64),
            ImageFault::Limit,
        )?;
        let end = CODE_START + 4 * count as u32;
        check_each((), 0, regions)?;
        check_functions(self.version, end, self.functions.as_slice())?;
        Ok(())
    }
}
