//! What the rules of a line ask of the lines before it.
ghost use Rattle.std.specs.Prelude.{◌≡◌, ℕ, false, ◌+◌, min, [], ◌∷◌, ◌++◌, List, if◌then◌else◌, map};
ghost use Rattle.sbx_image.specs.Cell.{Cell};
ghost use Rattle.sbx_image.specs.Term.{Term};
ghost use Rattle.sbx_asm.specs.Items.{Item, begins_block, has, services, stacks, params, results, depths, fuels, cells};
ghost use Rattle.sbx_asm.specs.Items.{terms};
ghost use Rattle.sbx_asm.specs.Rules.{Values, acts, takes_annotations, takes_ranges};
ghost use Rattle.sbx_asm.specs.Kept.{locations_of, context_at};

use crate::kinds::{ends_block, ends_function, is_block, is_data, is_region, starts_function};
use crate::place::LocationCounter;
use crate::reading::Line;
use sbx_directives::{Directive, Statement};

/// The most functions, blocks in all, regions, ranges in each of a function's lists, cells and terms of a block.
pub const FUNCTIONS: u16 = 256;

pub const BLOCKS: u16 = 4096;

pub const REGIONS: u16 = 8;

pub const RANGES: u16 = 6;

pub const CELLS: u16 = 64;

pub const TERMS: u16 = 8;

/// Locations that should ascend: how many there are, up to the most, and the last one, 0 before the first.
#[derive(Clone, Copy)]
pub struct Locations {
    pub count: u16,
    pub last: u16,
}

/// What the rules ask of all lines before. Each count goes up to the most that is allowed.
#[derive(Clone, Copy)]
pub struct Totals {
    pub functions: u16,
    pub blocks: u16,
    pub regions: u16,
    pub has_data: bool,
    pub has_services: bool,
    pub has_stack: bool,
}

/// What the rules ask of the lines since the function began.
#[derive(Clone, Copy)]
pub struct FunctionContext {
    /// Whether a function is open.
    pub is_open: bool,
    /// Whether there is a `.block`.
    pub has_block: bool,
    pub has_depth: bool,
    pub params: u16,
    pub results: u16,
}

/// What the rules ask of the lines since the block began.
#[derive(Clone, Copy)]
pub struct BlockContext {
    /// Whether a line acts.
    pub has_acted: bool,
    pub has_fuel: bool,
    pub cells: Locations,
    pub terms: Locations,
}

/// What the rules of a line ask of the lines before it.
#[derive(Clone, Copy)]
pub struct Context {
    pub place: LocationCounter,
    pub totals: Totals,
    pub function: FunctionContext,
    pub block: BlockContext,
}

fn has_services(line: &Line<'_, '_>) -> bool
    ensures { result ≡ has services line.now }
{
    matches!(
        line.said(),
        Ok(Statement::Directive(Directive::Services(_)))
    )
}

fn has_stack(line: &Line<'_, '_>) -> bool
    ensures { result ≡ has stacks line.now }
{
    matches!(line.said(), Ok(Statement::Directive(Directive::Stack(_))))
}

fn has_depth(line: &Line<'_, '_>) -> bool
    ensures { result ≡ has depths line.now }
{
    matches!(line.said(), Ok(Statement::Directive(Directive::Depth(_))))
}

fn has_fuel(line: &Line<'_, '_>) -> bool
    ensures { result ≡ has fuels line.now }
{
    matches!(line.said(), Ok(Statement::Directive(Directive::Fuel(_))))
}

fn is_param(line: &Line<'_, '_>) -> bool
    ensures { result ≡ has params line.now }
{
    matches!(line.said(), Ok(Statement::Directive(Directive::Param(_))))
}

fn is_result(line: &Line<'_, '_>) -> bool
    ensures { result ≡ has results line.now }
{
    matches!(line.said(), Ok(Statement::Directive(Directive::Result(_))))
}

/// A count with one more, where there is one.
fn counted(most: u16, count: u16, more: bool) -> u16
    ensures { (n : ℕ) → count ≡ min most n → result ≡ min most (if more then n + 1 else n) }
{
    if more && count < most {
        count + 1
    } else {
        count
    }
}

impl Locations {
    /// Before the first.
    fn none() -> Locations
        ensures { (most : ℕ) → result ≡ locations_of most [] }
    {
        Locations { count: 0, last: 0 }
    }

    fn with(self, most: u16, location: u16) -> Locations
        ensures { (locations : List ℕ) → self ≡ locations_of most locations →
            result ≡ locations_of most (location ∷ locations) }
    {
        Locations {
            count: counted(most, self.count, true),
            last: location,
        }
    }

    /// With a line that may be a cell.
    fn with_cell(self, line: &Line<'_, '_>) -> Locations
        ensures { (own : List Cell) → self ≡ locations_of 64 (map (λ (c : Cell). c.location) own) →
            result ≡ locations_of 64 (map (λ (c : Cell). c.location) (cells line.now ++ own)) }
    {
        match line.said() {
            Ok(Statement::Directive(Directive::Cell(cell))) => self.with(CELLS, cell.location),
            _ => self,
        }
    }

    /// With a line that may be a term.
    fn with_term(self, line: &Line<'_, '_>) -> Locations
        ensures { (own : List Term) → self ≡ locations_of 8 (map (λ (t : Term). t.location) own) →
            result ≡ locations_of 8 (map (λ (t : Term). t.location) (terms line.now ++ own)) }
    {
        match line.said() {
            Ok(Statement::Directive(Directive::Term(term))) => self.with(TERMS, term.location),
            _ => self,
        }
    }
}

impl Totals {
    /// Before the first line.
    fn none() -> Totals
        ensures { (values : Values) → result ≡ (context_at values []).totals }
    {
        Totals {
            functions: 0,
            blocks: 0,
            regions: 0,
            has_data: false,
            has_services: false,
            has_stack: false,
        }
    }

    /// With one more line.
    fn after(self, line: &Line<'_, '_>, begins: bool) -> Totals
        ensures { (values : Values) (before : List Item) → self ≡ (context_at values before).totals →
            begins ≡ begins_block before line.now → result ≡ (context_at values (line.now ∷ before)).totals }
    {
        Totals {
            functions: counted(FUNCTIONS, self.functions, starts_function(line)),
            blocks: counted(BLOCKS, self.blocks, begins),
            regions: counted(REGIONS, self.regions, is_region(line)),
            has_data: is_data(line) | self.has_data,
            has_services: has_services(line) | self.has_services,
            has_stack: has_stack(line) | self.has_stack,
        }
    }
}

impl FunctionContext {
    /// Behind a line that begins a function, or none.
    fn new(is_open: bool) -> FunctionContext
        ensures { result ≡ record { is_open = is_open; has_block = false; has_depth = false; params = 0; results = 0 } }
    {
        FunctionContext {
            is_open,
            has_block: false,
            has_depth: false,
            params: 0,
            results: 0,
        }
    }

    /// With one more line.
    fn after(self, line: &Line<'_, '_>) -> FunctionContext
        ensures { (values : Values) (before : List Item) → self ≡ (context_at values before).function →
            result ≡ (context_at values (line.now ∷ before)).function }
    {
        if ends_function(line) {
            FunctionContext::new(starts_function(line))
        } else {
            FunctionContext {
                is_open: self.is_open,
                has_block: is_block(line) | self.has_block,
                has_depth: has_depth(line) | self.has_depth,
                params: counted(RANGES, self.params, is_param(line)),
                results: counted(RANGES, self.results, is_result(line)),
            }
        }
    }
}

impl BlockContext {
    /// Behind a line that begins a block, or before the first.
    fn new(has_fuel: bool) -> BlockContext
        ensures { result ≡ record {
          has_acted = false;
          has_fuel = has_fuel;
          cells = locations_of 64 [];
          terms =
              locations_of 8 [];
        } }
    {
        BlockContext {
            has_acted: false,
            has_fuel,
            cells: Locations::none(),
            terms: Locations::none(),
        }
    }

    /// With one more line, of which it is known whether it acts and what it means to the block.
    fn after(
        self,
        line: &Line<'_, '_>,
        is_acting: bool,
        begins: bool,
        is_annotated: bool,
    ) -> BlockContext
        ensures { (values : Values) (before : List Item) → self ≡ (context_at values before).block →
            is_acting ≡ acts values line.now → begins ≡ begins_block before line.now →
            is_annotated ≡ takes_annotations values before
            → result ≡ (context_at values (line.now ∷ before)).block }
    {
        let has_fuel = !begins & ((has_fuel(line) & is_annotated) | self.has_fuel);
        if ends_block(line) {
            BlockContext::new(has_fuel)
        } else {
            BlockContext {
                has_acted: is_acting | self.has_acted,
                has_fuel,
                cells: self.cells.with_cell(line),
                terms: self.terms.with_term(line),
            }
        }
    }
}

impl Context {
    /// Before the first line.
    pub fn start() -> Context
        ensures { (values : Values) → result ≡ context_at values [] }
    {
        Context {
            place: LocationCounter::start(),
            totals: Totals::none(),
            function: FunctionContext::new(false),
            block: BlockContext::new(false),
        }
    }

    /// Whether a line begins a block: a `.function`, or a `.block` in one.
    pub fn begins_block(self, line: &Line<'_, '_>) -> bool
        ensures { (values : Values) (before : List Item) → self ≡ context_at values before →
            result ≡ begins_block before line.now }
    {
        starts_function(line) | (is_block(line) & self.function.is_open)
    }

    /// Whether an annotation may stand next.
    pub fn takes_annotations(self) -> bool
        ensures { (values : Values) (before : List Item) → self ≡ context_at values before →
            result ≡ takes_annotations values before }
    {
        self.function.is_open & !self.block.has_acted
    }

    /// Whether a parameter, a result or the depth may stand next.
    pub fn takes_ranges(self) -> bool
        ensures { (values : Values) (before : List Item) → self ≡ context_at values before →
            result ≡ takes_ranges values before }
    {
        self.takes_annotations() & !self.function.has_block
    }

    /// Behind one more line, of which it is known whether it acts.
    pub fn after(self, line: &Line<'_, '_>, is_acting: bool) -> Context
        ensures { (values : Values) (before : List Item) → self ≡ context_at values before →
            is_acting ≡ acts values line.now → result ≡ context_at values (line.now ∷ before) }
    {
        let begins_block = self.begins_block(line);
        let is_annotated = self.takes_annotations();
        Context {
            place: self.place.after(line),
            totals: self.totals.after(line, begins_block),
            function: self.function.after(line),
            block: self
                .block
                .after(line, is_acting, begins_block, is_annotated),
        }
    }
}
