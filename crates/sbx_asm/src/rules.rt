//! The rules of each line, where the lines before it are known by their context.
ghost use Rattle.std.specs.Prelude.{◌≡◌, ◌*◌, ◌++◌, [], ◌∷◌, ℕ, nat_le, min, List, Ok, Option, if◌then◌else◌, ◌&&◌};
ghost use Rattle.std.specs.List.{list_any};
ghost use Rattle.sbx_directives.specs.declared.directive.Name.{Name};
ghost use Rattle.sbx_directives.specs.declared.fault.DataFault.{DataFault};
ghost use Rattle.v8_syntax.specs.Statements.{statement_length};
ghost use Rattle.sbx_directives.specs.declared.directive.Statement.TheVariants as statements;
ghost use Rattle.sbx_asm.specs.Items.{Item, count, starts_function, ends_function, is_data, is_region, in_function};
ghost use Rattle.sbx_asm.specs.Items.{block_count, up_to, depths, has};
ghost use Rattle.sbx_asm.specs.declared.fault.Cause.TheVariants as causes;
ghost use Rattle.sbx_asm.specs.Rules.{Values, when, in_place, data_rules, value_rules, block_rules, ascending};
ghost use Rattle.sbx_asm.specs.Rules.{takes_annotations, takes_ranges, has_fuel, value_fault_of, syntax_fault_of};
ghost use Rattle.sbx_asm.specs.Rules.{directive_rules, line_rules};
ghost use Rattle.sbx_asm.specs.Kept.{noted, locations_of, context_at};

use crate::context::{BLOCKS, CELLS, Context, FUNCTIONS, Locations, RANGES, REGIONS, TERMS};
use crate::fault::Cause;
use crate::notes::Notes;
use crate::place::{bytes_of_values, padding};
use crate::reading::Line;
use sbx_directives::{DataFault, Directive, Keyword, Statement};
use v8_syntax::SyntaxFault;

/// Whether there are as many as may be.
fn is_full(most: u16, count: u16) -> bool
    ensures { (n : ℕ) → count ≡ min most n → result ≡ nat_le most n }
{
    count >= most
}

/// A malformed list of values, or one that doesn't fit; an unknown symbol.
fn value_rules(notes: Notes, fault: Option<DataFault>) -> Notes
    ensures { result ≡ noted (value_rules fault) notes }
{
    match fault {
        Some(DataFault::UnknownSymbol) => notes.with(Cause::Syntax(SyntaxFault::UnknownSymbol)),
        Some(DataFault::Malformed) => notes.with(Cause::Directive),
        _ => notes,
    }
}

/// What stands once, and in its place.
fn once(notes: Notes, again: bool, placed: bool) -> Notes
    ensures { result ≡ noted (if again then causes.Directive ∷ [] else in_place placed []) notes }
{
    if again {
        notes.with(Cause::Directive)
    } else {
        notes.with_where(!placed, Cause::Annotation)
    }
}

impl Context {
    /// Data stand in the data section, within its room.
    fn data_rules(self, notes: Notes, bytes: u128) -> Notes
        ensures { (values : Values) (before : List Item) → self ≡ context_at values before →
            result ≡ noted (data_rules before bytes) notes }
    {
        let room = self.place.data_has_room(bytes);
        notes
            .with_where(self.place.in_code, Cause::Directive)
            .with_where(!room, Cause::Limit)
    }

    /// At most 4,096 blocks in all.
    fn another_block(self, notes: Notes) -> Notes
        ensures { (values : Values) (before : List Item) → self ≡ context_at values before →
            result ≡ noted (when (nat_le 4096 (block_count before)) causes.Limit) notes }
    {
        notes.with_where(is_full(BLOCKS, self.totals.blocks), Cause::Limit)
    }

    /// A `.block` stands in a function.
    fn block_rules(self, notes: Notes) -> Notes
        ensures { (values : Values) (before : List Item) → self ≡ context_at values before →
            result ≡ noted (block_rules before) notes }
    {
        if self.function.is_open {
            self.another_block(notes)
        } else {
            notes.with(Cause::Annotation)
        }
    }

    /// At most 256 functions.
    fn function_rules(self, notes: Notes) -> Notes
        ensures { (values : Values) (before : List Item) → self ≡ context_at values before →
            result ≡ noted
            (when (nat_le 256 (count starts_function before)) causes.Limit
            ++ when (nat_le 4096 (block_count before)) causes.Limit) notes }
    {
        let full = is_full(FUNCTIONS, self.totals.functions);
        self.another_block(notes.with_where(full, Cause::Limit))
    }

    /// Regions beside no `.data`, and at most 8.
    fn region_rules(self, notes: Notes) -> Notes
        ensures { (values : Values) (before : List Item) → self ≡ context_at values before →
            result ≡ noted
            (when (list_any is_data before) causes.Directive
            ++ when (nat_le 8 (count is_region before)) causes.Limit) notes }
    {
        let full = is_full(REGIONS, self.totals.regions);
        notes
            .with_where(self.totals.has_data, Cause::Directive)
            .with_where(full, Cause::Limit)
    }

    /// At most 6 params or results, of which there are so many.
    fn range_rules(self, notes: Notes, count: u16) -> Notes
        ensures { (values : Values) (before : List Item) (n : ℕ) → self ≡ context_at values before → count ≡ min 6 n →
            result ≡ noted (in_place (takes_ranges values before) (when (nat_le 6 n) causes.Limit)) notes }
    {
        if self.takes_ranges() {
            notes.with_where(is_full(RANGES, count), Cause::Limit)
        } else {
            notes.with(Cause::Annotation)
        }
    }

    /// At most so many cells or terms of a block: their locations ascend.
    fn location_rules(self, notes: Notes, most: u16, locations: Locations, location: u16) -> Notes
        ensures { (values : Values) (before : List Item) (others : List ℕ) → self ≡ context_at values before →
            locations ≡ locations_of most others →
            result ≡ noted (in_place (takes_annotations values before) (ascending most others location)) notes }
    {
        if self.takes_annotations() {
            let full = is_full(most, locations.count);
            notes
                .with_where(full, Cause::Limit)
                .with_where(location <= locations.last, Cause::Directive)
        } else {
            notes.with(Cause::Annotation)
        }
    }

    /// At most one `.depth` of a function, in its first block.
    fn depth_rules(self, notes: Notes) -> Notes
        ensures { (values : Values) (before : List Item) → self ≡ context_at values before →
            result ≡ noted
            (if in_function before && list_any (has depths) (up_to ends_function before) then causes.Directive ∷ []
            else in_place (takes_ranges values before) []) notes }
    {
        let again = self.function.is_open & self.function.has_depth;
        once(notes, again, self.takes_ranges())
    }

    /// At most one `.fuel` of a block.
    fn fuel_rules(self, notes: Notes) -> Notes
        ensures { (values : Values) (before : List Item) → self ≡ context_at values before →
            result ≡ noted
            (if has_fuel values before then causes.Directive ∷ []
            else in_place (takes_annotations values before) []) notes }
    {
        once(notes, self.block.has_fuel, self.takes_annotations())
    }

    /// The rules of a directive, where it is known why its values have no bytes.
    fn directive_rules(self, notes: Notes, directive: Directive, fault: Option<DataFault>) -> Notes
        ensures { (values : Values) (before : List Item) (i : Item) → self ≡ context_at values before →
            fault ≡ value_fault_of values i → result ≡ noted (directive_rules values before i directive) notes }
    {
        match directive {
            Directive::Text => notes,
            Directive::Data => notes.with_where(self.totals.regions > 0, Cause::Directive),
            Directive::Region { .. } => self.region_rules(notes),
            Directive::Services(_) => {
                notes.with_where(self.totals.has_services, Cause::Directive)
            }
            Directive::Stack(_) => notes.with_where(self.totals.has_stack, Cause::Directive),
            Directive::Function { .. } => self.function_rules(notes),
            Directive::Param(_) => self.range_rules(notes, self.function.params),
            Directive::Result(_) => self.range_rules(notes, self.function.results),
            Directive::Depth(_) => self.depth_rules(notes),
            Directive::Block(_) => self.block_rules(notes),
            Directive::Cell(cell) => {
                self.location_rules(notes, CELLS, self.block.cells, cell.location)
            }
            Directive::Fuel(_) => self.fuel_rules(notes),
            Directive::Term(term) => {
                self.location_rules(notes, TERMS, self.block.terms, term.location)
            }
            Directive::Values(width, count) => {
                let placed = self.data_rules(notes, bytes_of_values(width, count));
                value_rules(placed, fault)
            }
            Directive::Skip(count) => self.data_rules(notes, u128::from(count)),
            Directive::Align(unit) => {
                let zeros = padding(unit, self.place.region_bytes);
                self.data_rules(notes, u128::from(zeros))
            }
        }
    }

    /// A directive with bad operands; a `.block` begins a block all the same.
    fn malformed_rules(self, notes: Notes, keyword: Keyword) -> Notes
        ensures { (values : Values) (before : List Item) (i : Item) (name : Option Name) →
            self ≡ context_at values before →
            result ≡ noted (line_rules values before i (Ok (statements.Malformed keyword name))) notes }
    {
        match keyword {
            Keyword::Block => self.block_rules(notes).with(Cause::Directive),
            _ => notes.with(Cause::Directive),
        }
    }

    /// An instruction stands in the code, in a function, within the code's room; it is told why it has no words.
    fn instruction_rules(self, notes: Notes, bytes: u128, fault: Option<SyntaxFault>) -> Notes
        ensures { (values : Values) (before : List Item) (i : Item) → self ≡ context_at values before →
            bytes ≡ 4 * statement_length i.bytes i.tokens → fault ≡ syntax_fault_of values before i
            → result ≡ noted (line_rules values before i (Ok statements.Instruction)) notes }
    {
        let placed = self.place.in_code & self.function.is_open;
        let room = self.place.code_has_room(bytes);
        let notes = notes
            .with_where(!placed, Cause::Directive)
            .with_where(!room, Cause::Limit);
        match fault {
            None => notes,
            Some(fault) => notes.with(Cause::Syntax(fault)),
        }
    }

    /// The rules of a line but those that look behind it, where it is known why its operands mean nothing.
    pub fn line_rules(
        self,
        notes: Notes,
        line: &Line<'_, '_>,
        value_fault: Option<DataFault>,
        syntax_fault: Option<SyntaxFault>,
    ) -> Notes
        ensures { (values : Values) (before : List Item) → self ≡ context_at values before →
            value_fault ≡ value_fault_of values line.now → syntax_fault ≡ syntax_fault_of values before line.now
            → result ≡ noted (line_rules values before line.now line.now.said) notes }
    {
        match line.said() {
            Err(fault) => notes.with(Cause::Text(fault)),
            Ok(Statement::Nothing) => notes,
            Ok(Statement::Directive(directive)) => {
                self.directive_rules(notes, directive, value_fault)
            }
            Ok(Statement::Malformed(keyword, _)) => self.malformed_rules(notes, keyword),
            Ok(Statement::Instruction) => {
                self.instruction_rules(notes, line.code_length(), syntax_fault)
            }
        }
    }
}
