//! What a block starts with: the ranges of its cells, and its fuel over their numbers.
ghost use Rattle.std.specs.Prelude.{◌≡◌, ◌^◌, ◌<◌, ◌≤◌, length, not, map, unsigned_abs};
ghost use Rattle.std.specs.List.{list_any};
ghost use Rattle.arrayvec.specs.ArrayVec.{array_vec_len};
ghost use Rattle.sbx_form.specs.Forms.{AreWithin};
ghost use Rattle.sbx_rules.specs.Known.{cell_entry, range_at, range_of_entry, started};
ghost use Rattle.sbx_rules.specs.Ways.{cells_of, counted, form_term, names_cell, out_cells};
ghost use Rattle.sbx_fuel.specs.Least.{negated};

use arrayvec::ArrayVec;
use sbx_form::FormTerm;
use sbx_image::{Block, Cell, Function, Range, Term};
use sbx_rules::LOCATIONS;

/// The range of a location among cells.
fn cell_range(cells: &[Cell], location: u16) -> Option<Range>
    ensures { result ≡ range_of_entry (cell_entry cells.now location) }
{
    for cell in cells {
        if cell.location == location {
            return Some(cell.range);
        }
    }
    None
}

/// The range of a location among params, which stand from `%o0` on.
fn param_range(params: &[Range], location: u16) -> Option<Range>
    ensures { result ≡ range_of_entry (cell_entry (out_cells 8 params.now) location) }
{
    if location < 8 {
        return None;
    }
    let place = usize::from(location) - 8;
    if place < params.len() {
        Some(params[place])
    } else {
        None
    }
}

/// The range of a location among a block's cells, which are the params in a first block.
fn cell_at(function: &Function, number: usize, block: &Block, location: u16) -> Option<Range>
    ensures { result ≡ range_of_entry (cell_entry (cells_of function.now number block.now) location) }
{
    if number == 0 {
        param_range(function.params.as_slice(), location)
    } else {
        cell_range(block.cells.as_slice(), location)
    }
}

/// The range of a location where a block starts.
pub(crate) fn start_range(
    function: &Function,
    number: usize,
    block: &Block,
    location: u16,
) -> Option<Range>
    ensures { result ≡ range_at (started (cells_of function.now number block.now)) location }
{
    if 0 < location && usize::from(location) < LOCATIONS {
        cell_at(function, number, block, location)
    } else {
        None
    }
}

/// Whether a location is a cell's.
fn names(function: &Function, number: usize, block: &Block, location: u16) -> bool
    ensures { result ≡ names_cell (cells_of function.now number block.now) location }
{
    cell_at(function, number, block, location).is_some()
}

/// Whether a term names no cell.
pub(crate) fn names_none(function: &Function, number: usize, block: &Block) -> bool
    ensures { result ≡
        list_any (λ t. not (names_cell (cells_of function.now number block.now) t.location)) block.now.terms }
{
    block
        .terms
        .as_slice()
        .iter()
        .any(|term| !names(function, number, block, term.location))
}

/// The terms of the fuel of a function's block of that number, as the rules count them: one that names no cell counts
/// 0. A coefficient is in turns for each 1 of its location's number.
pub fn fuel_terms<const N: usize>(
    function: &Function,
    number: usize,
    block: &Block,
) -> ArrayVec<FormTerm, N>
    requires { length block.now.terms ≤ N }
    ensures value { result.items ≡ counted (cells_of function.now number block.now) block.now.terms }
    ensures small { AreWithin (2 ^ 31) result.items }
    ensures few { array_vec_len result ≤ length block.now.terms }
{
    let mut terms = ArrayVec::new();
    for term in block.terms.as_slice() {
        if names(function, number, block, term.location) {
            terms.push(form_term(*term));
        }
    }
    terms
}

/// A term as forms have them.
fn form_term(term: Term) -> FormTerm
    ensures value { result ≡ form_term term }
    ensures small { unsigned_abs result.coefficient ≤ 2 ^ 31 }
{
    FormTerm {
        location: term.location,
        coefficient: i128::from(term.coefficient),
    }
}

/// The term with the opposite coefficient.
pub(crate) fn negated(term: FormTerm) -> FormTerm
    requires { unsigned_abs term.coefficient ≤ 2 ^ 31 }
    ensures value { result ≡ negated term }
    ensures small { unsigned_abs result.coefficient ≤ 2 ^ 31 }
{
    FormTerm {
        location: term.location,
        coefficient: -term.coefficient,
    }
}

/// The terms with the opposite coefficients.
pub(crate) fn all_negated(terms: &[FormTerm]) -> ArrayVec<FormTerm, 8>
    requires few { length terms.now ≤ 8 }
    requires small { AreWithin (2 ^ 31) terms.now }
    ensures value { result.items ≡ map negated terms.now }
    ensures small { AreWithin (2 ^ 31) result.items }
{
    let mut opposites = ArrayVec::new();
    for term in terms {
        opposites.push(negated(*term));
    }
    opposites
}
