//! The two sides of the rule of fuel worked out, with the numbers at which the fuel is scarcest. A block's cells began
//! with numbers of their ranges, whose multiples aren't looked at; a location with a form holds what that makes of
//! them, another one any number of its range.
use inspect_known::{Fuel, FuelSides};
use sbx_domain::State;
use sbx_form::FormTerm;
use sbx_image::Range;
use std::alloc::AllocError;

/// A way from a block to another one: the fuel of the block and what is known where it begins, the fuel of the other
/// block and what is known on the way to it.
#[derive(Clone, Copy)]
pub(crate) struct Edge<'a> {
    pub(crate) fuel: &'a Fuel,
    pub(crate) beginning: &'a State,
    pub(crate) next: &'a Fuel,
    pub(crate) there: &'a State,
}

/// What stands before the fuel that there is.
const AT_WORST: &str = "  at worst there are  ";

/// The upper end of a range or the lower one; 0 where nothing is known.
fn end_of(range: Option<Range>, is_upper: bool) -> i128 {
    match range {
        Some(range) => i128::from(if is_upper { range.hi } else { range.lo }),
        None => 0,
    }
}

/// The coefficient of a location among terms; 0 where none names it.
fn coefficient_of(terms: &[FormTerm], location: u16) -> i128 {
    for term in terms {
        if term.location == location {
            return term.coefficient;
        }
    }
    0
}

/// A constant and multiples of the numbers with which a block's cells began, with those that an edge has for them.
fn value_at(edge: &Edge<'_>, constant: i64, terms: &[FormTerm]) -> i128 {
    let mut value = i128::from(constant);
    for term in terms {
        let number = edge.began(term.location);
        value = value.saturating_add(term.coefficient.saturating_mul(number));
    }
    value
}

impl Edge<'_> {
    /// By how much the fuel of the other block grows with the number with which a location began.
    fn growth(&self, location: u16) -> i128 {
        let mut growth = 0i128;
        for term in self.next.terms.as_slice() {
            if let Some(form) = self.there.form(term.location) {
                let terms = form.terms::<8>();
                let times = coefficient_of(terms.as_slice(), location);
                growth = growth.saturating_add(term.coefficient.saturating_mul(times));
            }
        }
        growth
    }

    /// The number with which a location of the block began, where its fuel is scarcest.
    fn began(&self, location: u16) -> i128 {
        let own = coefficient_of(self.fuel.terms.as_slice(), location);
        end_of(self.beginning.range(location), self.growth(location) > own)
    }

    /// The number that the location of a term of the other block's fuel holds there.
    fn holds(&self, term: FormTerm) -> i128 {
        match self.there.form(term.location) {
            Some(form) => {
                let terms = form.terms::<8>();
                value_at(self, form.constant(), terms.as_slice())
            }
            None => end_of(self.there.range(term.location), term.coefficient > 0),
        }
    }
}

/// The numbers with which a sum is worked out.
#[derive(Clone, Copy)]
enum Numbers<'a> {
    /// Those of where a block begins that make its fuel least.
    Least(&'a State),
    /// The same that make it greatest.
    Greatest(&'a State),
    /// Those with which an edge's block began, where its fuel is scarcest.
    Began(&'a Edge<'a>),
    /// What the locations hold then at the end of the edge.
    Held(&'a Edge<'a>),
}

impl Numbers<'_> {
    /// The number of a term's location.
    fn at(&self, term: FormTerm) -> i128 {
        let (location, grows) = (term.location, term.coefficient > 0);
        match self {
            Numbers::Least(beginning) => end_of(beginning.range(location), !grows),
            Numbers::Greatest(beginning) => end_of(beginning.range(location), grows),
            Numbers::Began(edge) => edge.began(location),
            Numbers::Held(edge) => edge.holds(term),
        }
    }
}

/// Pushes the terms of a sum with their numbers, and what it comes to, and gives that.
fn push_products(
    out: &mut String,
    constant: i128,
    terms: &[FormTerm],
    numbers: Numbers<'_>,
) -> Result<i128, AllocError> {
    let mut sum = constant;
    for term in terms {
        let (coefficient, number) = (term.coefficient, numbers.at(*term));
        write!(out, " + {coefficient} * {number}")?;
        sum = sum.saturating_add(coefficient.saturating_mul(number));
    }
    write!(out, " = {sum}")?;
    Ok(sum)
}

/// Pushes a block's fuel with its numbers behind a heading, and gives what it comes to.
fn push_worked(
    out: &mut String,
    heading: &str,
    fuel: &Fuel,
    numbers: Numbers<'_>,
) -> Result<i128, AllocError> {
    let constant = i128::from(fuel.constant);
    write!(out, "{heading}{constant}")?;
    if fuel.terms.is_empty() {
        return Ok(constant);
    }
    push_products(out, constant, fuel.terms.as_slice(), numbers)
}

/// Pushes the turns up to an edge and the fuel of the block that it leads to, and gives what they come to.
fn push_next(out: &mut String, edge: &Edge<'_>, weight: u64) -> Result<i128, AllocError> {
    let constant = edge.next.constant;
    write!(out, "\n  and asked for are   {weight} + {constant}")?;
    let start = i128::from(weight).saturating_add(i128::from(constant));
    push_products(out, start, edge.next.terms.as_slice(), Numbers::Held(edge))
}

/// Ends the line of the greater side, with an arrow and how much is lacking where it is greater.
fn push_verdict(out: &mut String, there: i128, asked: i128) -> Result<bool, AllocError> {
    if asked > there {
        let lacking = asked.saturating_sub(there);
        writeln!(out, "   <- {lacking} too few")?;
    } else {
        out.push_str("\n")?;
    }
    Ok(asked > there)
}

/// The two sides of the rule of fuel on a way to another block; gives whether there is too little.
pub(crate) fn push_edge_sides(
    out: &mut String,
    edge: &Edge<'_>,
    weight: u64,
) -> Result<bool, AllocError> {
    let there = push_worked(out, AT_WORST, edge.fuel, Numbers::Began(edge))?;
    let asked = push_next(out, edge, weight)?;
    push_verdict(out, there, asked)
}

/// The two sides of the rule of fuel where the run or the function ends, behind a line that says so.
pub(crate) fn push_end_sides(
    out: &mut String,
    place: &str,
    sides: &FuelSides,
    beginning: &State,
) -> Result<(), AllocError> {
    out.push_str(place)?;
    let there = push_worked(out, AT_WORST, &sides.fuel, Numbers::Least(beginning))?;
    let weight = sides.weight;
    write!(out, "\n  and asked for are   {weight}")?;
    push_verdict(out, there, i128::from(weight))?;
    Ok(())
}

/// A function's budget beside its first block's fuel.
pub(crate) fn push_budget_sides(
    out: &mut String,
    budget: u64,
    fuel: &Fuel,
    beginning: &State,
) -> Result<(), AllocError> {
    writeln!(
        out,
        "\nas the function begins\n  the budget is       {budget}"
    )?;
    let asked = push_worked(
        out,
        "  and asked for are   ",
        fuel,
        Numbers::Greatest(beginning),
    )?;
    push_verdict(out, i128::from(budget), asked)?;
    Ok(())
}
