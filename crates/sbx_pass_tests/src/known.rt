//! Rows of what is done to a state, and of what has to be known of it then.
use sbx_domain::{State, least};
use sbx_form::FormTerm;
use sbx_image::Range;
use v8_formats::decode;
use v8_word::Cond;

/// A range: its ends, and its alignment.
pub type Ends = (i32, i32, u8);

pub(crate) fn range(ends: Ends) -> Range {
    Range {
        lo: ends.0,
        hi: ends.1,
        alignment: ends.2,
    }
}

/// The same of a range that may be missing.
fn range_or_none(ends: Option<Ends>) -> Option<Range> {
    match ends {
        Some(ends) => Some(range(ends)),
        None => None,
    }
}

/// What is done to a state, or has to be known of it then.
#[derive(Clone, Copy)]
pub enum Row {
    /// A word of code, in a leaf.
    Word(u32),
    /// A word of code, in a frame of so many bytes.
    Framed(u32, u32),
    Set(u16, Option<Ends>),
    SetY(Option<Ends>),
    SetCodes(bool),
    /// Goes on where the condition holds, if it can.
    Branch(Cond, bool),
    /// A callee has returned with a result of this range.
    Return(Ends),
    Has(u16, Ends),
    HasNot(u16),
    /// The location's form is this constant and these multiples, by location.
    Form(u16, i64, &'static [(u16, i128)]),
    NoForm(u16),
    Least(u16, i128),
    Y(Option<Ends>),
    Codes(bool),
}

/// Whether a term is this multiple of this location.
fn is_term(term: &FormTerm, want: &(u16, i128)) -> bool {
    term.location == want.0 && term.coefficient == want.1
}

/// Whether these terms are as wanted, in turn.
fn are_terms(terms: &[FormTerm], want: &[(u16, i128)]) -> bool {
    for number in 0..terms.len() {
        match want.get(number) {
            Some(wanted) if is_term(&terms[number], wanted) => {}
            _ => return false,
        }
    }
    terms.len() == want.len()
}

fn has_form(state: &State, location: u16, constant: i64, want: &[(u16, i128)]) -> bool {
    match state.form(location) {
        Some(form) => {
            let terms = form.terms::<8>();
            form.constant() == constant && are_terms(&terms, want)
        }
        None => false,
    }
}

/// Whether the least value of a location's form is this, over the ranges of another state.
pub(crate) fn has_least(state: &State, location: u16, start: &State, want: i128) -> bool {
    match state.form(location) {
        Some(form) => least(&form, start) == want,
        None => false,
    }
}

/// Whether what is asked of a state is so.
fn is_known(state: &State, row: &Row) -> bool {
    match *row {
        Row::Has(location, want) => state.range(location) == Some(range(want)),
        Row::HasNot(location) => state.range(location).is_none(),
        Row::Form(location, constant, want) => has_form(state, location, constant, want),
        Row::NoForm(location) => state.form(location).is_none(),
        Row::Least(location, want) => has_least(state, location, state, want),
        Row::Y(want) => state.y() == range_or_none(want),
        Row::Codes(want) => state.icc() == want,
        _ => true,
    }
}

/// Does what a row does.
fn change(state: &mut State, row: &Row) -> bool {
    match *row {
        Row::Word(word) => state.transfer(0, &decode(word)),
        Row::Framed(frame, word) => state.transfer(frame, &decode(word)),
        Row::Set(location, ends) => state.set(location, range_or_none(ends)),
        Row::SetY(ends) => state.set_y(range_or_none(ends)),
        Row::SetCodes(defined) => state.set_icc(defined),
        Row::Branch(cond, possible) => return state.refine(cond) == possible,
        Row::Return(ends) => state.return_with(&[range(ends)]),
        _ => {}
    }
    true
}

/// The number of the first row, from 0, that isn't as it is wanted.
pub(crate) fn first_wrong(state: &mut State, rows: &[Row]) -> Option<usize> {
    for (number, row) in rows.iter().enumerate() {
        if !change(state, row) || !is_known(state, row) {
            return Some(number);
        }
    }
    None
}
