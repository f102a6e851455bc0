//! Linear forms as a state keeps them.
ghost use Rattle.std.specs.Prelude.{◌≡◌, ℕ, ℤ, ◌≤◌, ◌^◌, ◌+◌, ◌-◌, ◌+ℤ◌, ◌*ℤ◌, true, Some, length, take, drop};
ghost use Rattle.std.specs.Prelude.{replicate, unsigned_abs, slice_index_or};
ghost use Rattle.std.specs.List.{list_all};
ghost use Rattle.arrayvec.specs.ArrayVec.{array_vec_len};
ghost use Rattle.sbx_form.specs.declared.terms.FormTerm.{FormTerm};
ghost use Rattle.sbx_form.specs.Forms.{AreWithin, AscendFrom};
ghost use Rattle.sbx_domain.specs.Forms.{ascend_from, combined, constant_form, form_of_location, is_kept, is_small};
ghost use Rattle.sbx_domain.specs.Forms.{kept};
ghost use Rattle.sbx_domain.specs.Packed.{blank, no_term};

use crate::term::{BLANK, KeptTerm};
use arrayvec::ArrayVec;
use sbx_form::{FormTerm, add_terms};
use std::marker::Model;

/// A constant plus at most eight terms, by location, over the numbers that a block's cells start with. No coefficient
/// is above 2^32 in magnitude, and the constant isn't above 2^40. Locations ascend, so each stands once.
#[derive(Clone, Copy)]
pub struct Lin {
    constant: i64,
    // those from `count` on are blank
    terms: [KeptTerm; 8],
    count: u8,
}

impl Model for Lin {
    ghost use Rattle.std.specs.Prelude.{◌≡◌, ◌≤◌, ◌-◌, ◌++◌, true, Some, length, take, drop, replicate};
    ghost use Rattle.sbx_domain.specs.Forms.{Form, ascend_from, is_kept};
    ghost use Rattle.sbx_domain.specs.Packed.{blank, count_back, terms_back};

    ghost Value = { Form };

    ghost view = { λ f. record { constant = f.constant; terms = take f.count f.terms } };

    ghost invariant = { λ f. (f.count ≤ 8) × (f.count ≤ length f.terms) × (drop f.count f.terms ≡ replicate (8 - f.count) blank)
        × (is_kept (record { constant = f.constant; terms = take f.count f.terms }) ≡ true)
        × (ascend_from 0 (take f.count f.terms) ≡ true) };

    ghost inverse = { λ v. record {
      constant = v.constant;
      terms = v.terms ++ replicate (8 - length v.terms) blank;
      count = length v.terms;
    } };

    ghost inverse_ok = { λ f h i. record {
      constant = f.constant;
      terms = terms_back f.count f.terms h.1 h.2 i;
      count =
          count_back f.count f.terms h.1 i;
    } };
}

/// The term at a place, as it is kept; blank past the end.
fn kept_at(terms: &[FormTerm], place: usize) -> KeptTerm
    requires { list_all (λ t. is_small (2 ^ 32) t.coefficient) terms.now ≡ true }
    ensures { result ≡ slice_index_or terms.now place no_term }
{
    if place < terms.len() {
        KeptTerm::of(terms[place])
    } else {
        BLANK
    }
}

/// At most eight terms, with blanks behind them.
fn packed(terms: &[FormTerm]) -> [KeptTerm; 8]
    requires few { length terms.now ≤ 8 }
    requires small { list_all (λ t. is_small (2 ^ 32) t.coefficient) terms.now ≡ true }
    ensures size { length result ≡ 8 }
    ensures terms { take (length terms.now) result ≡ terms.now }
    ensures blanks { drop (length terms.now) result ≡ replicate (8 - length terms.now) blank }
{
    [
        kept_at(terms, 0),
        kept_at(terms, 1),
        kept_at(terms, 2),
        kept_at(terms, 3),
        kept_at(terms, 4),
        kept_at(terms, 5),
        kept_at(terms, 6),
        kept_at(terms, 7),
    ]
}

fn is_small(term: &FormTerm) -> bool
    ensures { result ≡ is_small (2 ^ 32) term.now.coefficient }
{
    term.coefficient.unsigned_abs() <= 1 << 32
}

fn are_small(terms: &[FormTerm]) -> bool
    ensures { result ≡ list_all (λ t. is_small (2 ^ 32) t.coefficient) terms.now }
{
    terms.iter().all(|term| is_small(term))
}

/// The form of a constant and these terms, unless it is too large to be kept.
#[tactic(auto, unfolding(crate::specs::Forms::is_kept))]
fn kept(constant: i128, terms: &[FormTerm]) -> Option<Lin>
    requires { ascend_from 0 terms.now ≡ true }
    ensures { result ≡ kept (record { constant = constant; terms = terms.now }) }
{
    if terms.len() <= 8 && constant.unsigned_abs() <= 1 << 40 && are_small(terms) {
        Some(Lin {
            constant: constant as i64,
            terms: packed(terms),
            count: terms.len() as u8,
        })
    } else {
        None
    }
}

/// The terms as they were before they were kept.
fn unpacked<const N: usize>(kept: &[KeptTerm]) -> ArrayVec<FormTerm, N>
    requires { length kept.now ≤ N }
    ensures { result.items ≡ kept.now }
{
    let mut terms = ArrayVec::new();
    for term in kept {
        terms.push(term.term());
    }
    terms
}

fn scaled(times: i32, constant: i64) -> i128
    requires { unsigned_abs constant ≤ 2 ^ 40 }
    ensures value { result ≡ times *ℤ constant }
    ensures bound { unsigned_abs result ≤ 2 ^ 72 }
{
    i128::from(times) * i128::from(constant)
}

pub(crate) fn with_constant(sum: i128, constant: i64) -> i128
    requires { unsigned_abs sum ≤ 2 ^ 106 }
    ensures { result ≡ sum +ℤ constant }
{
    sum + i128::from(constant)
}

/// So many times one form, and another.
fn with_multiple(times: i32, form: &Lin, other: &Lin) -> Option<Lin>
    ensures { result ≡ combined times (Some form.now) (Some other.now) }
{
    let mut terms: ArrayVec<FormTerm, 16> = other.terms();
    let more: ArrayVec<FormTerm, 8> = form.terms();
    add_terms(&mut terms, times, more.as_slice());
    let constant = with_constant(scaled(times, form.constant()), other.constant());
    kept(constant, terms.as_slice())
}

/// The same, where both are there.
pub(crate) fn combined(times: i32, form: Option<Lin>, other: Option<Lin>) -> Option<Lin>
    ensures { result ≡ combined times form other }
{
    match (form, other) {
        (Some(form), Some(other)) => with_multiple(times, &form, &other),
        _ => None,
    }
}

impl Lin {
    /// A number alone.
    #[tactic(auto, unfolding(crate::specs::Forms::is_kept))]
    pub fn of_constant(constant: i32) -> Lin
        ensures { result ≡ constant_form constant }
    {
        Lin {
            constant: i64::from(constant),
            terms: [BLANK; 8],
            count: 0,
        }
    }

    /// The number that a location starts with.
    #[tactic(auto, unfolding(crate::specs::Forms::is_kept))]
    pub(crate) fn of_location(location: u16) -> Lin
        ensures { result ≡ form_of_location location }
    {
        let term = KeptTerm::once(location);
        Lin {
            constant: 0,
            terms: [term, BLANK, BLANK, BLANK, BLANK, BLANK, BLANK, BLANK],
            count: 1,
        }
    }

    /// The constant.
    pub fn constant(&self) -> i64
        ensures value { result ≡ self.now.constant }
        ensures small { unsigned_abs result ≤ 2 ^ 40 }
    {
        self.constant
    }

    /// The terms, by location, which ascends.
    pub fn terms<const N: usize>(&self) -> ArrayVec<FormTerm, N>
        requires { 8 ≤ N }
        ensures value { result.items ≡ self.now.terms }
        ensures few { length result.items ≤ 8 }
        ensures ascending { AscendFrom 0 result.items }
        ensures small { AreWithin (2 ^ 32) result.items }
    {
        unpacked(&self.terms[..usize::from(self.count)])
    }
}
